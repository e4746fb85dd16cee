//! The names that a map gave so far, each found by one look.

ghost use Rattle.std.specs.Prelude.{◌≡◌, ◌||◌, List, ℕ, IfOk, OnOk};
ghost use Rattle.std.specs.BTreeSet.{contains_text};
ghost use Rattle.std.specs.Str.{bytes_eq};

use net_base::{NoMemory, Text};
use std::alloc::Global;
use std::collections::BTreeSet;

/// The texts of a map's keys.
pub(crate) type Seen = BTreeSet<String>;

/// Whether the name was seen; from now on it is.
pub(crate) fn see_name(alloc: Global, seen: &mut Seen, name: &Text) -> Result<bool, NoMemory>
    ensures was { IfOk result (λ was. was ≡ contains_text seen.old name.now) }
    ensures is { OnOk result ((text : List ℕ) → contains_text seen.new text ≡ (contains_text seen.old text || bytes_eq name.now text)) }
{
    let was = seen.contains(name.as_str());
    seen.insert(String::from_str(alloc, name.as_str())?)?;
    Ok(was)
}
