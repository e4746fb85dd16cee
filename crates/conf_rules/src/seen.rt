//! Names that were seen so far, each found by one look, and how many numbers differ.

ghost use Rattle.std.specs.Prelude.{◌≡◌, ◌||◌, ℕ, List, IfOk, OnOk};
ghost use Rattle.std.specs.BTreeSet.{contains_text};
ghost use Rattle.conf_types.specs.Lists.{different, is_same};

use conf_resolve::see_number;
use net_base::{NoMemory, Text};
use std::alloc::Global;
use std::collections::BTreeSet;

/// Whether the name was seen; from now on it is.
pub fn see_name(alloc: Global, seen: &mut BTreeSet<String>, name: &Text) -> Result<bool, NoMemory>
    ensures was { IfOk result (λ was. was ≡ contains_text seen.old name.now) }
    ensures is { OnOk result ((t : List ℕ) → contains_text seen.new t ≡ (contains_text seen.old t || is_same name.now t)) }
{
    let was = seen.contains(name.as_str());
    seen.insert(String::from_str(alloc, name.as_str())?)?;
    Ok(was)
}

/// How many different numbers these are.
pub fn different_len(alloc: Global, numbers: &[u128]) -> Result<usize, NoMemory>
    ensures { IfOk result (λ count. count ≡ different numbers.now) }
{
    let mut seen = BTreeSet::new(alloc);
    for i in (0..numbers.len()).rev() {
        see_number(&mut seen, numbers[i])?;
    }
    Ok(seen.len())
}
