//! The files that were reached.

ghost use Rattle.std.specs.Prelude.{◌≡◌, [], ◌∷◌, ◌++◌, IfOk};
ghost use Rattle.std.specs.List.{list_any};
ghost use Rattle.std.specs.Str.{bytes_eq};

use net_base::{Names, NoMemory, Text, TryCopy};
use std::alloc::Global;
use std::collections::BTreeSet;
use std::marker::Model;

/// Whole names of files in the order in which they were reached, which contracts see as their list;
/// each is found by one look.
#[derive(Debug, Drop)]
pub struct Reached {
    names: Names,
    seen: BTreeSet<String>,
}

impl Model for Reached {
    ghost use Rattle.std.specs.Prelude.{◌≡◌, List, ℕ};
    ghost use Rattle.std.specs.BTreeSet.{contains_text};
    ghost use Rattle.std.specs.List.{list_any};
    ghost use Rattle.std.specs.Str.{bytes_eq};

    ghost Value = { List (List ℕ) };

    ghost view = { λ r. r.names };

    ghost invariant = { λ r. (name : List ℕ) → contains_text r.seen name ≡ list_any (bytes_eq name) r.names };
}

impl Reached {
    /// No file yet.
    pub fn new(alloc: Global) -> Reached
        ensures { result ≡ [] }
    {
        Reached {
            names: Names::new(alloc),
            seen: BTreeSet::new(alloc),
        }
    }

    /// Whether a file was reached before.
    pub fn has(&self, name: &str) -> bool
        ensures { result ≡ list_any (bytes_eq name.now) self.now }
    {
        self.seen.contains(name)
    }

    /// These files, and one more.
    pub fn with(self, alloc: Global, name: &Text) -> Result<Reached, NoMemory>
        ensures { IfOk result (λ made. made ≡ self ++ name.now ∷ []) }
    {
        let Reached {
            mut names,
            mut seen,
        } = self;
        seen.insert(String::from_str(alloc, name.as_str())?)?;
        names.push(name.copy(alloc)?)?;
        Ok(Reached { names, seen })
    }
}
