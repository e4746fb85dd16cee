ghost use Rattle.std.specs.Prelude.{◌≡◌, IfOk};

use crate::action::Instrs;
use crate::matching::Match;
use net_base::{Items, NoMemory, TryCopy};
use std::alloc::Global;
use std::cmp::Ordering;

/// What tells one flow entry from another: its table, its priority and its match
/// (OpenFlow 1.3, 5.2).
#[derive(Debug, Drop)]
pub struct Key {
    pub table: u8,
    pub priority: u16,
    pub fields: Match,
}

impl TryCopy for Key {
    fn copy(&self, alloc: Global) -> Result<Key, NoMemory> {
        Ok(Key {
            table: self.table,
            priority: self.priority,
            fields: self.fields.copy(alloc)?,
        })
    }
}

/// Equal exactly where table, priority and match are.
impl PartialEq for Key {
    ghost use Rattle.std.specs.Ordering.{eq_by_cmp};
    ghost use Rattle.of_match.specs.KeyOrder.{key_cmp};
    ghost use Rattle.of_match.specs.KeyLaws.{key_partial_equivalence};

    ghost eq = { eq_by_cmp key_cmp };

    ghost laws = { key_partial_equivalence };

    fn eq(&self, other: &Key) -> bool {
        self.cmp(other).is_eq()
    }
}

impl Eq for Key {
    ghost use Rattle.of_match.specs.KeyLaws.{key_equivalence};

    ghost laws = { key_equivalence };
}

impl PartialOrd for Key {
    ghost use Rattle.std.specs.Ordering.{as_partial_cmp};
    ghost use Rattle.of_match.specs.KeyOrder.{key_cmp};
    ghost use Rattle.of_match.specs.KeyLaws.{key_partial_order};

    ghost partial_cmp = { as_partial_cmp key_cmp };

    ghost laws = { key_partial_order };

    fn partial_cmp(&self, other: &Key) -> Option<Ordering> {
        Some(self.cmp(other))
    }
}

/// The order of flow entries: by table, then by priority, both ascending, then by match. The matches are
/// looked at only where table and priority are equal.
impl Ord for Key {
    ghost use Rattle.std.specs.Prelude.{refl};
    ghost use Rattle.of_match.specs.KeyOrder.{key_cmp};
    ghost use Rattle.of_match.specs.KeyLaws.{key_total};

    ghost cmp = { key_cmp };

    ghost total = { key_total };

    ghost matches_partial_cmp = { λ _ _. refl };

    ghost matches_eq = { λ _ _. refl };

    #[tactic(auto, unfolding(crate::specs::KeyOrder::key_cmp))]
    fn cmp(&self, other: &Key) -> Ordering {
        match self.table.cmp(&other.table) {
            Ordering::Equal => match self.priority.cmp(&other.priority) {
                Ordering::Equal => self.fields.compare(&other.fields),
                unequal => unequal,
            },
            unequal => unequal,
        }
    }
}

/// A flow entry.
#[derive(Debug, Drop)]
pub struct Entry {
    pub key: Key,
    pub instrs: Instrs,
}

/// Equal exactly where the keys are and the instructions are.
impl PartialEq for Entry {
    ghost use Rattle.of_match.specs.Same.{entry_same, entry_partial_equivalence};

    ghost eq = { entry_same };

    ghost laws = { entry_partial_equivalence };

    fn eq(&self, other: &Entry) -> bool {
        self.key == other.key && self.instrs == other.instrs
    }
}

impl Eq for Entry {
    ghost use Rattle.of_match.specs.Same.{entry_equivalence};

    ghost laws = { entry_equivalence };
}

/// Flow entries.
pub type Entries = Items<Entry>;

impl TryCopy for Entry {
    fn copy(&self, alloc: Global) -> Result<Entry, NoMemory> {
        let key = self.key.copy(alloc)?;
        let instrs = self.instrs.copy(alloc)?;
        Ok(Entry { key, instrs })
    }
}

/// One change of the flow tables (OpenFlow 1.3, 6.4).
#[derive(Debug, Drop)]
pub enum Command {
    /// Adds the entry, in place of one with its key.
    Add(Entry),
    /// Takes out the entry with exactly this key.
    DeleteStrict(Key),
    /// Takes out every entry of every table.
    DeleteAll,
}

/// Changes of the flow tables.
pub type Commands = Items<Command>;

impl TryCopy for Command {
    fn copy(&self, alloc: Global) -> Result<Command, NoMemory> {
        match self {
            Command::Add(entry) => Ok(Command::Add(entry.copy(alloc)?)),
            Command::DeleteStrict(key) => Ok(Command::DeleteStrict(key.copy(alloc)?)),
            Command::DeleteAll => Ok(Command::DeleteAll),
        }
    }
}
