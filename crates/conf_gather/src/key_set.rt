//! Keys that were met, each found by one look.

ghost use Rattle.std.specs.Prelude.{◌≡◌, ◌||◌, false, OnOk};
ghost use Rattle.yaml_tree.specs.declared.tree.Key.{Key};
ghost use Rattle.yaml_subset.specs.Entries.{key_eq, has_key};
ghost use Rattle.conf_gather.specs.Known.{knows};

use net_base::NoMemory;
use std::alloc::Global;
use std::collections::BTreeSet;
use yaml_tree::{Key, Pair};

/// Keys of entries, which are told apart by their type and value.
#[derive(Debug, Drop)]
pub struct KeySet {
    ints: BTreeSet<i128>,
    texts: BTreeSet<String>,
}

impl KeySet {
    /// No key. It takes no memory yet.
    pub fn new(alloc: Global) -> KeySet
        ensures { (key : Key) → knows result key ≡ false }
    {
        KeySet {
            ints: BTreeSet::new(alloc),
            texts: BTreeSet::new(alloc),
        }
    }

    /// Whether the key is among them.
    pub fn has(&self, key: &Key) -> bool
        ensures { result ≡ knows self.now key.now }
    {
        match key {
            Key::Int(n) => self.ints.contains(n),
            Key::Text(text) => self.texts.contains(text.as_str()),
        }
    }

    /// From now on the key is among them.
    pub fn add(&mut self, alloc: Global, key: &Key) -> Result<(), NoMemory>
        ensures { OnOk result ((k : Key) → knows self.new k ≡ (knows self.old k || key_eq key.now k)) }
    {
        match key {
            Key::Int(n) => {
                self.ints.insert(*n)?;
            }
            Key::Text(text) => {
                let text = String::from_str(alloc, text.as_str())?;
                self.texts.insert(text)?;
            }
        }
        Ok(())
    }

    /// From now on the keys of these entries are among them.
    pub fn add_all(&mut self, alloc: Global, pairs: &[Pair]) -> Result<(), NoMemory>
        ensures { OnOk result ((k : Key) → knows self.new k ≡ (knows self.old k || has_key pairs.now k)) }
    {
        for pair in pairs {
            self.add(alloc, &pair.key)?;
        }
        Ok(())
    }
}
