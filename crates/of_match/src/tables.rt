ghost use Rattle.std.specs.Prelude.{◌≡◌, ◌↔◌, [], length, IsTrue, IsOk, OnOk, OnErr};
ghost use Rattle.std.specs.Option.{option_copied};
ghost use Rattle.of_match.specs.declared.entry.Command.TheVariants.{Add, DeleteStrict, DeleteAll};
ghost use Rattle.of_match.specs.FlowTables.{IsInKeyOrder, entry_at, above, after, NeedsNoMemory};

use crate::entry::{Command, Entry, Key};
use net_base::{NoMemory, TryCopy};
use std::alloc::Global;
use std::collections::BTreeMap;
use std::collections::btree_map::Range;
use std::marker::Model;
use std::ops::Bound;

/// The flow tables of a switch, which contracts see as the list of their entries, in key order,
/// no two with one key (OpenFlow 1.3, 5.2). A look-up, an add and a removal take a time that grows
/// as the logarithm of their number.
#[derive(Debug, Drop)]
pub struct Tables {
    alloc: Global,
    // Each entry stands at its own key.
    entries: BTreeMap<Key, Entry>,
}

impl Model for Tables {
    ghost use Rattle.std.specs.Prelude.{◌≡◌, List};
    ghost use Rattle.std.specs.BTreeMap.{values};
    ghost use Rattle.of_match.specs.declared.entry.Entry.{Entry};
    ghost use Rattle.of_match.specs.FlowTables.{IsInKeyOrder, keyed};

    ghost Value = { List Entry };

    ghost view = { λ t. values t.entries };

    ghost invariant = { λ t. (t.entries.entries ≡ keyed (values t.entries)) × IsInKeyOrder (values t.entries) };
}

impl Tables {
    /// No entries, which takes no memory yet.
    pub fn new(alloc: Global) -> Tables
        ensures { result ≡ [] }
    {
        Tables {
            alloc,
            entries: BTreeMap::new(alloc),
        }
    }

    /// The entry with this key; `None` exactly where no entry has the key.
    pub fn get(&self, key: &Key) -> Option<&Entry>
        ensures { option_copied result ≡ entry_at self.now key.now }
    {
        self.entries.get(key)
    }

    /// The entries, in key order.
    pub fn iter(&self) -> TablesIter<'_>
        ensures items { result ≡ self.now }
        ensures ordered { IsInKeyOrder self.now }
    {
        TablesIter {
            rest: self.entries.range(..),
        }
    }

    /// The entries behind a key, in key order. Those before them are not gone through.
    pub fn iter_above(&self, key: &Key) -> TablesIter<'_>
        ensures { result ≡ above key.now self.now }
    {
        TablesIter {
            rest: self.entries.range((Bound::Excluded(key), Bound::Unbounded)),
        }
    }

    /// Whether there is no entry.
    pub fn is_empty(&self) -> bool
        ensures { IsTrue result ↔ (self.now ≡ []) }
    {
        self.entries.is_empty()
    }

    /// How many entries there are.
    pub fn len(&self) -> usize
        ensures { result ≡ length self.now }
    {
        self.entries.len()
    }

    /// Adds an entry, in place of one with its key. After `NoMemory` the tables are as they were,
    /// and the entry is gone.
    pub fn add(&mut self, entry: Entry) -> Result<(), NoMemory>
        ensures ok { OnOk result (self.new ≡ after self.old (Add entry)) }
        ensures err { OnErr result (self.new ≡ self.old) }
    {
        let key = entry.key.copy(self.alloc)?;
        self.entries.insert(key, entry)?;
        Ok(())
    }

    /// Takes out the entry with exactly this key, if there is one.
    pub fn remove(&mut self, key: &Key)
        ensures { self.new ≡ after self.old (DeleteStrict key.now) }
    {
        let _ = self.entries.remove(key);
    }

    /// Takes out all entries.
    pub fn clear(&mut self)
        ensures { self.new ≡ after self.old DeleteAll }
    {
        self.entries.clear();
    }
}

impl TryCopy for Tables {
    fn copy(&self, alloc: Global) -> Result<Tables, NoMemory> {
        let mut made = Tables::new(alloc);
        for entry in self.iter() {
            made.add(entry.copy(alloc)?)?;
        }
        Ok(made)
    }
}

/// The entries that are left to be seen, in key order, which is what contracts see.
#[derive(Debug, Drop)]
pub struct TablesIter<'a> {
    rest: Range<'a, Key, Entry>,
}

impl<'a> Model for TablesIter<'a> {
    ghost use Rattle.std.specs.Prelude.{List};
    ghost use Rattle.std.specs.Map.{values_of};
    ghost use Rattle.of_match.specs.declared.entry.Entry.{Entry};

    ghost Value = { List Entry };

    ghost view = { λ it. values_of it.rest };
}

impl<'a> Iterator for TablesIter<'a> {
    ghost use Rattle.std.specs.Iterator.{YieldsFirstRef, item_count};

    type Item = &'a Entry;

    ghost next_gives = { YieldsFirstRef (λ rest. rest) };

    ghost remaining = { item_count (λ rest. rest) };

    fn next(&mut self) -> Option<&'a Entry> {
        let (_, entry) = self.rest.next()?;
        Some(entry)
    }
}

/// Does a command to the tables (OpenFlow 1.3, 6.4). After `NoMemory`, which only an add
/// answers, they are as they were.
pub fn apply(alloc: Global, tables: &mut Tables, command: &Command) -> Result<(), NoMemory>
    ensures ok { OnOk result (tables.new ≡ after tables.old command.now) }
    ensures err { OnErr result (tables.new ≡ tables.old) }
    ensures deletes { NeedsNoMemory command.now → IsOk result }
{
    match command {
        Command::Add(entry) => tables.add(entry.copy(alloc)?),
        Command::DeleteStrict(key) => {
            tables.remove(key);
            Ok(())
        }
        Command::DeleteAll => {
            tables.clear();
            Ok(())
        }
    }
}
