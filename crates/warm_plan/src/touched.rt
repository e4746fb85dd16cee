//! Tables that are changed, and the keys at which they were: what tells where they may differ from others.

ghost use Rattle.std.specs.Prelude.{◌≡◌, map, [], Contains, IfOk, OnOk};
ghost use Rattle.std.specs.List.{AllByRecursion};
ghost use Rattle.of_match.specs.declared.entry.Command.TheVariants.{Add, DeleteStrict};
ghost use Rattle.of_match.specs.FlowTables.{after};
ghost use Rattle.of_match.specs.Settled.{after_all};
ghost use Rattle.plan_difference.specs.Difference.{AreAllTold};
ghost use Rattle.warm_plan.specs.Parts.{without};
ghost use Rattle.warm_plan.specs.Touched.{KeepTold};

use crate::plan::Keys;
use crate::sound::are_ordered;
use net_base::{NoMemory, TryCopy};
use of_match::{Command, Commands, Entries, Entry, Key, Tables};
use plan_difference::difference_at;
use std::alloc::Global;
use std::collections::BTreeSet;

/// Keys at which entries were added or taken out.
pub(crate) type Touched = BTreeSet<Key>;

/// The keys of these tables.
pub(crate) fn all_touched(alloc: Global, tables: &Tables) -> Result<Touched, NoMemory>
    ensures { IfOk result (λ touched. AllByRecursion (λ e. Contains touched.keys e.key) tables.now) }
{
    let mut touched = BTreeSet::new(alloc);
    for entry in tables.iter() {
        let key = entry.key.copy(alloc)?;
        touched.insert(key)?;
    }
    Ok(touched)
}

/// Adds an entry, whose key is touched.
fn add_one(
    alloc: Global,
    tables: &mut Tables,
    touched: &mut Touched,
    entry: Entry,
) -> Result<(), NoMemory>
    ensures tables { OnOk result (tables.new ≡ after tables.old (Add entry)) }
    ensures told { OnOk result (KeepTold touched.old.keys tables.old touched.new.keys tables.new) }
{
    let key = entry.key.copy(alloc)?;
    touched.insert(key)?;
    tables.add(entry)?;
    Ok(())
}

/// Takes out the entry with a key, which is touched.
fn remove_one(tables: &mut Tables, touched: &mut Touched, key: Key) -> Result<(), NoMemory>
    ensures tables { OnOk result (tables.new ≡ after tables.old (DeleteStrict key)) }
    ensures told { OnOk result (KeepTold touched.old.keys tables.old touched.new.keys tables.new) }
{
    tables.remove(&key);
    touched.insert(key)?;
    Ok(())
}

pub(crate) fn add_all(
    alloc: Global,
    tables: &mut Tables,
    touched: &mut Touched,
    entries: Entries,
) -> Result<(), NoMemory>
    ensures tables { OnOk result (tables.new ≡ after_all tables.old (map Add entries)) }
    ensures told { OnOk result (KeepTold touched.old.keys tables.old touched.new.keys tables.new) }
{
    for entry in entries.into_vec() {
        add_one(alloc, tables, touched, entry)?;
    }
    Ok(())
}

pub(crate) fn remove_all(
    tables: &mut Tables,
    touched: &mut Touched,
    keys: Keys,
) -> Result<(), NoMemory>
    ensures tables { OnOk result (tables.new ≡ without tables.old keys) }
    ensures told { OnOk result (KeepTold touched.old.keys tables.old touched.new.keys tables.new) }
{
    for key in keys.into_vec() {
        remove_one(tables, touched, key)?;
    }
    Ok(())
}

/// Does a command, whose entry is handed on and not copied.
fn apply_one(tables: &mut Tables, command: Command) -> Result<(), NoMemory>
    ensures { OnOk result (tables.new ≡ after tables.old command) }
{
    match command {
        Command::Add(entry) => tables.add(entry),
        Command::DeleteStrict(key) => {
            tables.remove(&key);
            Ok(())
        }
        Command::DeleteAll => {
            tables.clear();
            Ok(())
        }
    }
}

fn apply_all(tables: &mut Tables, commands: Commands) -> Result<(), NoMemory>
    ensures { OnOk result (tables.new ≡ after_all tables.old commands) }
{
    for command in commands.into_vec() {
        apply_one(tables, command)?;
    }
    Ok(())
}

/// Makes tables equal to others, from which they differ at most at the touched keys. None is touched behind that.
pub(crate) fn bring(
    alloc: Global,
    tables: &mut Tables,
    touched: &mut Touched,
    to: &Tables,
) -> Result<(), NoMemory>
    requires { AreAllTold touched.old.keys tables.old to.now }
    ensures tables { OnOk result (tables.new ≡ to.now) }
    ensures touched { OnOk result (touched.new.keys ≡ []) }
{
    plan_difference::laws::a_difference_leads_from_one_plan_to_the_other();
    are_ordered(tables);
    are_ordered(to);
    let batch = difference_at(alloc, tables, to, touched)?;
    apply_all(tables, batch)?;
    touched.clear();
    Ok(())
}
