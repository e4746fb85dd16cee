ghost use Rattle.std.specs.Prelude.{◌≡◌, ◌++◌, IfOk, OnOk};
ghost use Rattle.plan_difference.specs.Difference.{change_at, difference, AreAllTold};

use net_base::{NoMemory, TryCopy};
use of_match::{Command, Commands, Key, Tables};
use std::alloc::Global;
use std::collections::BTreeSet;

/// What is to be done at a key.
fn push_at(
    alloc: Global,
    batch: &mut Commands,
    from: &Tables,
    to: &Tables,
    key: &Key,
) -> Result<(), NoMemory>
    ensures { OnOk result (batch.new ≡ batch.old ++ change_at from.now to.now key.now) }
{
    match (from.get(key), to.get(key)) {
        (None, None) => Ok(()),
        (Some(_), None) => batch.push(Command::DeleteStrict(key.copy(alloc)?)),
        (None, Some(entry)) => batch.push(Command::Add(entry.copy(alloc)?)),
        (Some(held), Some(entry)) => {
            if held == entry {
                Ok(())
            } else {
                batch.push(Command::Add(entry.copy(alloc)?))
            }
        }
    }
}

/// The commands that lead from the entries of one plan to those of another, where each key at which they differ
/// is told. Only these keys are looked up.
pub fn difference_at(
    alloc: Global,
    from: &Tables,
    to: &Tables,
    keys: &BTreeSet<Key>,
) -> Result<Commands, NoMemory>
    requires { AreAllTold keys.now.keys from.now to.now }
    ensures { IfOk result (λ batch. batch ≡ difference from.now to.now) }
{
    let mut batch = Commands::new(alloc);
    // These calls alone tell that the keys and the entries of both plans are in order.
    let _keys = keys.len();
    let _from = from.iter();
    let _to = to.iter();
    for key in keys {
        push_at(alloc, &mut batch, from, to, key)?;
    }
    Ok(batch)
}
