ghost use Rattle.std.specs.Prelude.{◌≡◌, ◌++◌, ◌∷◌, [], if◌then◌else◌, IfOk, OnOk};
ghost use Rattle.of_match.specs.declared.entry.Command.TheVariants.{Add};
ghost use Rattle.of_match.specs.FlowTables.{IsInKeyOrder, entry_at, below, above};
ghost use Rattle.plan_difference.specs.Difference.{deletes, has, difference};

use crate::rest::Rest;
use net_base::{NoMemory, TryCopy};
use of_match::{Command, Commands, Entry, Key, Tables};
use std::alloc::Global;

fn push_delete(alloc: Global, batch: &mut Commands, entry: &Entry) -> Result<(), NoMemory>
    ensures { OnOk result (batch.new ≡ batch.old ++ deletes (entry.now ∷ [])) }
{
    batch.push(Command::DeleteStrict(entry.key.copy(alloc)?))
}

/// Deletes of all entries that are left.
fn push_deletes(alloc: Global, batch: &mut Commands, from: Rest<'_>) -> Result<(), NoMemory>
    ensures { OnOk result (batch.new ≡ batch.old ++ deletes from.entry) }
{
    let mut from = from;
    while let Some(gone) = from.next() {
        push_delete(alloc, batch, gone)?;
    }
    Ok(())
}

/// Deletes of the entries before a key. The others are left.
fn push_gone(
    alloc: Global,
    batch: &mut Commands,
    from: &mut Rest<'_>,
    key: &Key,
) -> Result<(), NoMemory>
    requires { IsInKeyOrder from.old }
    ensures batch { OnOk result (batch.new ≡ batch.old ++ deletes (below key.now from.old)) }
    ensures ordered { OnOk result (IsInKeyOrder from.new) }
    ensures begins { OnOk result (below key.now from.new ≡ []) }
    ensures here { OnOk result (entry_at from.new key.now ≡ entry_at from.old key.now) }
    ensures behind { OnOk result (above key.now from.new ≡ above key.now from.old) }
{
    while let Some(gone) = from.next_before(key) {
        push_delete(alloc, batch, gone)?;
    }
    Ok(())
}

/// What is to be done for an entry that is to stand, where these stand at its key and behind: an add,
/// unless it stands. Those behind it are left.
fn push_add(
    alloc: Global,
    batch: &mut Commands,
    from: &mut Rest<'_>,
    entry: &Entry,
) -> Result<(), NoMemory>
    requires ordered { IsInKeyOrder from.old }
    requires begins { below entry.now.key from.old ≡ [] }
    ensures batch { OnOk result (batch.new ≡ batch.old ++ (if has from.old entry.now then [] else Add entry.now ∷ [])) }
    ensures left { from.new ≡ above entry.now.key from.old }
{
    match from.next_at(&entry.key) {
        Some(held) if held == entry => Ok(()),
        _ => batch.push(Command::Add(entry.copy(alloc)?)),
    }
}

fn push_for(
    alloc: Global,
    batch: &mut Commands,
    from: &mut Rest<'_>,
    entry: &Entry,
) -> Result<(), NoMemory>
    requires { IsInKeyOrder from.old }
    ensures batch { OnOk result (batch.new ≡ batch.old ++ (deletes (below entry.now.key from.old) ++ (if has from.old entry.now then [] else Add entry.now ∷ []))) }
    ensures left { OnOk result (from.new ≡ above entry.now.key from.old) }
{
    push_gone(alloc, batch, from, &entry.key)?;
    push_add(alloc, batch, from, entry)
}

/// The commands that lead from the entries of one plan to those of another: a strict delete of each key
/// that is to have no entry, an add of each entry that doesn't stand with the same instructions, and
/// nothing else, in key order. Both are gone through once.
pub fn difference(alloc: Global, from: &Tables, to: &Tables) -> Result<Commands, NoMemory>
    ensures { IfOk result (λ batch. batch ≡ difference from.now to.now) }
{
    let mut batch = Commands::new(alloc);
    let mut rest = Rest::of(from);
    for entry in to.iter() {
        push_for(alloc, &mut batch, &mut rest, entry)?;
    }
    push_deletes(alloc, &mut batch, rest)?;
    Ok(batch)
}
