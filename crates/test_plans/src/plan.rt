//! What a datapath's switch is to hold, and what it is told where that changes.

ghost use Rattle.std.specs.Prelude.{◌≡◌};
ghost use Rattle.conf_types.specs.State.{IsValidState};
ghost use Rattle.packet_way.specs.Present.{state_of};

use crate::named::all_named;
use cold_start::cold;
use conf_types::Conf;
use net_base::{DpId, NoMemory};
use of_match::{Entry, Tables};
use packet_way::Now;
use state_check::is_valid;
use std::alloc::Global;
use test_states::{NO_STATE, Units};
use test_words::{put_command, put_entry};
use warm_plan::Warm;

/// Whether an entry is one of the table that is asked for, or none is named.
fn is_asked(entry: &Entry, table: Option<u64>) -> bool {
    match table {
        Some(table) => u64::from(entry.key.table) == table,
        None => true,
    }
}

/// The entries of a table, or all where none is named.
fn entries(alloc: Global, tables: &Tables, table: Option<u64>) -> Result<String, NoMemory> {
    let mut out = format!(in alloc; "entries")?;
    for entry in tables.iter() {
        if is_asked(entry, table) {
            out.push_str("\n    ")?;
            put_entry(alloc, &mut out, entry)?;
        }
    }
    Ok(out)
}

/// The entries of a datapath's cold start; only those of a table, where one is named.
pub fn cold_start(
    alloc: Global,
    conf: &Conf,
    now: &Now,
    dp: DpId,
    table: Option<u64>,
) -> Result<String, NoMemory> {
    if !is_valid(alloc, conf, now)? {
        return format!(in alloc; "{NO_STATE}");
    }
    let tables = cold(alloc, conf, now, dp, &mut Units::new())?;
    entries(alloc, &tables, table)
}

/// What is taken, and how much more there is to take.
fn taken(alloc: Global, warm: &mut Warm) -> Result<String, NoMemory> {
    let batch = warm.take(alloc)?;
    let more = warm.take(alloc)?;
    let mut out = format!(in alloc; "{} commands, then {}", batch.len(), more.len())?;
    for command in batch.as_slice() {
        out.push_str("\n    ")?;
        put_command(alloc, &mut out, command)?;
    }
    Ok(out)
}

/// The commands that lead from one state of a configuration to another.
pub fn event(
    alloc: Global,
    conf: &Conf,
    before: &Now,
    now: &Now,
    dp: DpId,
) -> Result<String, NoMemory> {
    if !is_valid(alloc, conf, before)? || !is_valid(alloc, conf, now)? {
        return format!(in alloc; "{NO_STATE}");
    }
    let mut units = Units::new();
    let mut warm = Warm::open(alloc, conf, before, dp, &mut units)?;
    let _ = warm.take(alloc)?;
    let changes = all_named(alloc, conf, before, now)?;
    warm.event(alloc, conf, now, changes.as_slice(), &mut units)?;
    taken(alloc, &mut warm)
}

/// The commands that lead from one configuration and its state to another.
pub fn reload(
    alloc: Global,
    (before, state): (&Conf, &Now),
    (conf, now): (&Conf, &Now),
    dp: DpId,
) -> Result<String, NoMemory> {
    if !is_valid(alloc, before, state)? || !is_valid(alloc, conf, now)? {
        return format!(in alloc; "{NO_STATE}");
    }
    let mut units = Units::new();
    let mut warm = Warm::open(alloc, before, state, dp, &mut units)?;
    let _ = warm.take(alloc)?;
    warm.reload(alloc, conf, now, &mut units)?;
    taken(alloc, &mut warm)
}
