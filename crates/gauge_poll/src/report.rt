//! What a message tells, as it is written.

ghost use Rattle.std.specs.Prelude.{◌≡◌, ◌++◌, ℕ, [], true, option_and_then, OnOk};
ghost use Rattle.std.specs.Option.{option_copied, option_map_or};
ghost use Rattle.ctl_world.specs.Connections.{conn_with, is_open};
ghost use Rattle.gauge_poll.specs.Lines.{told_lines, told_waits};
ghost use Rattle.gauge_poll.specs.Monitoring.{Monitor, dp_on, told_on, waits_on};
ghost use Rattle.gauge_poll.specs.Newest.{waits_of};
ghost use Rattle.gauge_poll.specs.Polls.{Said as Seen};
ghost use Rattle.gauge_poll.specs.StandsFor.{Keeps, KeepsAll, Lends, with_parts};

use crate::blocks::put_blocks_for;
use crate::known::{Kept, Known};
use crate::lines::put_lines_for;
use crate::newest::Newest;
use crate::parts::Parts;
use crate::telling::Telling;
use conf_types::Dp;
use ctl_world::World;
use gauge_conf::Watcher;
use net_base::{Moment, Names, NoMemory};
use std::alloc::Global;
use std::mem::replace;

/// What a message tells, on which connection and with which transaction id; of which datapath, and when.
#[derive(Drop)]
pub(crate) struct Report<'a> {
    pub told: &'a Telling,
    pub conn: u32,
    pub xid: u32,
    pub dp: &'a Dp,
    pub moment: Moment,
}

/// The datapath of a connection, once it runs.
fn dp_on(world: &World, conn: u32) -> Option<&Dp>
    ensures { option_copied result ≡ option_and_then (dp_on world.now) (conn_with world.now.conns conn) }
{
    let found = world.conns.get(conn)?;
    let dp = found.dp?;
    world.conf.dp(dp)
}

/// Adds the lines and blocks of what is told, watcher by watcher; what isn't whole yet waits.
fn tell_all(
    alloc: Global,
    lines: &mut Names,
    parts: &mut Parts,
    watchers: &[Watcher],
    newest: &Newest,
    report: &Report,
) -> Result<(), NoMemory>
    ensures lines { OnOk result ((s : Seen) → Lends newest.now parts.old report.now s
        → lines.new ≡ lines.old ++ told_lines 0 watchers.now s report.now.conn report.now.told.now report.now.xid report.now.dp.now) }
    ensures waits { OnOk result ((s : Seen) → Lends newest.now parts.old report.now s
        → (c p : ℕ) → waits_of parts.old c p ≡ s.waits c p → waits_of parts.new c p ≡ told_waits watchers.now s report.now.conn report.now.told.now report.now.xid c p) }
{
    for (place, watcher) in watchers.iter().enumerate() {
        let counted = newest.is_of(report.conn, place, report.told, report.xid);
        put_lines_for(alloc, lines, watcher, counted, report)?;
        put_blocks_for(alloc, lines, parts, watcher, place, counted, report)?;
    }
    Ok(())
}

/// What is told on a connection is written, where its datapath runs.
fn tell_on(
    alloc: Global,
    lines: &mut Names,
    parts: &mut Parts,
    watchers: &[Watcher],
    known: &Known,
    told: &Telling,
    xid: u32,
    conn: u32,
) -> Result<(), NoMemory>
    ensures lines { OnOk result ((s : Seen) → Keeps (with_parts known.now parts.old) s → is_open s.world.conns conn ≡ true
        → lines.new ≡ lines.old ++ option_map_or (told_lines 0 watchers.now s conn told.now xid) (option_and_then (dp_on s.world) (conn_with s.world.conns conn)) []) }
    ensures waits { OnOk result ((s : Seen) → Keeps (with_parts known.now parts.old) s → is_open s.world.conns conn ≡ true → (c p : ℕ) → is_open s.world.conns c ≡ true
        → waits_of parts.new c p ≡ waits_on watchers.now told.now xid conn (option_and_then (dp_on s.world) (conn_with s.world.conns conn)) s c p) }
{
    let dp = match dp_on(&known.world, conn) {
        Some(dp) => dp,
        None => return Ok(()),
    };
    let report = Report {
        told,
        conn,
        xid,
        dp,
        moment: known.world.moment,
    };
    tell_all(alloc, lines, parts, watchers, &known.newest, &report)?;
    Ok(())
}

/// The same, of all that is kept.
pub(crate) fn tell(
    alloc: Global,
    kept: &mut Kept,
    told: &Telling,
    xid: u32,
    conn: u32,
) -> Result<(), NoMemory>
    ensures { OnOk result ((m : Monitor) → KeepsAll kept.old m → is_open kept.old.known.world.conns conn ≡ true
        → KeepsAll kept.new (told_on told.now xid conn (option_and_then (dp_on m.said.world) (conn_with m.said.world.conns conn)) m)) }
{
    let mut parts = replace(&mut kept.known.parts, Parts::new(alloc));
    tell_on(
        alloc,
        &mut kept.lines,
        &mut parts,
        kept.watchers.as_slice(),
        &kept.known,
        told,
        xid,
        conn,
    )?;
    kept.known.parts = parts;
    Ok(())
}
