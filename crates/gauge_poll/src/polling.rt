//! Polls of counters, and when they are due.

ghost use Rattle.std.specs.Prelude.{◌≡◌, ◌+◌, ◌*◌, nat_le, true, IfOk, OnOk};
ghost use Rattle.ctl_world.specs.Connections.{is_open};
ghost use Rattle.gauge_poll.specs.Polls.{Said as Seen, is_due, is_polling, poll_begun, poll_conn, poll_dp, poll_dps, poll_due, poll_first, poll_for, polls_dp, request_for, watches};
ghost use Rattle.gauge_poll.specs.StandsFor.{Keeps};

use crate::known::Known;
use crate::poll::Poll;
use ctl_world::Said;
use flow_stats::flow_request;
use gauge_conf::{WatchKind, Watcher};
use net_base::{DpId, Moment, NoMemory};
use of13_codec::Message;
use std::alloc::Global;

/// All ports (OFPP_ANY; OpenFlow 1.3, 7.3.5.6).
const ANY: u32 = 0xffff_ffff;

/// Milliseconds of a second.
const SECOND: u64 = 1000;

pub(crate) fn watches(watcher: &Watcher, dp: DpId) -> bool
    ensures { result ≡ watches watcher.now dp }
{
    watcher.dps.as_slice().iter().any(|id| *id == dp)
}

pub(crate) fn is_polling(kind: WatchKind) -> bool
    ensures { result ≡ is_polling kind }
{
    match kind {
        WatchKind::PortState => false,
        WatchKind::PortStats | WatchKind::FlowTable => true,
    }
}

/// The request for what a watcher of this kind counts.
fn request_for(alloc: Global, kind: WatchKind) -> Result<Message, NoMemory>
    ensures { IfOk result (λ request. request ≡ request_for kind) }
{
    match kind {
        WatchKind::FlowTable => flow_request(alloc),
        WatchKind::PortState | WatchKind::PortStats => Ok(Message::PortStatsRequest { port: ANY }),
    }
}

/// Whether so many seconds have passed from one moment to another.
fn has_passed(from: Moment, seconds: u32, now: Moment) -> bool
    ensures { result ≡ nat_le (from.0 + 1000 * seconds) now.0 }
{
    match now.0.checked_sub(from.0) {
        Some(age) => SECOND * u64::from(seconds) <= age,
        None => false,
    }
}

fn is_due(known: &Known, watcher: &Watcher, place: usize, conn: u32) -> bool
    ensures { (s : Seen) → Keeps known.now s → is_open s.world.conns conn ≡ true → result ≡ is_due watcher.now place conn s }
{
    match known.newest.get(conn, place) {
        Some(poll) => has_passed(poll.moment, watcher.interval, known.world.moment),
        None => true,
    }
}

/// What a watcher of this kind counts is asked for on a connection, for the one at this place.
fn poll_conn(
    alloc: Global,
    known: &mut Known,
    kind: WatchKind,
    place: usize,
    conn: u32,
) -> Result<(), NoMemory>
    ensures { OnOk result ((s : Seen) → Keeps known.old s → Keeps known.new (poll_conn kind place conn s)) }
{
    let message = request_for(alloc, kind)?;
    let xid = match known.world.conns.next_xid(conn) {
        Some(xid) => xid,
        None => return Ok(()),
    };
    let said = Said::Message { conn, message, xid };
    known.world.said.push(said)?;
    let poll = Poll {
        conn,
        watcher: place,
        kind,
        moment: known.world.moment,
        xid,
    };
    known.newest.note(alloc, poll)?;
    known.parts.take(alloc, conn, place)?;
    Ok(())
}

/// A datapath is polled on its connection, where it has one and that is due.
fn poll_dp(
    alloc: Global,
    known: &mut Known,
    watcher: &Watcher,
    place: usize,
    dp: DpId,
) -> Result<(), NoMemory>
    ensures { OnOk result ((s : Seen) → Keeps known.old s → Keeps known.new (poll_dp watcher.now place dp s)) }
{
    let conn = match known.world.conns.of(dp) {
        Some(found) => found.number,
        None => return Ok(()),
    };
    if is_due(known, watcher, place, conn) {
        return poll_conn(alloc, known, watcher.kind, place, conn);
    }
    Ok(())
}

fn poll_dps(
    alloc: Global,
    known: &mut Known,
    watcher: &Watcher,
    place: usize,
) -> Result<(), NoMemory>
    ensures { OnOk result ((s : Seen) → Keeps known.old s → Keeps known.new (poll_dps watcher.now place watcher.now.dps s)) }
{
    for dp in watcher.dps.as_slice() {
        poll_dp(alloc, known, watcher, place, *dp)?;
    }
    Ok(())
}

fn poll_for(
    alloc: Global,
    known: &mut Known,
    watcher: &Watcher,
    place: usize,
) -> Result<(), NoMemory>
    ensures { OnOk result ((s : Seen) → Keeps known.old s → Keeps known.new (poll_for watcher.now place s)) }
{
    if is_polling(watcher.kind) {
        return poll_dps(alloc, known, watcher, place);
    }
    Ok(())
}

/// Polls where that is due, watcher by watcher.
pub(crate) fn poll_due(
    alloc: Global,
    known: &mut Known,
    watchers: &[Watcher],
) -> Result<(), NoMemory>
    ensures { OnOk result ((s : Seen) → Keeps known.old s → Keeps known.new (poll_due 0 watchers.now s)) }
{
    for (place, watcher) in watchers.iter().enumerate() {
        poll_for(alloc, known, watcher, place)?;
    }
    Ok(())
}

fn poll_begun(
    alloc: Global,
    known: &mut Known,
    watcher: &Watcher,
    place: usize,
    dp: DpId,
) -> Result<(), NoMemory>
    ensures { OnOk result ((s : Seen) → Keeps known.old s → Keeps known.new (poll_begun watcher.now place dp s)) }
{
    if is_polling(watcher.kind) && watches(watcher, dp) {
        return poll_dp(alloc, known, watcher, place, dp);
    }
    Ok(())
}

/// A datapath begins to run: each watcher that polls it does so.
pub(crate) fn poll_first(
    alloc: Global,
    known: &mut Known,
    watchers: &[Watcher],
    dp: DpId,
) -> Result<(), NoMemory>
    ensures { OnOk result ((s : Seen) → Keeps known.old s → Keeps known.new (poll_first 0 watchers.now dp s)) }
{
    for (place, watcher) in watchers.iter().enumerate() {
        poll_begun(alloc, known, watcher, place, dp)?;
    }
    Ok(())
}
