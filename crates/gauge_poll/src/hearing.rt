//! What a frame does that a switch sent.

ghost use Rattle.std.specs.Prelude.{◌≡◌, IfOk, OnOk};
ghost use Rattle.ctl_world.specs.Frames.{front};
ghost use Rattle.ctl_life.specs.Life.{has_frame, read, unread};
ghost use Rattle.gauge_poll.specs.Monitoring.{Monitor, follow, hear_frame, hear_frames, hear_message, hear_next, with_world};
ghost use Rattle.gauge_poll.specs.Polls.{Said};
ghost use Rattle.gauge_poll.specs.StandsFor.{Keeps, KeepsAll};
ghost use Rattle.gauge_poll.specs.Telling.{reads, told_by, understood};

use crate::known::{Kept, Known};
use crate::report::tell;
use crate::setup::{introduce, unfit};
use crate::telling::{Telling, read_telling};
use ctl_life::{answer_echo, read_message, turn_away};
use ctl_world::{Front, World};
use gauge_conf::Watcher;
use net_base::NoMemory;
use of13_codec::Message;
use std::alloc::Global;
use switch_session::{Closing, Step};

/// Does what follows from the step that a connection took.
fn follow(
    alloc: Global,
    known: &mut Known,
    watchers: &[Watcher],
    step: Step,
    message: &Message,
    xid: u32,
    conn: u32,
) -> Result<(), NoMemory>
    ensures { OnOk result ((s : Said) → Keeps known.old s → Keeps known.new (follow watchers.now step message.now xid conn s)) }
{
    match step {
        Step::AskFeatures => known.world.say(conn, Message::FeaturesRequest),
        Step::Features { dp, auxiliary, .. } => {
            let unfit = unfit(&known.world.conf, dp, auxiliary);
            introduce(alloc, known, watchers, conn, dp, unfit)
        }
        Step::Echo => answer_echo(alloc, &mut known.world, message, conn, xid),
        Step::Close(cause) => turn_away(alloc, &mut known.world, cause, conn, xid),
        _ => Ok(()),
    }
}

/// A connection hears a message: what it tells is written, and what follows from it is done.
fn hear_message(
    alloc: Global,
    kept: &mut Kept,
    message: &Message,
    told: &Telling,
    xid: u32,
    conn: u32,
) -> Result<(), NoMemory>
    requires { told.now ≡ told_by message.now }
    ensures { OnOk result ((m : Monitor) → KeepsAll kept.old m → KeepsAll kept.new (hear_message message.now xid conn m)) }
{
    if !kept.known.world.conns.is_open(conn) {
        return Ok(());
    }
    tell(alloc, kept, told, xid, conn)?;
    let step = kept.known.world.conns.hear(conn, message, xid)?;
    follow(
        alloc,
        &mut kept.known,
        kept.watchers.as_slice(),
        step,
        message,
        xid,
        conn,
    )
}

/// A connection hears a message; one of which a flow entry is wrong closes it.
fn hear_whole(
    alloc: Global,
    kept: &mut Kept,
    message: &Message,
    xid: u32,
    conn: u32,
) -> Result<(), NoMemory>
    ensures { OnOk result ((m : Monitor) → KeepsAll kept.old m → KeepsAll kept.new (hear_frame (understood (message.now, xid)) conn m)) }
{
    match read_telling(alloc, message)? {
        Some(told) => hear_message(alloc, kept, message, &told, xid, conn),
        None => kept.known.world.close(alloc, Closing::BadFrame, conn),
    }
}

/// A connection hears a frame; one that spells no message closes it.
fn hear_frame(alloc: Global, kept: &mut Kept, frame: &[u8], conn: u32) -> Result<(), NoMemory>
    ensures { OnOk result ((m : Monitor) → KeepsAll kept.old m → KeepsAll kept.new (hear_frame (reads frame.now) conn m)) }
{
    match read_message(alloc, frame)? {
        Some((message, xid)) => hear_whole(alloc, kept, &message, xid, conn),
        None => kept.known.world.close(alloc, Closing::BadFrame, conn),
    }
}

/// Takes what stands at the front of the bytes that came.
fn read_front(alloc: Global, world: &mut World, conn: u32) -> Result<Front, NoMemory>
    ensures front { IfOk result (λ made. made ≡ front (unread conn world.old)) }
    ensures read { OnOk result (world.new ≡ read conn world.old) }
{
    world.conns.next_frame(alloc, conn)
}

/// Hears what stands at the front of the bytes that came; `false` where less than a frame stands there, or
/// the connection was closed for it.
fn hear_next(alloc: Global, kept: &mut Kept, conn: u32) -> Result<bool, NoMemory>
    ensures heard { OnOk result ((m : Monitor) → KeepsAll kept.old m → KeepsAll kept.new (hear_next conn m)) }
    ensures more { IfOk result (λ more. more ≡ has_frame conn kept.old.known.world) }
{
    match read_front(alloc, &mut kept.known.world, conn)? {
        Front::Part => Ok(false),
        Front::Frame(frame) => {
            hear_frame(alloc, kept, frame.as_slice(), conn)?;
            Ok(true)
        }
        Front::Bad => {
            kept.known.world.close(alloc, Closing::BadFrame, conn)?;
            Ok(false)
        }
    }
}

/// Hears the frames in the bytes that came, at most so many.
pub(crate) fn hear_frames(
    alloc: Global,
    kept: &mut Kept,
    conn: u32,
    most: usize,
) -> Result<(), NoMemory>
    ensures { OnOk result ((m : Monitor) → KeepsAll kept.old m → KeepsAll kept.new (hear_frames most conn m)) }
{
    for _ in 0..most {
        if !hear_next(alloc, kept, conn)? {
            return Ok(());
        }
    }
    Ok(())
}
