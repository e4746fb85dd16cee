//! What a frame does that a switch sent.

ghost use Rattle.std.specs.Prelude.{◌≡◌, ◌||◌, false, true, IfOk, OnOk};
ghost use Rattle.std.specs.Option.{option_map_or};
ghost use Rattle.conf_types.specs.Valid.{IsValid};
ghost use Rattle.switch_session.specs.declared.closing.Closing.TheVariants.{BadFrame};
ghost use Rattle.ctl_world.specs.Connections.{conn_with};
ghost use Rattle.ctl_world.specs.Ends.{close};
ghost use Rattle.ctl_world.specs.Frames.{front};
ghost use Rattle.ctl_world.specs.World.{IsSound};
ghost use Rattle.ctl_settle.specs.Settling.{settle};
ghost use Rattle.cold_start.specs.Counts.{RisesAtMost};
ghost use Rattle.ctl_core.specs.Allowed.{frames_allow, next_allows, settling};
ghost use Rattle.ctl_core.specs.Changes.{Changes, any_changes, frame_changes, heard_packet_changes, message_changes, next_changes, step_changes};
ghost use Rattle.ctl_life.specs.Life.{echo, has_frame, read, says, tell_version, turn_away, unread};
ghost use Rattle.ctl_packets.specs.Changes.{packet_changes};
ghost use Rattle.ctl_packets.specs.Packets.{packet_in};
ghost use Rattle.ctl_core.specs.Found.{Tells, is_barrier_reply, is_reply, is_touched};
ghost use Rattle.ctl_core.specs.Told.{IsExact, is_calm};
ghost use Rattle.ctl_core.specs.Hearing.{follow, hear_frame, hear_frames, hear_message, hear_next, packet};
ghost use Rattle.ctl_core.specs.Known.{HasSettled, IsEarly};

use crate::before::Before;
use crate::compared::{address_of, exactly, place_of};
use crate::ends::Ends;
use crate::found::{Found, by_packet, or_again};
use crate::gateways::begin;
use crate::known::{Known, settle_anew, settle_where_due};
use crate::laws::{
    a_frame_leaves_it_sound, what_happens_keeps_connections_in_order, what_happens_keeps_the_plans,
};
use crate::setup::{introduce, unfit, wipe};
use conf_types::{Conf, Tally};
use ctl_life::{answer_echo, read_message, turn_away};
use ctl_packets::packet_in;
use ctl_settle::laws::{
    alike_worlds_have_the_same_plans, alike_worlds_rest_alike, what_asks_touch_was_known,
};
use ctl_world::laws::{
    a_sound_world_has_lost_nothing, alike_worlds_run_alike, forgetting_what_is_lost_makes_it_sound,
    such_changes_leave_it_sound, what_is_said_is_alike,
};
use ctl_world::{Conn, Conns, Front, World};
use net_base::{DpId, NoMemory};
use of13_codec::{Message, PacketIn};
use std::alloc::Global;
use switch_session::{Closing, Stage, Step};

/// An accepted configuration is valid, which its type keeps.
pub(crate) fn a_configuration_is_valid(conf: &Conf)
    ensures { IsValid conf.now }
{
    let _ = conf.dps();
}

/// Takes a packet of a datapath.
fn take_packet(
    alloc: Global,
    world: &mut World,
    packet: &PacketIn,
    conn: u32,
    dp: DpId,
) -> Result<Found, NoMemory>
    ensures done { OnOk result (world.new ≡ packet_in packet.now conn dp world.old) }
    ensures told { IfOk result (λ found. packet_changes packet.now dp world.old ≡ false → is_touched found ≡ false) }
    ensures tells { IfOk result (λ found. Tells world.old world.new found) }
    ensures exact { IfOk result (λ found. IsExact world.old world.new found) }
{
    let found = or_again(world, by_packet(world, packet, dp));
    let place = place_of(world, &found);
    let address = address_of(world, &found);
    if packet_in(alloc, world, packet, conn, dp)? {
        Ok(exactly(alloc, world, found, place, address))
    } else {
        Ok(Found::Nothing)
    }
}

/// Takes a packet, and tells what may differ.
fn hear_packet(
    alloc: Global,
    world: &mut World,
    message: &Message,
    conn: u32,
    dp: Option<DpId>,
) -> Result<Found, NoMemory>
    ensures done { OnOk result (world.new ≡ packet message.now conn dp world.old) }
    ensures told { IfOk result (λ found. heard_packet_changes message.now dp world.old ≡ false → is_touched found ≡ false) }
    ensures tells { IfOk result (λ found. Tells world.old world.new found) }
    ensures exact { IfOk result (λ found. IsExact world.old world.new found) }
{
    alike_worlds_run_alike();
    match (message, dp) {
        (Message::PacketIn(packet), Some(dp)) => take_packet(alloc, world, packet, conn, dp),
        _ => Ok(Found::Nothing),
    }
}

/// Does what follows from the step that a connection took, and tells what may differ.
fn follow(
    alloc: Global,
    world: &mut World,
    step: Step,
    message: &Message,
    xid: u32,
    conn: u32,
    dp: Option<DpId>,
) -> Result<Found, NoMemory>
    ensures done { OnOk result (world.new ≡ follow step message.now xid conn dp world.old) }
    ensures told { IfOk result (λ found. step_changes step message.now dp world.old ≡ false → is_touched found ≡ false) }
    ensures tells { IfOk result (λ found. Tells world.old world.new found) }
    ensures exact { IfOk result (λ found. is_calm step ≡ true → IsExact world.old world.new found) }
{
    alike_worlds_run_alike();
    match step {
        Step::Nothing | Step::Settled | Step::PortChanged(_) => return Ok(Found::Nothing),
        Step::Packet => return hear_packet(alloc, world, message, conn, dp),
        Step::Echo => {
            answer_echo(alloc, world, message, conn, xid)?;
            return Ok(Found::Nothing);
        }
        Step::AskFeatures => {
            world.say(conn, Message::FeaturesRequest)?;
            return Ok(Found::Due);
        }
        Step::Features {
            dp,
            n_tables,
            auxiliary,
        } => {
            let unfit = unfit(&world.conf, dp, n_tables, auxiliary);
            introduce(alloc, world, conn, dp, unfit)?;
        }
        Step::PortsKnown => wipe(alloc, world, conn)?,
        Step::Wiped => begin(alloc, world, dp)?,
        Step::Close(cause) => turn_away(alloc, world, cause, conn, xid)?,
    }
    Ok(Found::Any)
}

fn is_barrier_reply(message: &Message) -> bool
    ensures { result ≡ is_barrier_reply message.now }
{
    matches!(message, Message::BarrierReply)
}

/// Whether a message is the reply to a barrier, on a connection that runs.
fn is_reply(conn: &Conn, message: &Message) -> bool
    ensures { result ≡ is_reply conn.now message.now }
{
    matches!(conn.session.stage(), Stage::Running) && is_barrier_reply(message)
}

/// Whether a message leaves the state of its connection, or is the reply to a barrier on one that runs.
fn is_quiet(conns: &Conns, conn: u32, message: &Message, stays: bool) -> bool
    ensures { result ≡ (stays || option_map_or (λ c. is_reply c message.now) (conn_with conns.now conn) false) }
{
    match conns.get(conn) {
        Some(found) => stays || is_reply(found, message),
        None => stays,
    }
}

/// A connection hears a message that changes its state: what was known through it may be lost, and what differs is
/// told.
fn hear_change(
    alloc: Global,
    world: &mut World,
    message: &Message,
    xid: u32,
    conn: u32,
    dp: Option<DpId>,
) -> Result<Found, NoMemory>
    requires { Changes message.now xid dp (conn_with world.old.conns conn) }
    ensures heard { OnOk result (world.new ≡ hear_message message.now xid conn world.old) }
    ensures tells { IfOk result (λ found. Tells world.old world.new found) }
    ensures exact { IfOk result (λ found. IsExact world.old world.new found) }
{
    let before = Before::of(alloc, world)?;
    let step = world.conns.hear(conn, message, xid)?;
    world.forget_lost(alloc)?;
    follow(alloc, world, step, message, xid, conn, dp)?;
    let touched = before.behind(alloc, world)?;
    Ok(Found::Named(touched))
}

/// A connection hears a message. Where its state stays as it is, or it only awaits no reply any more, nothing is
/// lost that was known, so that nothing is looked through.
fn hear_message(
    alloc: Global,
    world: &mut World,
    message: &Message,
    xid: u32,
    conn: u32,
) -> Result<Found, NoMemory>
    requires { IsSound world.old }
    ensures heard { OnOk result (world.new ≡ hear_message message.now xid conn world.old) }
    ensures told { IfOk result (λ found. message_changes message.now xid conn world.old ≡ false → is_touched found ≡ false) }
    ensures tells { IfOk result (λ found. Tells world.old world.new found) }
    ensures exact { IfOk result (λ found. IsExact world.old world.new found) }
{
    alike_worlds_run_alike();
    such_changes_leave_it_sound();
    a_sound_world_has_lost_nothing();
    let dp = match world.conns.get(conn) {
        Some(found) => found.dp,
        None => return Ok(Found::Nothing),
    };
    let stays = world.conns.stays(conn, message, xid);
    if !is_quiet(&world.conns, conn, message, stays) {
        return hear_change(alloc, world, message, xid, conn, dp);
    }
    let step = world.conns.hear(conn, message, xid)?;
    if stays {
        return follow(alloc, world, step, message, xid, conn, dp);
    }
    Ok(Found::Due)
}

/// A connection hears a frame; one that spells no message closes it. Tells what may differ.
fn hear_frame(alloc: Global, world: &mut World, frame: &[u8], conn: u32) -> Result<Found, NoMemory>
    requires { IsSound world.old }
    ensures heard { OnOk result (world.new ≡ hear_frame (says frame.now) conn world.old) }
    ensures told { IfOk result (λ found. frame_changes (says frame.now) conn world.old ≡ false → is_touched found ≡ false) }
    ensures tells { IfOk result (λ found. Tells world.old world.new found) }
    ensures exact { IfOk result (λ found. IsExact world.old world.new found) }
{
    match read_message(alloc, frame)? {
        Some((message, xid)) => hear_message(alloc, world, &message, xid, conn),
        None => {
            let before = Before::of(alloc, world)?;
            world.close(alloc, Closing::BadFrame, conn)?;
            let touched = before.behind(alloc, world)?;
            Ok(Found::Named(touched))
        }
    }
}

/// Takes what stands at the front of the bytes that came.
fn read_front(alloc: Global, known: &mut Known, conn: u32) -> Result<Front, NoMemory>
    requires { HasSettled known.old }
    ensures front { IfOk result (λ made. made ≡ front (unread conn known.old.world)) }
    ensures read { OnOk result (known.new.world ≡ read conn known.old.world) }
    ensures settled { OnOk result (HasSettled known.new) }
    ensures early { IsEarly known.old → OnOk result (IsEarly known.new) }
{
    a_frame_leaves_it_sound();
    what_happens_keeps_connections_in_order();
    what_is_said_is_alike();
    alike_worlds_rest_alike();
    alike_worlds_have_the_same_plans();
    known.world.conns.next_frame(alloc, conn)
}

/// A connection hears a frame, and what follows from it is said.
fn hear_one<T: Tally>(
    alloc: Global,
    known: &mut Known,
    frame: &[u8],
    conn: u32,
    units: &mut T,
) -> Result<(), NoMemory>
    requires { HasSettled known.old }
    ensures heard { OnOk result (known.new.world ≡ settle (hear_frame (says frame.now) conn known.old.world)) }
    ensures settled { OnOk result (HasSettled known.new) }
    ensures left_out { frame_changes (says frame.now) conn known.old.world ≡ false → IsEarly known.old → T.count units.new ≡ T.count units.old }
    ensures early { frame_changes (says frame.now) conn known.old.world ≡ false → IsEarly known.old → OnOk result (IsEarly known.new) }
    ensures most { RisesAtMost (settling known.old.world (hear_frame (says frame.now) conn known.old.world)) (T.count units.old) (T.count units.new) }
{
    a_frame_leaves_it_sound();
    what_happens_keeps_connections_in_order();
    what_happens_keeps_the_plans();
    alike_worlds_rest_alike();
    alike_worlds_have_the_same_plans();
    a_configuration_is_valid(&known.world.conf);
    what_asks_touch_was_known();
    let found = hear_frame(alloc, &mut known.world, frame, conn)?;
    settle_where_due(alloc, known, found, units)
}

/// A connection is closed for bytes that are no frame.
fn refuse<T: Tally>(
    alloc: Global,
    known: &mut Known,
    conn: u32,
    units: &mut T,
) -> Result<(), NoMemory>
    requires { HasSettled known.old }
    ensures refused { OnOk result (known.new.world ≡ settle (close BadFrame conn known.old.world)) }
    ensures settled { OnOk result (HasSettled known.new) }
    ensures most { RisesAtMost (settling known.old.world (close BadFrame conn known.old.world)) (T.count units.old) (T.count units.new) }
{
    what_happens_keeps_connections_in_order();
    what_happens_keeps_the_plans();
    forgetting_what_is_lost_makes_it_sound();
    a_configuration_is_valid(&known.world.conf);
    what_asks_touch_was_known();
    let before = Before::of(alloc, &known.world)?;
    known.world.close(alloc, Closing::BadFrame, conn)?;
    let touched = before.behind(alloc, &known.world)?;
    settle_anew(alloc, known, touched, Ends::Any, units)
}

/// Takes what stands at the front of the bytes that came, and settles; `false` where less than a frame
/// stands there, or the connection was closed for it.
fn hear_front<T: Tally>(
    alloc: Global,
    known: &mut Known,
    conn: u32,
    units: &mut T,
) -> Result<bool, NoMemory>
    requires { HasSettled known.old }
    ensures heard { OnOk result (known.new.world ≡ hear_next conn known.old.world) }
    ensures more { IfOk result (λ more. more ≡ has_frame conn known.old.world) }
    ensures settled { OnOk result (HasSettled known.new) }
    ensures left_out { next_changes conn known.old.world ≡ false → IsEarly known.old → T.count units.new ≡ T.count units.old }
    ensures early { next_changes conn known.old.world ≡ false → IsEarly known.old → OnOk result (IsEarly known.new) }
    ensures most { RisesAtMost (next_allows conn known.old.world) (T.count units.old) (T.count units.new) }
{
    match read_front(alloc, known, conn)? {
        Front::Part => Ok(false),
        Front::Frame(frame) => {
            hear_one(alloc, known, frame.as_slice(), conn, units)?;
            Ok(true)
        }
        Front::Bad => {
            refuse(alloc, known, conn, units)?;
            Ok(false)
        }
    }
}

/// Hears the frames in the bytes that came, at most so many. Each settles.
pub(crate) fn hear_frames<T: Tally>(
    alloc: Global,
    known: &mut Known,
    conn: u32,
    most: usize,
    units: &mut T,
) -> Result<(), NoMemory>
    requires { HasSettled known.old }
    ensures heard { OnOk result (known.new.world ≡ hear_frames most conn known.old.world) }
    ensures settled { OnOk result (HasSettled known.new) }
    ensures left_out { any_changes most conn known.old.world ≡ false → IsEarly known.old → T.count units.new ≡ T.count units.old }
    ensures most { RisesAtMost (frames_allow most conn known.old.world) (T.count units.old) (T.count units.new) }
{
    for _ in 0..most {
        if !hear_front(alloc, known, conn, units)? {
            return Ok(());
        }
    }
    Ok(())
}
