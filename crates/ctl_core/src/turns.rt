//! What happens, turn by turn.

ghost use Rattle.std.specs.Prelude.{◌≡◌, ◌<◌, Some, None, if◌then◌else◌, max, false, IfOk, OnOk};
ghost use Rattle.std.specs.List.{list_any};
ghost use Rattle.fg_outside.specs.declared.hub.Happening.TheVariants.{Opened, Heard, Closed, Moment as Shown, Reload};
ghost use Rattle.cold_start.specs.Counts.{RisesAtMost};
ghost use Rattle.ctl_core.specs.Allowed.{allows};
ghost use Rattle.ctl_life.specs.Silence.{closes, falls_silent, is_silent, look, look_each, show, stir};
ghost use Rattle.ctl_core.specs.Changes.{changes, latest};
ghost use Rattle.ctl_world.specs.World.{now};
ghost use Rattle.ctl_settle.specs.Rest.{IsBound, RestsUntil, rests_until};
ghost use Rattle.ctl_core.specs.Known.{HasSettled, IsEarly};
ghost use Rattle.ctl_life.specs.Life.{closing_for, feed, open_conn};
ghost use Rattle.ctl_core.specs.Turning.{aged, turned};
ghost use Rattle.ctl_core.specs.Turns.{age, pass, pass_in, turn, work};

use crate::before::Before;
use crate::ends::Ends;
use crate::hearing::{a_configuration_is_valid, hear_frames};
use crate::known::{Known, settle_anew, settle_where_due};
use crate::laws::{
    a_moment_leaves_it_sound, a_reload_leaves_it_sound, what_comes_leaves_it_sound,
    what_happens_keeps_connections_in_order, what_happens_keeps_the_plans,
};
use crate::reloading::reload;
use crate::turned::turned;
use conf_types::Tally;
use ctl_life::{closing_for, look_after, open};
use ctl_settle::laws::{
    alike_worlds_have_the_same_plans, alike_worlds_rest_alike, what_asks_touch_was_known,
    what_rests_settles_as_it_is,
};
use ctl_settle::{Touched, rests_until};
use ctl_world::laws::{
    alike_worlds_run_alike, forgetting_what_is_lost_makes_it_sound, what_is_said_is_alike,
};
use ctl_world::{Conn, World};
use fg_outside::{EndCause, Happening};
use net_base::{Moment, NoMemory};
use std::alloc::Global;

/// After so many milliseconds without a byte a connection is closed.
const SILENCE: u64 = 60_000;

/// Bytes came on a connection.
fn feed(known: &mut Known, conn: u32, piece: &[u8]) -> Result<(), NoMemory>
    requires { HasSettled known.old }
    ensures fed { OnOk result (known.new.world ≡ feed conn piece.now known.old.world) }
    ensures settled { OnOk result (HasSettled known.new) }
    ensures early { IsEarly known.old → OnOk result (IsEarly known.new) }
{
    what_comes_leaves_it_sound();
    what_happens_keeps_connections_in_order();
    what_is_said_is_alike();
    alike_worlds_rest_alike();
    alike_worlds_have_the_same_plans();
    let moment = known.world.moment;
    known.world.conns.feed(conn, piece, moment)
}

/// Forgets the hosts whose time is over.
fn age(world: &mut World)
    ensures { world.new ≡ age world.old }
{
    world.hosts.forget_due(&world.conf, world.moment);
}

/// What opens is new, and what is heard or ends is open; else nothing is done.
pub(crate) fn work<T: Tally>(
    alloc: Global,
    known: &mut Known,
    what: &Happening,
    units: &mut T,
) -> Result<(), NoMemory>
    requires { HasSettled known.old }
    ensures done { OnOk result (known.new.world ≡ work what.now known.old.world) }
    ensures settled { OnOk result (HasSettled known.new) }
    ensures left_out { changes what.now known.old.world ≡ false → latest what.now known.old.world < rests_until known.old.world → T.count units.new ≡ T.count units.old }
    ensures most { RisesAtMost (allows what.now known.old.world) (T.count units.old) (T.count units.new) }
{
    match what {
        Happening::Opened(conn) => opened(alloc, known, *conn, units),
        Happening::Heard { conn, piece } => heard(alloc, known, *conn, piece.as_slice(), units),
        Happening::Closed { conn, cause } => closed(alloc, known, *conn, *cause, units),
        Happening::Moment(moment) => passed(alloc, known, *moment, units),
        Happening::Reload(text) => reloaded(alloc, known, text.as_slice(), units),
    }
}

fn opened<T: Tally>(
    alloc: Global,
    known: &mut Known,
    conn: u32,
    units: &mut T,
) -> Result<(), NoMemory>
    requires { HasSettled known.old }
    ensures done { OnOk result (known.new.world ≡ work (Opened conn) known.old.world) }
    ensures settled { OnOk result (HasSettled known.new) }
    ensures left_out { changes (Opened conn) known.old.world ≡ false → IsEarly known.old → T.count units.new ≡ T.count units.old }
    ensures most { RisesAtMost (allows (Opened conn) known.old.world) (T.count units.old) (T.count units.new) }
{
    if known.world.conns.is_open(conn) {
        return Ok(());
    }
    what_comes_leaves_it_sound();
    what_happens_keeps_connections_in_order();
    what_happens_keeps_the_plans();
    what_asks_touch_was_known();
    open(alloc, &mut known.world, conn)?;
    settle_anew(alloc, known, Touched::nothing(alloc), Ends::Later, units)
}

/// Bytes came on a connection: their frames are heard.
fn heard<T: Tally>(
    alloc: Global,
    known: &mut Known,
    conn: u32,
    piece: &[u8],
    units: &mut T,
) -> Result<(), NoMemory>
    requires { HasSettled known.old }
    ensures done { OnOk result (known.new.world ≡ work (Heard conn piece.now) known.old.world) }
    ensures settled { OnOk result (HasSettled known.new) }
    ensures left_out { changes (Heard conn piece.now) known.old.world ≡ false → IsEarly known.old → T.count units.new ≡ T.count units.old }
    ensures most { RisesAtMost (allows (Heard conn piece.now) known.old.world) (T.count units.old) (T.count units.new) }
{
    if !known.world.conns.is_open(conn) {
        return Ok(());
    }
    feed(known, conn, piece)?;
    let most = known.world.conns.unread_len(conn);
    hear_frames(alloc, known, conn, most, units)
}

fn closed<T: Tally>(
    alloc: Global,
    known: &mut Known,
    conn: u32,
    cause: EndCause,
    units: &mut T,
) -> Result<(), NoMemory>
    requires { HasSettled known.old }
    ensures done { OnOk result (known.new.world ≡ work (Closed conn cause) known.old.world) }
    ensures settled { OnOk result (HasSettled known.new) }
    ensures left_out { changes (Closed conn cause) known.old.world ≡ false → IsEarly known.old → T.count units.new ≡ T.count units.old }
    ensures most { RisesAtMost (allows (Closed conn cause) known.old.world) (T.count units.old) (T.count units.new) }
{
    if !known.world.conns.is_open(conn) {
        return Ok(());
    }
    a_configuration_is_valid(&known.world.conf);
    forgetting_what_is_lost_makes_it_sound();
    what_happens_keeps_connections_in_order();
    what_happens_keeps_the_plans();
    what_asks_touch_was_known();
    let before = Before::of(alloc, &known.world)?;
    known.world.end(alloc, closing_for(cause), conn)?;
    let touched = before.behind(alloc, &known.world)?;
    settle_anew(alloc, known, touched, Ends::Any, units)
}

/// Whether no byte came on a connection for too long.
fn is_silent(now: Moment, conn: &Conn) -> bool
    ensures { result ≡ is_silent now conn.now }
{
    SILENCE <= now.0.saturating_sub(conn.session.heard().0)
}

fn any_silent(conns: &[Conn], now: Moment) -> bool
    ensures { result ≡ list_any (is_silent now) conns.now }
{
    conns.iter().any(|conn| is_silent(now, conn))
}

/// What is known, where a connection falls silent at a moment.
fn before_silence(alloc: Global, world: &World, moment: u64) -> Result<Option<Before>, NoMemory>
    ensures { IfOk result (λ kept. kept ≡ (if list_any (is_silent (record { 0 = max world.now.moment.0 moment })) world.now.conns then Some (now world.now) else None)) }
{
    if any_silent(world.conns.as_slice(), Moment(world.moment.0.max(moment))) {
        let before = Before::of(alloc, world)?;
        Ok(Some(before))
    } else {
        Ok(None)
    }
}

/// Forgets the hosts whose time is over, and tells what differs: from what was known, where that was kept; else the
/// hosts that the present moment turns, where an earlier one was shown before.
fn age_named(
    alloc: Global,
    world: &mut World,
    before: Moment,
    kept: Option<Before>,
) -> Result<Touched, NoMemory>
    ensures done { OnOk result (world.new ≡ age world.old) }
    ensures touched { IfOk result (λ touched. touched ≡ Some (aged before.0 kept world.old)) }
{
    match kept {
        Some(kept) => {
            age(world);
            kept.behind(alloc, world)
        }
        None => {
            let touched = turned(alloc, world, before)?;
            age(world);
            Ok(touched)
        }
    }
}

/// Where the moment is shown until which nothing is due, the first one at which something is takes its place.
fn until_at(world: &World, until: u64, moment: u64) -> u64
    requires bound { IsBound world.now until }
    requires rests { RestsUntil until world.now }
    ensures bound { IsBound world.now result }
    ensures rests { RestsUntil result world.now }
    ensures ahead { max world.now.moment.0 moment < rests_until world.now → max world.now.moment.0 moment < result }
{
    if world.moment.0 < until && until <= moment {
        rests_until(world)
    } else {
        until
    }
}

/// Where no connection was closed and nothing is due yet, no host is looked at.
fn passed<T: Tally>(
    alloc: Global,
    known: &mut Known,
    moment: u64,
    units: &mut T,
) -> Result<(), NoMemory>
    requires { HasSettled known.old }
    ensures done { OnOk result (known.new.world ≡ work (Shown moment) known.old.world) }
    ensures settled { OnOk result (HasSettled known.new) }
    ensures left_out { changes (Shown moment) known.old.world ≡ false → max known.old.world.moment.0 moment < rests_until known.old.world → T.count units.new ≡ T.count units.old }
    ensures most { RisesAtMost (allows (Shown moment) known.old.world) (T.count units.old) (T.count units.new) }
{
    a_configuration_is_valid(&known.world.conf);
    a_moment_leaves_it_sound();
    what_happens_keeps_connections_in_order();
    what_happens_keeps_the_plans();
    alike_worlds_rest_alike();
    alike_worlds_have_the_same_plans();
    what_rests_settles_as_it_is();
    what_asks_touch_was_known();
    known.until = until_at(&known.world, known.until, moment);
    let before = known.world.moment;
    let kept = before_silence(alloc, &known.world, moment)?;
    let closed = look_after(alloc, &mut known.world, moment)?;
    if !closed && known.world.moment.0 < known.until {
        return Ok(());
    }
    let touched = age_named(alloc, &mut known.world, before, kept)?;
    settle_anew(alloc, known, touched, Ends::Any, units)
}

fn reloaded<T: Tally>(
    alloc: Global,
    known: &mut Known,
    text: &[u8],
    units: &mut T,
) -> Result<(), NoMemory>
    requires { HasSettled known.old }
    ensures done { OnOk result (known.new.world ≡ work (Reload text.now) known.old.world) }
    ensures settled { OnOk result (HasSettled known.new) }
    ensures left_out { changes (Reload text.now) known.old.world ≡ false → IsEarly known.old → T.count units.new ≡ T.count units.old }
    ensures most { RisesAtMost (allows (Reload text.now) known.old.world) (T.count units.old) (T.count units.new) }
{
    a_configuration_is_valid(&known.world.conf);
    a_reload_leaves_it_sound();
    what_happens_keeps_connections_in_order();
    what_happens_keeps_the_plans();
    alike_worlds_rest_alike();
    alike_worlds_have_the_same_plans();
    what_asks_touch_was_known();
    let found = reload(alloc, &mut known.world, text)?;
    settle_where_due(alloc, known, found, units)
}
