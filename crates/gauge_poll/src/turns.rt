//! What happens, turn by turn.

ghost use Rattle.std.specs.Prelude.{◌≡◌, ℕ, true, OnOk};
ghost use Rattle.fg_outside.specs.declared.hub.Happening.TheVariants.{Opened, Heard, Closed, Moment as Shown};
ghost use Rattle.ctl_world.specs.Connections.{is_open};
ghost use Rattle.ctl_life.specs.Life.{feed};
ghost use Rattle.gauge_poll.specs.Monitoring.{Monitor, work};
ghost use Rattle.gauge_poll.specs.Newest.{at, waits_of};
ghost use Rattle.gauge_poll.specs.StandsFor.{KeepsAll};

use crate::hearing::hear_frames;
use crate::known::Kept;
use crate::newest::Newest;
use crate::parts::Parts;
use crate::polling::poll_due;
use ctl_life::{closing_for, look_after, open};
use ctl_world::{Conns, Said, World};
use fg_outside::{EndCause, Happening};
use net_base::NoMemory;
use std::alloc::Global;

/// Bytes came on a connection.
fn feed(world: &mut World, conn: u32, piece: &[u8]) -> Result<(), NoMemory>
    ensures { OnOk result (world.new ≡ feed conn piece.now world.old) }
{
    let moment = world.moment;
    world.conns.feed(conn, piece, moment)
}

/// Forgets the polls on connections that were closed, and what waits of their replies.
fn forget_closed(newest: &mut Newest, parts: &mut Parts, conns: &Conns, said: &[Said])
    ensures polls { (conn place : ℕ) → is_open conns.now conn ≡ true → at newest.new conn place ≡ at newest.old conn place }
    ensures waits { (conn place : ℕ) → is_open conns.now conn ≡ true → waits_of parts.new conn place ≡ waits_of parts.old conn place }
{
    for one in said {
        if let Said::Closing { conn, .. } = one {
            forget_shut(newest, parts, conns, *conn);
        }
    }
}

/// Forgets the polls on a connection, and what waits of their replies, unless it is open.
fn forget_shut(newest: &mut Newest, parts: &mut Parts, conns: &Conns, conn: u32)
    ensures polls { (other place : ℕ) → is_open conns.now other ≡ true → at newest.new other place ≡ at newest.old other place }
    ensures waits { (other place : ℕ) → is_open conns.now other ≡ true → waits_of parts.new other place ≡ waits_of parts.old other place }
{
    if !conns.is_open(conn) {
        newest.forget(conn);
        parts.forget(conn);
    }
}

/// What opens is new, and what is heard or ends is open; else nothing is done. A reload is passed over.
fn work(alloc: Global, kept: &mut Kept, what: &Happening) -> Result<(), NoMemory>
    ensures { OnOk result ((m : Monitor) → KeepsAll kept.old m → KeepsAll kept.new (work what.now m)) }
{
    match what {
        Happening::Opened(conn) => opened(alloc, kept, *conn),
        Happening::Heard { conn, piece } => heard(alloc, kept, *conn, piece.as_slice()),
        Happening::Closed { conn, cause } => closed(alloc, kept, *conn, *cause),
        Happening::Moment(moment) => passed(alloc, kept, *moment),
        Happening::Reload(_) => Ok(()),
    }
}

/// The same, and the polls on connections that were closed are forgotten.
pub(crate) fn work_through(alloc: Global, kept: &mut Kept, what: &Happening) -> Result<(), NoMemory>
    ensures { OnOk result ((m : Monitor) → KeepsAll kept.old m → KeepsAll kept.new (work what.now m)) }
{
    work(alloc, kept, what)?;
    let known = &mut kept.known;
    forget_closed(
        &mut known.newest,
        &mut known.parts,
        &known.world.conns,
        known.world.said.as_slice(),
    );
    Ok(())
}

fn opened(alloc: Global, kept: &mut Kept, conn: u32) -> Result<(), NoMemory>
    ensures { OnOk result ((m : Monitor) → KeepsAll kept.old m → KeepsAll kept.new (work (Opened conn) m)) }
{
    if kept.known.world.conns.is_open(conn) {
        return Ok(());
    }
    kept.known.newest.forget(conn);
    kept.known.parts.forget(conn);
    open(alloc, &mut kept.known.world, conn)
}

fn heard(alloc: Global, kept: &mut Kept, conn: u32, piece: &[u8]) -> Result<(), NoMemory>
    ensures { OnOk result ((m : Monitor) → KeepsAll kept.old m → KeepsAll kept.new (work (Heard conn piece.now) m)) }
{
    if !kept.known.world.conns.is_open(conn) {
        return Ok(());
    }
    feed(&mut kept.known.world, conn, piece)?;
    let most = kept.known.world.conns.unread_len(conn);
    hear_frames(alloc, kept, conn, most)
}

fn closed(alloc: Global, kept: &mut Kept, conn: u32, cause: EndCause) -> Result<(), NoMemory>
    ensures { OnOk result ((m : Monitor) → KeepsAll kept.old m → KeepsAll kept.new (work (Closed conn cause) m)) }
{
    if !kept.known.world.conns.is_open(conn) {
        return Ok(());
    }
    kept.known.world.end(alloc, closing_for(cause), conn)?;
    let known = &mut kept.known;
    forget_shut(
        &mut known.newest,
        &mut known.parts,
        &known.world.conns,
        conn,
    );
    Ok(())
}

/// The connections are looked after, by number, and then it is polled.
fn passed(alloc: Global, kept: &mut Kept, moment: u64) -> Result<(), NoMemory>
    ensures { OnOk result ((m : Monitor) → KeepsAll kept.old m → KeepsAll kept.new (work (Shown moment) m)) }
{
    look_after(alloc, &mut kept.known.world, moment)?;
    poll_due(alloc, &mut kept.known, kept.watchers.as_slice())
}
