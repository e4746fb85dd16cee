//! The clock, and connections on which no byte came for too long.

ghost use Rattle.std.specs.Prelude.{◌≡◌, false, map, IfOk, OnOk};
ghost use Rattle.std.specs.List.{list_any};
ghost use Rattle.ctl_life.specs.Silence.{closes, falls_silent, look, look_each, show, stir};
ghost use Rattle.ctl_world.specs.Alike.{IsAlike};

use ctl_world::laws::{alike_worlds_run_alike, what_is_said_is_alike};
use ctl_world::{Conn, World};
use net_base::{Bytes, Moment, NoMemory};
use of13_codec::Message;
use std::alloc::Global;
use switch_session::{Closing, Quiet};

/// An echo is asked for, or the connection closed, where no byte came for too long. Tells whether it was
/// closed.
fn stir(alloc: Global, world: &mut World, quiet: Quiet, conn: u32) -> Result<bool, NoMemory>
    ensures stirred { OnOk result (world.new ≡ stir quiet conn world.old) }
    ensures alike { IfOk result (λ closed. closed ≡ false → IsAlike world.new world.old) }
    ensures told { IfOk result (λ closed. closed ≡ closes quiet) }
{
    alike_worlds_run_alike();
    what_is_said_is_alike();
    match quiet {
        Quiet::Well => Ok(false),
        Quiet::Echo => {
            world.say(conn, Message::EchoRequest(Bytes::new(alloc)))?;
            Ok(false)
        }
        Quiet::Silent => {
            world.close(alloc, Closing::Silent, conn)?;
            Ok(true)
        }
    }
}

/// Looks after a connection, and tells whether it was closed.
fn look(alloc: Global, world: &mut World, conn: u32) -> Result<bool, NoMemory>
    ensures looked { OnOk result (world.new ≡ look conn world.old) }
    ensures alike { IfOk result (λ closed. closed ≡ false → IsAlike world.new world.old) }
    ensures told { IfOk result (λ closed. closed ≡ falls_silent world.old conn) }
{
    alike_worlds_run_alike();
    what_is_said_is_alike();
    if !world.conns.is_open(conn) {
        return Ok(false);
    }
    let quiet = world.conns.look(conn, world.moment);
    stir(alloc, world, quiet, conn)
}

/// Looks after connections, and tells whether one was closed.
fn look_each(alloc: Global, world: &mut World, conns: &[u32]) -> Result<bool, NoMemory>
    ensures looked { OnOk result (world.new ≡ look_each conns.now world.old) }
    ensures alike { IfOk result (λ closed. closed ≡ false → IsAlike world.new world.old) }
    ensures told { IfOk result (λ closed. closed ≡ list_any (falls_silent world.old) conns.now) }
{
    alike_worlds_run_alike();
    match conns {
        [conn, more @ ..] => {
            let closed = look(alloc, world, *conn)?;
            let others = look_each(alloc, world, more)?;
            Ok(closed || others)
        }
        [] => Ok(false),
    }
}

fn numbers(alloc: Global, conns: &[Conn]) -> Result<Vec<u32>, NoMemory>
    ensures { IfOk result (λ numbers. numbers.items ≡ map (λ c. c.number) conns.now) }
{
    let mut numbers = Vec::new(alloc);
    for conn in conns {
        numbers.push(conn.number)?;
    }
    Ok(numbers)
}

/// The clock shows a moment; one below the last counts as that. The connections are looked after, and
/// whether one was closed is told.
pub fn look_after(alloc: Global, world: &mut World, moment: u64) -> Result<bool, NoMemory>
    ensures looked { OnOk result (world.new ≡ look_each (map (λ c. c.number) world.old.conns) (show moment world.old)) }
    ensures alike { IfOk result (λ closed. closed ≡ false → IsAlike world.new (show moment world.old)) }
    ensures told { IfOk result (λ closed. closed ≡ list_any (falls_silent (show moment world.old)) (map (λ c. c.number) world.old.conns)) }
{
    world.moment = Moment(world.moment.0.max(moment));
    let numbers = numbers(alloc, world.conns.as_slice())?;
    look_each(alloc, world, numbers.as_slice())
}
