//! What a connection hears, and what is said to that whatever else is made of it.

ghost use Rattle.std.specs.Prelude.{◌≡◌, IfOk, OnOk};
ghost use Rattle.ctl_life.specs.Life.{echo, says, tell_version, turn_away};
ghost use Rattle.ctl_world.specs.Alike.{IsAlike};

use ctl_world::World;
use ctl_world::laws::{alike_worlds_run_alike, what_is_said_is_alike};
use net_base::{Bytes, NoMemory, TryCopy};
use of13_codec::{Message, WireRefused, decode};
use std::alloc::{AllocError, Global};
use switch_session::Closing;

/// The message of a frame; `None` where it spells none.
pub fn read_message(alloc: Global, frame: &[u8]) -> Result<Option<(Message, u32)>, NoMemory>
    ensures { IfOk result (λ said. said ≡ says frame.now) }
{
    match decode(alloc, frame) {
        Ok(said) => Ok(Some(said)),
        Err(WireRefused::Memory) => Err(AllocError),
        Err(WireRefused::Version) => Ok(None),
        Err(WireRefused::Length) => Ok(None),
        Err(WireRefused::Body(_)) => Ok(None),
    }
}

/// Answers an ECHO_REQUEST with its data and its transaction id (OpenFlow 1.3, 7.5.3).
pub fn answer_echo(
    alloc: Global,
    world: &mut World,
    message: &Message,
    conn: u32,
    xid: u32,
) -> Result<(), NoMemory>
    ensures done { OnOk result (world.new ≡ echo message.now conn xid world.old) }
    ensures alike { OnOk result (IsAlike world.new world.old) }
{
    alike_worlds_run_alike();
    what_is_said_is_alike();
    match message {
        Message::EchoRequest(data) => {
            let data = data.copy(alloc)?;
            world.repeat(conn, Message::EchoReply(data), xid)
        }
        _ => Ok(()),
    }
}

/// Before a closing for the version goes an ERROR of type 0 and code 0 (OFPET_HELLO_FAILED,
/// OFPHFC_INCOMPATIBLE; OpenFlow 1.3, 7.4.4).
fn tell_version(
    alloc: Global,
    world: &mut World,
    cause: Closing,
    conn: u32,
    xid: u32,
) -> Result<(), NoMemory>
    ensures { OnOk result (world.new ≡ tell_version cause conn xid world.old) }
{
    match cause {
        Closing::WrongVersion => {
            let error = Message::Error {
                kind: 0,
                code: 0,
                payload: Bytes::new(alloc),
            };
            world.repeat(conn, error, xid)
        }
        _ => Ok(()),
    }
}

pub fn turn_away(
    alloc: Global,
    world: &mut World,
    cause: Closing,
    conn: u32,
    xid: u32,
) -> Result<(), NoMemory>
    ensures { OnOk result (world.new ≡ turn_away cause conn xid world.old) }
{
    tell_version(alloc, world, cause, conn, xid)?;
    world.close(alloc, cause, conn)
}
