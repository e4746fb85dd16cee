//! How a connection opens, takes its datapath and ends (OpenFlow 1.3, 6.3).

ghost use Rattle.std.specs.Prelude.{◌≡◌, OnOk};
ghost use Rattle.ctl_life.specs.Life.{closing_for, open_conn, replace, take_dp};

use ctl_world::{Conn, Sent, World};
use fg_outside::EndCause;
use net_base::{DpId, NoMemory};
use of13_codec::Message;
use std::alloc::Global;
use switch_session::{Closing, Session};

/// The bit of OpenFlow 1.3 in a HELLO's bitmap of versions (OpenFlow 1.3, 7.5.1).
const VERSION_BIT: u32 = 1 << 4;

/// A connection opens: a HELLO is said, whose bitmap has version 4 alone.
pub fn open(alloc: Global, world: &mut World, conn: u32) -> Result<(), NoMemory>
    ensures { OnOk result (world.new ≡ open_conn conn world.old) }
{
    world.conns.put(Conn {
        number: conn,
        session: Session::open(alloc, world.moment),
        dp: None,
        sent: Sent::none(alloc),
    })?;
    let hello = Message::Hello {
        version: 4,
        bitmap: Some(VERSION_BIT),
    };
    world.say(conn, hello)
}

/// Another connection of the datapath gives way.
pub fn replace(alloc: Global, world: &mut World, dp: DpId) -> Result<(), NoMemory>
    ensures { OnOk result (world.new ≡ replace dp world.old) }
{
    match world.conns.of(dp) {
        Some(conn) => {
            let number = conn.number;
            world.close(alloc, Closing::Replaced, number)
        }
        None => Ok(()),
    }
}

pub fn take_dp(alloc: Global, world: &mut World, conn: u32, dp: DpId) -> Result<(), NoMemory>
    ensures { OnOk result (world.new ≡ take_dp conn dp world.old) }
{
    world.conns.set_dp(conn, dp);
    world.forget_lost(alloc)
}

pub fn closing_for(cause: EndCause) -> Closing
    ensures { result ≡ closing_for cause }
{
    match cause {
        EndCause::End => Closing::End,
        EndCause::LinkFault => Closing::LinkFault,
        EndCause::Overfull => Closing::Overfull,
    }
}
