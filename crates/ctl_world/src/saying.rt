ghost use Rattle.std.specs.Prelude.{◌≡◌, OnOk};
ghost use Rattle.ctl_world.specs.Saying.{ask, packet_out, repeat, say};

use crate::said::Said;
use crate::world::World;
use neighbour_resolve::Outgoing;
use net_base::NoMemory;
use of_match::CONTROLLER;
use of13_codec::{Message, PacketOut};

/// No buffered packet (OpenFlow 1.3, 7.3.7).
const NO_BUFFER: u32 = 0xffff_ffff;

/// The message that tells a switch to send a frame, which comes from the controller (PACKET_OUT, 7.3.7).
pub fn packet_out(out: Outgoing) -> Message
    ensures { result ≡ packet_out out }
{
    Message::PacketOut(PacketOut {
        buffer: NO_BUFFER,
        in_port: CONTROLLER,
        actions: out.actions,
        payload: out.frame,
    })
}

impl World {
    /// Says a message on a connection with its next transaction id; nothing where it isn't open. After
    /// `NoMemory` nothing is known of what is left.
    pub fn say(&mut self, conn: u32, message: Message) -> Result<(), NoMemory>
        ensures { OnOk result (self.new ≡ say conn message self.old) }
    {
        match self.conns.next_xid(conn) {
            Some(xid) => self.said.push(Said::Message { conn, message, xid }),
            None => Ok(()),
        }
    }

    /// The same of a message whose reply is awaited: a barrier, or the request for the ports.
    pub fn ask(&mut self, conn: u32, message: Message) -> Result<(), NoMemory>
        ensures { OnOk result (self.new ≡ ask conn message self.old) }
    {
        match self.conns.ask_xid(conn) {
            Some(xid) => self.said.push(Said::Message { conn, message, xid }),
            None => Ok(()),
        }
    }

    /// Says a message that repeats a transaction id that was heard.
    pub fn repeat(&mut self, conn: u32, message: Message, xid: u32) -> Result<(), NoMemory>
        ensures { OnOk result (self.new ≡ repeat conn message xid self.old) }
    {
        self.said.push(Said::Message { conn, message, xid })
    }
}
