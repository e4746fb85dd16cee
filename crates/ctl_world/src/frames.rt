ghost use Rattle.std.specs.Prelude.{◌≡◌, [], length, IfOk, OnOk};
ghost use Rattle.std.specs.Option.{option_map_or};
ghost use Rattle.ctl_world.specs.Connections.{change, conn_with};
ghost use Rattle.ctl_world.specs.Frames.{behind_frame, front, with_read};

use crate::conns::{Conns, place};
use net_base::{Bytes, NoMemory};
use std::alloc::Global;
use switch_session::{Got, Session};

/// What stands at the front of the bytes that came on a connection.
#[derive(Debug, Drop)]
pub enum Front {
    /// Less than a frame.
    Part,
    /// A frame.
    Frame(Bytes),
    /// A header that tells fewer bytes than it has itself.
    Bad,
}

/// Takes what stands at the front of the bytes that a session has not read yet.
fn take_front(alloc: Global, session: &mut Session) -> Result<Front, NoMemory>
    ensures front { IfOk result (λ made. made ≡ front session.old.unread) }
    ensures rest { OnOk result (session.new ≡ record session.old { unread = behind_frame session.old.unread }) }
{
    match session.next() {
        Got::NotYet => Ok(Front::Part),
        Got::Frame(frame) => Ok(Front::Frame(Bytes::from_slice(alloc, frame.bytes)?)),
        Got::Bad => Ok(Front::Bad),
    }
}

impl Conns {
    /// How many bytes came on a connection that no frame has taken yet; 0 where it isn't open.
    pub fn unread_len(&self, number: u32) -> usize
        ensures { result ≡ length (option_map_or (λ c. c.session.unread) (conn_with self.now number) []) }
    {
        match self.get(number) {
            Some(conn) => conn.session.unread_len(),
            None => 0,
        }
    }

    /// Takes what stands at the front of the bytes that came on a connection; `Part` where it isn't open.
    pub fn next_frame(&mut self, alloc: Global, number: u32) -> Result<Front, NoMemory>
        ensures front { IfOk result (λ made. made ≡ front (option_map_or (λ c. c.session.unread) (conn_with self.old number) [])) }
        ensures rest { OnOk result (self.new ≡ change number with_read self.old) }
    {
        match place(self.conns.as_slice(), number) {
            Some(at) => take_front(alloc, &mut self.conns[at].session),
            None => Ok(Front::Part),
        }
    }
}
