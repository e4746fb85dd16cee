//! What happens, turn by turn.

ghost use Rattle.std.specs.Prelude.{◌≡◌, OnOk};
ghost use Rattle.bgp_peer.specs.Turns.{begun, opened, heard, closed, shown, work};

use crate::peer::{Peer, Peering};
use fg_outside::{EndCause, Happening};
use net_base::{Bytes, Moment, NoMemory};
use std::alloc::Global;

/// What is known of the peer, and the bytes that came on its connection and weren't heard yet.
#[derive(Debug, Drop)]
pub(crate) struct Known {
    pub peer: Peer,
    pub unread: Bytes,
}

impl Known {
    /// Before anything happened.
    pub(crate) fn new(alloc: Global, peering: Peering) -> Known
        ensures { result ≡ begun peering }
    {
        Known {
            peer: Peer::new(alloc, peering),
            unread: Bytes::new(alloc),
        }
    }

    /// A connection opened. One beside the connection of the session is turned away.
    fn opened(&mut self, alloc: Global, conn: u32) -> Result<(), NoMemory>
        ensures { OnOk result (self.new ≡ opened conn self.old) }
    {
        match self.peer.conn {
            None => {
                self.unread.truncate(0);
                self.peer.open(alloc, conn)
            }
            Some(open) if open == conn => Ok(()),
            Some(_) => self.peer.turn_away(alloc, conn),
        }
    }

    /// Bytes came.
    fn heard(&mut self, alloc: Global, conn: u32, piece: &[u8]) -> Result<(), NoMemory>
        ensures { OnOk result (self.new ≡ heard conn piece.now self.old) }
    {
        if !self.peer.is_on(conn) {
            return Ok(());
        }
        self.unread.append(piece)?;
        self.unread = self.peer.hear_all(alloc, self.unread.as_slice())?;
        Ok(())
    }

    /// A connection ended.
    fn closed(&mut self, conn: u32, cause: EndCause) -> Result<(), NoMemory>
        ensures { OnOk result (self.new ≡ closed conn cause self.old) }
    {
        if !self.peer.is_on(conn) {
            return Ok(());
        }
        self.peer.lose(conn, cause)
    }

    /// The clock shows a moment. One that falls counts as none later.
    fn shown(&mut self, alloc: Global, moment: u64) -> Result<(), NoMemory>
        ensures { OnOk result (self.new ≡ shown moment self.old) }
    {
        self.peer.moment = Moment(self.peer.moment.0.max(moment));
        self.peer.tick(alloc)
    }

    /// What happens on a connection that isn't the session's is passed over, but that it opens; and so is a
    /// reload.
    pub(crate) fn work(&mut self, alloc: Global, what: &Happening) -> Result<(), NoMemory>
        ensures { OnOk result (self.new ≡ work what.now self.old) }
    {
        match what {
            Happening::Opened(conn) => self.opened(alloc, *conn),
            Happening::Heard { conn, piece } => self.heard(alloc, *conn, piece.as_slice()),
            Happening::Closed { conn, cause } => self.closed(*conn, *cause),
            Happening::Moment(moment) => self.shown(alloc, *moment),
            Happening::Reload(_) => Ok(()),
        }
    }
}
