ghost use Rattle.std.specs.Prelude.{◌≡◌, ◌==◌, ◌&&◌, ℕ, None, false, if◌then◌else◌, OnOk};
ghost use Rattle.std.specs.Option.{option_map_or};
ghost use Rattle.gauge_poll.specs.Newest.{at};
ghost use Rattle.gauge_poll.specs.Polls.{later};
ghost use Rattle.gauge_poll.specs.Telling.{answers};

use crate::poll::Poll;
use crate::telling::{Telling, answers};
use net_base::NoMemory;
use std::alloc::Global;
use std::collections::BTreeMap;

/// The newest poll for each watcher, by the watcher's place.
type Polls = BTreeMap<usize, Poll>;

/// The newest poll for each watcher on each connection.
#[derive(Drop)]
pub(crate) struct Newest {
    conns: BTreeMap<u32, Polls>,
}

impl Newest {
    /// No polls, which takes no memory yet.
    pub(crate) fn new(alloc: Global) -> Newest
        ensures { (conn place : ℕ) → at result conn place ≡ None }
    {
        Newest {
            conns: BTreeMap::new(alloc),
        }
    }

    /// The newest poll on a connection for the watcher at a place; `None` where there is none.
    pub(crate) fn get(&self, conn: u32, place: usize) -> Option<Poll>
        ensures { result ≡ at self.now conn place }
    {
        let polls = self.conns.get(&conn)?;
        polls.get(&place).copied()
    }

    /// Whether the newest poll on a connection for the watcher at a place has this transaction id, and asked
    /// for what is told.
    pub(crate) fn is_of(&self, conn: u32, place: usize, told: &Telling, xid: u32) -> bool
        ensures { result ≡ option_map_or (λ p. p.xid == xid && answers p.kind told.now) (at self.now conn place) false }
    {
        match self.get(conn, place) {
            Some(poll) => poll.xid == xid && answers(poll.kind, told),
            None => false,
        }
    }

    /// Keeps a poll, in the place of the one before it.
    pub(crate) fn note(&mut self, alloc: Global, poll: Poll) -> Result<(), NoMemory>
        ensures { OnOk result ((conn place : ℕ) → at self.new conn place ≡ later conn place (at self.old conn place) poll) }
    {
        let mut polls = match self.conns.remove(&poll.conn) {
            Some(polls) => polls,
            None => BTreeMap::new(alloc),
        };
        polls.insert(poll.watcher, poll)?;
        self.conns.insert(poll.conn, polls)?;
        Ok(())
    }

    /// Forgets the polls on a connection.
    pub(crate) fn forget(&mut self, conn: u32)
        ensures { (other place : ℕ) → at self.new other place ≡ (if conn == other then None else at self.old other place) }
    {
        self.conns.remove(&conn);
    }
}
