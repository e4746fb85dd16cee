ghost use Rattle.std.specs.Prelude.{◌≡◌, ◌<◌, Some, length, IfOk, IsTrue, OnOk, OnErr};
ghost use Rattle.std.specs.Borrow.{sem};
ghost use Rattle.std.specs.Io.BufRead.{Rests};
ghost use Rattle.switch_session.specs.Connections.{opened, fed, next_id, due_at, asks_echo};
ghost use Rattle.switch_session.specs.Frames.{Cuts, OnNotYet};
ghost use Rattle.switch_session.specs.Stages.{leads};
ghost use Rattle.switch_session.specs.Staying.{leaves};
ghost use Rattle.switch_session.specs.contracts.session.Session.{the_row};

use crate::ports::PortTold;
use crate::quiet::{Quiet, make_due};
use crate::state::{Stage, State, Step};
use crate::staying::leaves;
use crate::stream::{Got, Stream};
use net_base::{Moment, NoMemory};
use of13_codec::Message;
use std::alloc::Global;
use std::marker::Model;

/// One connection to a switch, as the controller keeps it: the bytes that came, how far the setup
/// is (OpenFlow 1.3, 6.3), what the switch told of its ports, and when it was heard last. Contracts
/// see a `Connection`.
#[derive(Drop)]
pub struct Session {
    alloc: Global,
    stream: Stream,
    state: State,
    heard: Moment,
    echoed: bool,
    last_xid: u32,
}

impl Model for Session {
    ghost use Rattle.switch_session.specs.Connections.{Connection};

    ghost Value = { Connection };

    ghost view = { λ s. record { state = s.state; heard = s.heard; echoed = s.echoed; last_xid = s.last_xid; unread = s.stream } };
}

impl Session {
    /// A connection that was opened at this moment, of which nothing came yet.
    pub fn open(alloc: Global, now: Moment) -> Session
        ensures { result ≡ opened now }
    {
        Session {
            alloc,
            stream: Stream::new(alloc),
            state: State::new(alloc),
            heard: now,
            echoed: false,
            last_xid: 0,
        }
    }

    /// How far the connection is set up.
    pub fn stage(&self) -> Stage
        ensures { result ≡ self.now.state.stage }
    {
        self.state.stage
    }

    /// The ports that the switch told, at most 4,096, in the order in which it told them first.
    pub fn ports(&self) -> &[PortTold]
        ensures { result.now ≡ self.now.state.ports }
    {
        self.state.ports.as_slice()
    }

    /// The moment of the last heard byte, or else of the opening.
    pub fn heard(&self) -> Moment
        ensures { result ≡ self.now.heard }
    {
        self.heard
    }

    /// The transaction id of the outstanding barrier or port request; `None` exactly where there is none.
    pub fn awaited(&self) -> Option<u32>
        ensures { result ≡ self.now.state.awaited }
    {
        self.state.awaited
    }

    /// Adds the bytes of a piece that came at this moment. An empty piece is no heard byte. After
    /// `NoMemory` the session is as it was.
    pub fn feed(&mut self, piece: &[u8], now: Moment) -> Result<(), NoMemory>
        ensures ok { OnOk result (self.new ≡ fed self.old piece.now now) }
        ensures err { OnErr result (self.new ≡ self.old) }
    {
        if !piece.is_empty() {
            self.stream.feed(piece)?;
            self.heard = now;
            self.echoed = false;
        }
        Ok(())
    }

    /// How many bytes came that no frame has taken yet.
    pub fn unread_len(&self) -> usize
        ensures { result ≡ length self.now.unread }
    {
        self.stream.len()
    }

    /// Lends the next frame, and takes it from the unread bytes. `NotYet` exactly where less than
    /// a frame came, and then fewer than 65,535 bytes are unread; `Bad` exactly at a header whose
    /// length is under 8 (OpenFlow 1.3, 7.1). Neither takes anything.
    pub fn next(&mut self) -> Got<'_>
        ensures* rest { sem 𝓛 (Rests the_row self.entry (λ after. (after ≡ record self.old { unread = after.unread }) × Cuts result self.old.unread after.unread)) }
        ensures short { OnNotYet result (length self.old.unread < 65535) }
    {
        self.stream.next()
    }

    /// Takes a message with its transaction id, and answers what it did. After `NoMemory` the
    /// session is as it was.
    pub fn hear(&mut self, message: &Message, xid: u32) -> Result<Step, NoMemory>
        ensures ok { IfOk result (λ step. let after = leads self.old.state message.now xid in (self.new ≡ record self.old { state = after.0 }) × (step ≡ after.1)) }
        ensures err { OnErr result (self.new ≡ self.old) }
    {
        self.state.hear(self.alloc, message, xid)
    }

    /// Whether hearing a message leaves the stage, what is awaited and the ports told as they are. Of some that
    /// do, as an ERROR behind a closing, the answer is `false`.
    pub fn stays(&self, message: &Message, xid: u32) -> bool
        ensures left { IsTrue result → (leads self.now.state message.now xid).0 ≡ self.now.state }
        ensures exact { result ≡ leaves self.now.state message.now xid }
    {
        leaves(&self.state, message, xid)
    }

    /// Notes that a barrier or a port request was said with this transaction id.
    pub fn asked(&mut self, xid: u32)
        ensures { self.new ≡ record self.old { state = record self.old.state { awaited = Some xid } } }
    {
        self.state.awaited = Some(xid);
    }

    /// The transaction id of the next message that is said: they count from 1, and 1 comes behind
    /// 0xffffffff.
    pub fn next_xid(&mut self) -> u32
        ensures value { result ≡ next_id self.old.last_xid }
        ensures noted { self.new ≡ record self.old { last_xid = result } }
    {
        self.last_xid = if self.last_xid == u32::MAX {
            1
        } else {
            self.last_xid + 1
        };
        self.last_xid
    }

    /// What is due at this moment: 60 seconds or more without a heard byte end the connection, and
    /// after 20 seconds an echo is asked for, once until a byte is heard.
    pub fn quiet(&mut self, now: Moment) -> Quiet
        ensures due { result ≡ due_at self.old now }
        ensures noted { self.new ≡ record self.old { echoed = asks_echo result self.old.echoed } }
    {
        let quiet = make_due(self.echoed, now.0.saturating_sub(self.heard.0));
        if let Quiet::Echo = quiet {
            self.echoed = true;
        }
        quiet
    }
}
