ghost use Rattle.std.specs.Prelude.{◌≡◌, min};
ghost use Rattle.net_base.specs.declared.numbers.Moment.{Moment};
ghost use Rattle.bgp_session.specs.Sessions.{fresh, is_open, is_awaited, ended_by, is_over, is_quiet, leads, hears, hears_kind, opens, peer_opens, peer_says, fault_met, moment_comes, link_ends};

use crate::step::Step;
use bgp_messages::{Fault, Kind, Message, Open, Said};
use net_base::Moment;

/// The hold time that is offered, in seconds.
pub const HOLD_TIME: u16 = 90;

/// The states of a session that a peer opens (RFC 4271, 8.2.2).
#[derive(Clone, Copy, Debug, PartialEq, Eq)]
pub enum State {
    /// No connection is there.
    Idle,
    /// An OPEN was said, and one is awaited.
    OpenSent,
    /// A KEEPALIVE was said to the peer's OPEN, and one is awaited.
    OpenConfirm,
    /// UPDATEs and KEEPALIVEs are taken.
    Established,
}

/// A session: the OPEN that is said; the state; the hold time in seconds, 0 where no timer runs; and
/// the moments of the last message heard and of the last one said.
#[derive(Clone, Copy, Debug, PartialEq, Eq)]
pub struct Session {
    ours: Open,
    state: State,
    hold: u16,
    heard: Moment,
    said: Moment,
}

/// Whether as many seconds as the hold time has went by.
fn is_over(hold: u16, heard: Moment, now: Moment) -> bool
    ensures { result ≡ is_over hold heard now }
{
    u64::from(hold) * 1000 <= now.0.saturating_sub(heard.0)
}

/// Whether a third of the hold time went by.
fn is_quiet(hold: u16, said: Moment, now: Moment) -> bool
    ensures { result ≡ is_quiet hold said now }
{
    u128::from(hold) * 1000 <= u128::from(now.0.saturating_sub(said.0)) * 3
}

impl Session {
    /// A session of our AS with our BGP identifier, before its first connection.
    pub fn new(our_as: u16, id: u32) -> Session
        ensures { result ≡ fresh our_as id }
    {
        Session {
            ours: Open {
                sender_as: our_as,
                hold: HOLD_TIME,
                id,
            },
            state: State::Idle,
            hold: 0,
            heard: Moment(0),
            said: Moment(0),
        }
    }

    /// The state.
    pub fn state(&self) -> State
        ensures { result ≡ self.now.state }
    {
        self.state
    }

    /// Whether the session is open.
    pub fn is_open(&self) -> bool
        ensures { result ≡ is_open self.now.state }
    {
        match self.state {
            State::Idle => false,
            State::OpenSent | State::OpenConfirm | State::Established => true,
        }
    }

    /// Whether a message of this type is awaited, so that its body is read. Any other one is refused
    /// with `FiniteStateMachineError`, whatever its body.
    pub fn awaits(&self, kind: Kind) -> bool
        ensures { result ≡ is_awaited self.now.state kind }
    {
        match (self.state, kind) {
            (State::Idle, _) => false,
            (_, Kind::Notification) => true,
            (State::OpenSent, Kind::Open) => true,
            (State::OpenConfirm, Kind::KeepAlive) => true,
            (State::Established, Kind::Update | Kind::KeepAlive) => true,
            _ => false,
        }
    }

    /// No connection is there any more.
    fn stop(&mut self)
        ensures { self.new ≡ ended_by self.old }
    {
        *self = Session {
            state: State::Idle,
            hold: 0,
            ..*self
        };
    }

    /// The peer connected: an OPEN is said. Where a session is open, nothing happens.
    pub fn open(&mut self, now: Moment) -> Step
        ensures { (self.new, result) ≡ leads self.old now peer_opens }
    {
        if self.is_open() {
            return Step::Nothing;
        }
        self.state = State::OpenSent;
        self.hold = 0;
        self.heard = now;
        self.said = now;
        Step::Say(Said::Open(self.ours))
    }

    /// The peer's OPEN came: a KEEPALIVE is said, and the timers run by the smaller hold time.
    fn confirm(&mut self, hold: u16, now: Moment) -> Step
        ensures { (self.new, result) ≡ opens self.old now hold }
    {
        self.state = State::OpenConfirm;
        self.hold = self.ours.hold.min(hold);
        self.heard = now;
        self.said = now;
        Step::Say(Said::KeepAlive)
    }

    /// A message that was awaited came, and leads to this state.
    fn go_on(&mut self, state: State, now: Moment) -> Step
        ensures { (self.new, result) ≡ hears self.old now state }
    {
        self.state = state;
        self.heard = now;
        Step::Nothing
    }

    /// Something is wrong: a NOTIFICATION is said, and the session is over. Where none is open,
    /// nothing happens.
    pub fn refuse(&mut self, fault: Fault, now: Moment) -> Step
        ensures { (self.new, result) ≡ leads self.old now (fault_met fault) }
    {
        if !self.is_open() {
            return Step::Nothing;
        }
        self.stop();
        Step::Refuse(fault)
    }

    /// A message came that isn't a NOTIFICATION, where a session is open.
    fn hear_other(&mut self, message: &Message, now: Moment) -> Step
        ensures { (self.new, result) ≡ hears_kind self.old.state self.old now message.now }
    {
        match (self.state, message) {
            (State::OpenSent, Message::Open(opening)) => self.confirm(opening.hold, now),
            (State::OpenConfirm, Message::KeepAlive) => self.go_on(State::Established, now),
            (State::Established, Message::KeepAlive) => self.go_on(State::Established, now),
            (State::Established, Message::Update(_)) => self.go_on(State::Established, now),
            _ => {
                self.stop();
                Step::Refuse(Fault::FiniteStateMachineError)
            }
        }
    }

    /// A message came whole. One that isn't awaited is refused; a NOTIFICATION ends the session.
    /// Where none is open, nothing happens.
    pub fn hear(&mut self, message: &Message, now: Moment) -> Step
        ensures { (self.new, result) ≡ leads self.old now (peer_says message.now) }
    {
        if !self.is_open() {
            return Step::Nothing;
        }
        match message {
            Message::Notification(told) => {
                self.stop();
                Step::Told(*told)
            }
            _ => self.hear_other(message, now),
        }
    }

    /// A moment came. Where the hold time went by since the last message heard, the session is over
    /// with `HoldTimerExpired`; else, where a third of it went by since the last message said, a
    /// KEEPALIVE is said. Before the peer's OPEN, and with a hold time of 0, nothing happens.
    pub fn pass(&mut self, now: Moment) -> Step
        ensures { (self.new, result) ≡ leads self.old now moment_comes }
    {
        if !self.is_open() || self.hold == 0 {
            return Step::Nothing;
        }
        if is_over(self.hold, self.heard, now) {
            self.stop();
            return Step::Refuse(Fault::HoldTimerExpired);
        }
        if is_quiet(self.hold, self.said, now) {
            self.said = now;
            return Step::Say(Said::KeepAlive);
        }
        Step::Nothing
    }

    /// The connection ended.
    pub fn end(&mut self)
        ensures { (now : Moment) → self.new ≡ (leads self.old now link_ends).0 }
    {
        if self.is_open() {
            self.stop();
        }
    }
}
