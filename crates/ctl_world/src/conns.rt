ghost use Rattle.std.specs.Prelude.{◌≡◌, ◌≤◌, ◌<◌, true, [], Some, length, position, nat_lt, IfOk, IfSome, IsTrue, OnOk, OnErr};
ghost use Rattle.std.specs.List.{AllByRecursion};
ghost use Rattle.std.specs.Option.{option_copied, option_map, option_map_or};
ghost use Rattle.switch_session.specs.declared.quiet.Quiet.TheVariants.{Well};
ghost use Rattle.switch_session.specs.declared.state.Step.TheVariants.{Nothing};
ghost use Rattle.switch_session.specs.Connections.{due_at, next_id};
ghost use Rattle.switch_session.specs.Stages.{leads};
ghost use Rattle.switch_session.specs.Staying.{leaves};
ghost use Rattle.ctl_world.specs.Connections.{change, conn_of, conn_with, has_number, is_of, is_open, put, upper_bound, with_asked, with_dp, with_fed, with_heard, with_looked, with_said, with_sent, without};
ghost use Rattle.ctl_world.specs.Firsts.{AreFrom, AreInOrder, is_begun, lower_bound};

use crate::firsts::{Firsts, first_number, leave, note, note_any};
use crate::sent::Sent;
use net_base::{DpId, Moment, NoMemory};
use of13_codec::Message;
use std::alloc::Global;
use std::marker::Model;
use switch_session::{Quiet, Session, Step};

/// An open connection.
#[derive(Drop)]
pub struct Conn {
    pub number: u32,
    pub session: Session,
    /// The datapath that the switch said to be, once that was accepted.
    pub dp: Option<DpId>,
    /// The entries that the switch holds once it has done all that was said since its tables were wiped.
    pub sent: Sent,
}

/// The open connections, by number. Contracts see the list.
#[derive(Drop)]
pub struct Conns {
    pub(crate) conns: Vec<Conn>,
    firsts: Option<Firsts>,
}

impl Model for Conns {
    ghost use Rattle.std.specs.Prelude.{List};
    ghost use Rattle.ctl_world.specs.declared.conns.Conn.{Conn};
    ghost use Rattle.ctl_world.specs.Firsts.{AreKept};

    ghost Value = { List Conn };

    ghost view = { λ it. it.conns.items };

    ghost invariant = { λ it. AreKept it.conns.items it.firsts };
}

/// How many connections stand before the first one that has no smaller number.
fn lower_bound(conns: &[Conn], number: u32) -> usize
    requires { AreInOrder conns.now }
    ensures within { result ≤ length conns.now }
    ensures bound { result ≡ lower_bound number conns.now }
{
    conns.partition_point(|conn| conn.number < number)
}

/// Where a connection goes by its number: the place of the first that has a greater one, and of none the end.
fn upper_bound(conns: &[Conn], number: u32) -> usize
    requires { AreInOrder conns.now }
    ensures within { result ≤ length conns.now }
    ensures bound { result ≡ upper_bound number conns.now }
{
    conns.partition_point(|conn| conn.number <= number)
}

pub(crate) fn place(conns: &[Conn], number: u32) -> Option<usize>
    requires { AreInOrder conns.now }
    ensures place { result ≡ position (has_number number) conns.now }
    ensures within { IfSome result (λ at. at < length conns.now) }
{
    let at = lower_bound(conns, number);
    if at < conns.len() && conns[at].number == number {
        Some(at)
    } else {
        None
    }
}

fn is_of(conn: &Conn, dp: DpId) -> bool
    ensures { result ≡ is_of dp conn.now }
{
    match conn.dp {
        Some(id) => id == dp,
        None => false,
    }
}

fn first_of(conns: &[Conn], dp: DpId) -> Option<&Conn>
    ensures { option_copied result ≡ conn_of conns.now dp }
{
    conns.iter().find(|conn| is_of(conn, dp))
}

/// The connection of a datapath, whose connections have no smaller numbers than this one.
fn first_from(conns: &[Conn], dp: DpId, number: u32) -> Option<&Conn>
    requires order { AreInOrder conns.now }
    requires from { AreFrom dp number conns.now }
    ensures { option_copied result ≡ conn_of conns.now dp }
{
    let at = lower_bound(conns, number);
    first_of(&conns[at..], dp)
}

/// Finds anew from which number on the connections of a datapath stand.
fn begin_anew(firsts: &mut Option<Firsts>, conns: &[Conn], dp: DpId)
    requires order { AreInOrder conns.now }
    requires begun { AllByRecursion (λ c. is_begun firsts.old c ≡ true) conns.now }
    ensures { AllByRecursion (λ c. is_begun firsts.new c ≡ true) conns.now }
{
    leave(firsts, dp);
    if let Some(conn) = first_of(conns, dp) {
        note(firsts, dp, conn.number);
    }
}

impl Conns {
    /// None.
    pub fn new(alloc: Global) -> Conns
        ensures { result ≡ [] }
    {
        Conns {
            conns: Vec::new(alloc),
            firsts: Some(Firsts::new(alloc)),
        }
    }

    /// The connections, by number.
    pub fn as_slice(&self) -> &[Conn]
        ensures { result.now ≡ self.now }
    {
        self.conns.as_slice()
    }

    /// Whether the connection with this number is open.
    pub fn is_open(&self, number: u32) -> bool
        ensures { result ≡ is_open self.now number }
    {
        match self.get(number) {
            Some(_) => true,
            None => false,
        }
    }

    /// The connection with this number; `None` exactly where it isn't open.
    pub fn get(&self, number: u32) -> Option<&Conn>
        ensures { option_copied result ≡ conn_with self.now number }
    {
        match place(self.conns.as_slice(), number) {
            Some(at) => Some(&self.conns[at]),
            None => None,
        }
    }

    /// The connection of a datapath; `None` exactly where it has none.
    pub fn of(&self, dp: DpId) -> Option<&Conn>
        ensures { option_copied result ≡ conn_of self.now dp }
    {
        match first_number(&self.firsts, dp) {
            Some(number) => first_from(self.conns.as_slice(), dp, number),
            None => None,
        }
    }
}

fn remove_from(conns: &mut Vec<Conn>, number: u32)
    ensures { conns.new.items ≡ without number conns.old.items }
{
    conns.retain(|conn| conn.number != number);
}

impl Conns {
    /// Puts in a connection, in the order of their numbers. After `NoMemory` they are as they were, and
    /// the connection is gone.
    pub fn put(&mut self, conn: Conn) -> Result<(), NoMemory>
        ensures ok { OnOk result (self.new ≡ put conn self.old) }
        ensures err { OnErr result (self.new ≡ self.old) }
    {
        let number = conn.number;
        let dp = conn.dp;
        let at = upper_bound(self.conns.as_slice(), number);
        self.conns.insert(at, conn)?;
        note_any(&mut self.firsts, dp, number);
        Ok(())
    }

    /// Takes out the connection with this number.
    pub fn remove(&mut self, number: u32)
        ensures { self.new ≡ without number self.old }
    {
        let Some(at) = place(self.conns.as_slice(), number) else {
            return;
        };
        let dp = self.conns[at].dp;
        remove_from(&mut self.conns, number);
        if let Some(dp) = dp {
            begin_anew(&mut self.firsts, self.conns.as_slice(), dp);
        }
    }

    /// The transaction id of the next message on a connection; `None` exactly where it isn't open.
    pub fn next_xid(&mut self, number: u32) -> Option<u32>
        ensures xid { result ≡ option_map (λ c. next_id c.session.last_xid) (conn_with self.old number) }
        ensures noted { self.new ≡ change number with_said self.old }
    {
        let at = place(self.conns.as_slice(), number)?;
        Some(self.conns[at].session.next_xid())
    }

    /// The same of a message whose reply is awaited.
    pub fn ask_xid(&mut self, number: u32) -> Option<u32>
        ensures xid { result ≡ option_map (λ c. next_id c.session.last_xid) (conn_with self.old number) }
        ensures noted { self.new ≡ change number with_asked self.old }
    {
        let at = place(self.conns.as_slice(), number)?;
        let conn = &mut self.conns[at];
        let xid = conn.session.next_xid();
        conn.session.asked(xid);
        Some(xid)
    }

    /// Bytes came on a connection at this moment.
    pub fn feed(&mut self, number: u32, piece: &[u8], now: Moment) -> Result<(), NoMemory>
        ensures { OnOk result (self.new ≡ change number (with_fed piece.now now) self.old) }
    {
        let Some(at) = place(self.conns.as_slice(), number) else {
            return Ok(());
        };
        self.conns[at].session.feed(piece, now)
    }

    /// A connection heard a message: what that did.
    pub fn hear(&mut self, number: u32, message: &Message, xid: u32) -> Result<Step, NoMemory>
        ensures step { IfOk result (λ step. step ≡ option_map_or (λ c. (leads c.session.state message.now xid).1) (conn_with self.old number) Nothing) }
        ensures noted { OnOk result (self.new ≡ change number (with_heard message.now xid) self.old) }
    {
        let Some(at) = place(self.conns.as_slice(), number) else {
            return Ok(Step::Nothing);
        };
        self.conns[at].session.hear(message, xid)
    }

    /// Whether hearing a message leaves the stage of a connection, what it awaits and the ports that it told
    /// as they are. Of some that do, as an ERROR on a connection that was closed, the answer is `false`.
    pub fn stays(&self, number: u32, message: &Message, xid: u32) -> bool
        ensures left { IsTrue result → (c : Conn) → conn_with self.now number ≡ Some c → (leads c.session.state message.now xid).0 ≡ c.session.state }
        ensures exact { result ≡ option_map_or (λ c. leaves c.session.state message.now xid) (conn_with self.now number) true }
    {
        match self.get(number) {
            Some(conn) => conn.session.stays(message, xid),
            None => true,
        }
    }

    /// What is due on a connection at this moment, where it was quiet.
    pub fn look(&mut self, number: u32, now: Moment) -> Quiet
        ensures due { result ≡ option_map_or (λ c. due_at c.session now) (conn_with self.old number) Well }
        ensures noted { self.new ≡ change number (with_looked now) self.old }
    {
        match place(self.conns.as_slice(), number) {
            Some(at) => self.conns[at].session.quiet(now),
            None => Quiet::Well,
        }
    }

    /// The switch of a connection is this datapath.
    pub fn set_dp(&mut self, number: u32, dp: DpId)
        ensures { self.new ≡ change number (with_dp dp) self.old }
    {
        if let Some(at) = place(self.conns.as_slice(), number) {
            let conn = &mut self.conns[at];
            conn.dp = Some(dp);
            let number = conn.number;
            note(&mut self.firsts, dp, number);
        }
    }

    /// The switch of a connection holds these entries once it has done all that was said.
    pub fn set_sent(&mut self, number: u32, sent: Sent)
        ensures { self.new ≡ change number (with_sent sent) self.old }
    {
        if let Some(at) = place(self.conns.as_slice(), number) {
            self.conns[at].sent = sent;
        }
    }
}
