ghost use Rattle.std.specs.Prelude.{◌≡◌, OnOk};
ghost use Rattle.bgp_messages.specs.declared.fault.Fault.TheVariants.{Cease};
ghost use Rattle.bgp_messages.specs.declared.said.Said.TheVariants.{Notification as Notifying};
ghost use Rattle.bgp_session.specs.Sessions.{peer_opens, peer_says, fault_met, moment_comes};
ghost use Rattle.bgp_peer.specs.Sayings.{sends};
ghost use Rattle.bgp_peer.specs.Peers.{begun_with, add, shut, refused, act, takes, opens, turned_away, lost, ticks, is_on};

use crate::saying::{BgpClosing, BgpSaying, BgpSayings, closing_for, refusal, send};
use bgp_messages::{Fault, Message, Said};
use bgp_routes::Routes;
use bgp_session::{Session, Step};
use fg_outside::EndCause;
use net_base::{Ip4, Moment, NoMemory};
use std::alloc::Global;

/// Between whom BGP is spoken: our AS, our BGP identifier, and the AS of the peer.
#[derive(Clone, Copy, Debug, PartialEq, Eq)]
pub struct Peering {
    pub our_as: u16,
    pub id: Ip4,
    pub peer_as: u16,
}

/// What is known of the peer: the session, its connection, the routes, the last moment, and what is said in
/// the present turn.
#[derive(Debug, Drop)]
pub(crate) struct Peer {
    pub peering: Peering,
    pub session: Session,
    pub conn: Option<u32>,
    pub routes: Routes,
    pub moment: Moment,
    pub said: BgpSayings,
}

impl Peer {
    /// Before the first connection.
    pub(crate) fn new(alloc: Global, peering: Peering) -> Peer
        ensures { result ≡ begun_with peering }
    {
        Peer {
            peering,
            session: Session::new(peering.our_as, peering.id.0),
            conn: None,
            routes: Routes::new(alloc),
            moment: Moment(0),
            said: BgpSayings::new(alloc),
        }
    }

    /// Whether this is the connection of the session.
    pub(crate) fn is_on(&self, conn: u32) -> bool
        ensures { result ≡ is_on conn self.now }
    {
        match self.conn {
            Some(open) => open == conn,
            None => false,
        }
    }

    /// A message is said on a connection.
    fn say(&mut self, alloc: Global, conn: u32, said: &Said) -> Result<(), NoMemory>
        ensures { OnOk result (self.new ≡ add (sends conn said.now) self.old) }
    {
        let saying = send(alloc, conn, said)?;
        self.said.push(saying)
    }

    /// The connection of the session is closed, and the routes go.
    fn shut(&mut self, conn: u32, cause: BgpClosing) -> Result<(), NoMemory>
        ensures { OnOk result (self.new ≡ shut conn cause self.old) }
    {
        self.conn = None;
        self.routes.clear();
        self.said.push(BgpSaying::Close { conn, cause })
    }

    /// A NOTIFICATION is said, and the connection of the session is closed.
    fn say_refusal(&mut self, alloc: Global, conn: u32, fault: Fault) -> Result<(), NoMemory>
        ensures { OnOk result (self.new ≡ refused conn fault self.old) }
    {
        self.say(alloc, conn, &Said::Notification(fault))?;
        self.shut(conn, refusal(fault))
    }

    /// Does on the connection what a step of the session leads to.
    fn act(&mut self, alloc: Global, conn: u32, step: Step) -> Result<(), NoMemory>
        ensures { OnOk result (self.new ≡ act conn step self.old) }
    {
        match step {
            Step::Nothing => Ok(()),
            Step::Say(said) => self.say(alloc, conn, &said),
            Step::Refuse(fault) => self.say_refusal(alloc, conn, fault),
            Step::Told(told) => self.shut(
                conn,
                BgpClosing::Heard {
                    code: told.code,
                    sub: told.subcode,
                },
            ),
        }
    }

    /// The peer connected, where no connection was there.
    pub(crate) fn open(&mut self, alloc: Global, conn: u32) -> Result<(), NoMemory>
        ensures { OnOk result (self.new ≡ opens conn self.old) }
    {
        self.conn = Some(conn);
        let step = self.session.open(self.moment);
        self.act(alloc, conn, step)
    }

    /// A message came that was awaited.
    pub(crate) fn hear(
        &mut self,
        alloc: Global,
        conn: u32,
        message: &Message,
    ) -> Result<(), NoMemory>
        ensures { OnOk result (self.new ≡ takes conn (peer_says message.now) self.old) }
    {
        let step = self.session.hear(message, self.moment);
        self.act(alloc, conn, step)
    }

    /// Something is wrong with what came.
    pub(crate) fn refuse(&mut self, alloc: Global, conn: u32, fault: Fault) -> Result<(), NoMemory>
        ensures { OnOk result (self.new ≡ takes conn (fault_met fault) self.old) }
    {
        let step = self.session.refuse(fault, self.moment);
        self.act(alloc, conn, step)
    }

    /// The timers are looked at.
    pub(crate) fn tick(&mut self, alloc: Global) -> Result<(), NoMemory>
        ensures { OnOk result (self.new ≡ ticks self.old) }
    {
        let Some(conn) = self.conn else {
            return Ok(());
        };
        let step = self.session.pass(self.moment);
        self.act(alloc, conn, step)
    }

    /// A further connection is refused by a NOTIFICATION of `Cease`.
    pub(crate) fn turn_away(&mut self, alloc: Global, conn: u32) -> Result<(), NoMemory>
        ensures { OnOk result (self.new ≡ turned_away conn self.old) }
    {
        self.say(alloc, conn, &Said::Notification(Fault::Cease))?;
        let cause = refusal(Fault::Cease);
        self.said.push(BgpSaying::Close { conn, cause })
    }

    /// The connection of the session ended.
    pub(crate) fn lose(&mut self, conn: u32, cause: EndCause) -> Result<(), NoMemory>
        ensures { OnOk result (self.new ≡ lost conn cause self.old) }
    {
        self.session.end();
        self.shut(conn, closing_for(cause))
    }
}
