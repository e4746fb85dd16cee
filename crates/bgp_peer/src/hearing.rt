//! What the bytes that came say.

ghost use Rattle.std.specs.Prelude.{◌≡◌, ◌≤◌, ◌+◌, length, drop, true, OnOk, IfOk, IfSome, IfNone};
ghost use Rattle.bgp_messages.specs.Decoding.{decoded};
ghost use Rattle.bgp_messages.specs.Kinds.{is_length};
ghost use Rattle.bgp_peer.specs.Peers.{hears_message, hears_body};
ghost use Rattle.bgp_peer.specs.Turns.{known, hear_next, hear_each};

use crate::peer::Peer;
use bgp_messages::{Fault, Front, HEADER, Kind, Message, Refused, front_of, read_body};
use bgp_routes::RoutesRefused;
use net_base::{Bytes, NoMemory};
use std::alloc::{AllocError, Global};

/// What the body of a message of this type says, or what is wrong with it.
fn decode(
    alloc: Global,
    peer: u16,
    kind: Kind,
    body: &[u8],
) -> Result<Result<Message, Fault>, NoMemory>
    requires { is_length kind (19 + length body.now) ≡ true }
    ensures { IfOk result (λ told. told ≡ decoded peer kind body.now) }
{
    match read_body(alloc, peer, kind, body) {
        Ok(message) => Ok(Ok(message)),
        Err(Refused::Fault(fault)) => Ok(Err(fault)),
        Err(Refused::Memory) => Err(AllocError),
    }
}

impl Peer {
    /// Hears a message that was awaited. The routes of an UPDATE are taken, unless they would be too many.
    fn hear_message(&mut self, alloc: Global, conn: u32, message: &Message) -> Result<(), NoMemory>
        ensures { OnOk result (self.new ≡ hears_message conn message.now self.old) }
    {
        let Message::Update(update) = message else {
            return self.hear(alloc, conn, message);
        };
        match self.routes.take(alloc, self.peering.our_as, update) {
            Ok(()) => self.hear(alloc, conn, message),
            Err(RoutesRefused::TooMany) => self.refuse(alloc, conn, Fault::Cease),
            Err(RoutesRefused::Memory) => Err(AllocError),
        }
    }

    /// Hears a message of this type that came whole.
    fn hear_body(
        &mut self,
        alloc: Global,
        conn: u32,
        kind: Kind,
        body: &[u8],
    ) -> Result<(), NoMemory>
        requires { is_length kind (19 + length body.now) ≡ true }
        ensures { OnOk result (self.new ≡ hears_body conn kind body.now self.old) }
    {
        if !self.session.awaits(kind) {
            return self.refuse(alloc, conn, Fault::FiniteStateMachineError);
        }
        match decode(alloc, self.peering.peer_as, kind, body)? {
            Ok(message) => self.hear_message(alloc, conn, &message),
            Err(fault) => self.refuse(alloc, conn, fault),
        }
    }

    /// Hears what stands at the front of the bytes that came, and tells how many of them it took; `None` where
    /// there is nothing to be heard.
    fn hear_next(&mut self, alloc: Global, unread: &[u8]) -> Result<Option<usize>, NoMemory>
        ensures heard { IfOk result (λ taken. IfSome taken (λ n. hear_next (known self.old unread.now) ≡ known self.new (drop n unread.now))) }
        ensures within { IfOk result (λ taken. IfSome taken (λ n. n ≤ length unread.now)) }
        ensures none { IfOk result (λ taken. IfNone taken (hear_next (known self.old unread.now) ≡ known self.old unread.now)) }
        ensures same { IfOk result (λ taken. IfNone taken (self.new ≡ self.old)) }
    {
        let Some(conn) = self.conn else {
            return Ok(None);
        };
        match front_of(unread) {
            Front::NotYet => Ok(None),
            Front::Refused(fault) => {
                self.refuse(alloc, conn, fault)?;
                Ok(Some(0))
            }
            Front::Whole(head) => {
                let len = usize::from(head.len);
                let (message, _) = unread.split_at(len);
                let (_, body) = message.split_at(HEADER);
                self.hear_body(alloc, conn, head.kind, body)?;
                Ok(Some(len))
            }
        }
    }

    /// Hears the messages in the bytes that came, and gives what is left behind them.
    pub(crate) fn hear_all(&mut self, alloc: Global, unread: &[u8]) -> Result<Bytes, NoMemory>
        ensures { IfOk result (λ left. known self.new left ≡ hear_each (length unread.now) (known self.old unread.now)) }
    {
        let mut rest = unread;
        for _ in 0..unread.len() {
            let Some(taken) = self.hear_next(alloc, rest)? else {
                return Bytes::from_slice(alloc, rest);
            };
            let (_, after) = rest.split_at(taken);
            rest = after;
        }
        Bytes::from_slice(alloc, rest)
    }
}
