ghost use Rattle.std.specs.Prelude.{◌≡◌, ◌+◌, length, true};
ghost use Rattle.bgp_messages.specs.Kinds.{is_length};
ghost use Rattle.bgp_messages.specs.Messages.{kind_of_message, told_in, Answers};

use crate::fault::Refused;
use crate::kind::Kind;
use crate::number::u8_at;
use crate::opening::read_open;
use crate::path::Numbers;
use crate::prefixes::Prefixes;
use crate::update::read_update;
use net_base::Ip4;
use std::alloc::Global;

/// An OPEN (RFC 4271, 4.2) without its parameters: the sender's AS, its hold time in seconds, its
/// BGP identifier.
#[derive(Clone, Copy, Debug, PartialEq, Eq)]
pub struct Open {
    pub sender_as: u16,
    pub hold: u16,
    pub id: u32,
}

/// An UPDATE (RFC 4271, 4.3), as far as a set of routes depends on it: the withdrawn networks, the
/// numbers in the AS_PATH (none where there is no AS_PATH), the NEXT_HOP (0 where there is none), and
/// the announced networks. Networks have their host bits as they came.
#[derive(Debug, Drop)]
pub struct Update {
    pub withdrawn: Prefixes,
    pub path: Numbers,
    pub next_hop: Ip4,
    pub announced: Prefixes,
}

/// A NOTIFICATION (RFC 4271, 4.5) without its data.
#[derive(Clone, Copy, Debug, PartialEq, Eq)]
pub struct Notification {
    pub code: u8,
    pub subcode: u8,
}

/// A message that is heard.
#[derive(Debug, Drop)]
pub enum Message {
    Open(Open),
    Update(Update),
    Notification(Notification),
    KeepAlive,
}

impl Message {
    /// The type of the message.
    pub fn kind(&self) -> Kind
        ensures { result ≡ kind_of_message self.now }
    {
        match self {
            Message::Open(_) => Kind::Open,
            Message::Update(_) => Kind::Update,
            Message::Notification(_) => Kind::Notification,
            Message::KeepAlive => Kind::KeepAlive,
        }
    }
}

/// Reads what stands behind the header of a message of this type, said by a peer of this AS. It is
/// the message that is spelled, or the first thing that is wrong (RFC 4271, 6.2 and 6.3). The length
/// is one that the type has, as `front_of` tells.
pub fn read_body(alloc: Global, peer: u16, kind: Kind, body: &[u8]) -> Result<Message, Refused>
    requires { is_length kind (19 + length body.now) ≡ true }
    ensures { Answers peer kind body.now result }
{
    match kind {
        Kind::Open => match read_open(peer, body) {
            Ok(opening) => Ok(Message::Open(opening)),
            Err(fault) => Err(Refused::Fault(fault)),
        },
        Kind::Update => match read_update(alloc, body) {
            Ok(update) => Ok(Message::Update(update)),
            Err(refused) => Err(refused),
        },
        Kind::Notification => Ok(Message::Notification(Notification {
            code: u8_at(body, 0),
            subcode: u8_at(body, 1),
        })),
        Kind::KeepAlive => Ok(Message::KeepAlive),
    }
}
