ghost use Rattle.std.specs.Prelude.{◌≡◌, ◌≤◌, length};
ghost use Rattle.bgp_messages.specs.Heads.{is_marked, length_in, kind_in, is_out_of_range, typed_head, head_of, front_with, front_of};

use crate::fault::Fault;
use crate::kind::Kind;
use crate::number::{u8_at, u16_at};

/// How many bytes a header has (RFC 4271, 4.1).
pub const HEADER: usize = 19;

/// The most bytes that a message has, its header among them.
pub const LONGEST: u16 = 4096;

/// What a header tells: the type, and the length of the whole message in bytes.
#[derive(Clone, Copy, Debug, PartialEq, Eq)]
pub struct Head {
    pub kind: Kind,
    pub len: u16,
}

/// What stands at the front of the bytes that came.
#[derive(Clone, Copy, Debug, PartialEq, Eq)]
pub enum Front {
    /// Less than a header, or less than the message of which it tells.
    NotYet,
    /// A header with this fault.
    Refused(Fault),
    /// A message of which all bytes came. Its body may still be wrong.
    Whole(Head),
}

fn is_marked(bytes: &[u8]) -> bool
    requires { 16 ≤ length bytes.now }
    ensures { result ≡ is_marked bytes.now }
{
    bytes[..16].iter().all(|b| *b == 255)
}

/// The header of a message of this length, by the type that it tells.
fn typed_head(len: u16, kind: Option<Kind>) -> Result<Head, Fault>
    ensures { result ≡ typed_head len kind }
{
    match kind {
        None => Err(Fault::BadMessageType),
        Some(kind) if kind.may_have(len) => Ok(Head { kind, len }),
        Some(_) => Err(Fault::BadMessageLength),
    }
}

fn head_of(bytes: &[u8]) -> Result<Head, Fault>
    requires { 19 ≤ length bytes.now }
    ensures { result ≡ head_of bytes.now }
{
    if !is_marked(bytes) {
        return Err(Fault::ConnectionNotSynchronized);
    }
    let len = u16_at(bytes, 16);
    if len < HEADER as u16 || len > LONGEST {
        return Err(Fault::BadMessageLength);
    }
    typed_head(len, Kind::of_number(u8_at(bytes, 18)))
}

/// What stands at the front of a stream of messages. A header is judged as soon as its 19 bytes
/// came: its marker first, then its length, then its type (RFC 4271, 6.1).
pub fn front_of(unread: &[u8]) -> Front
    ensures { result ≡ front_of unread.now }
{
    if unread.len() < HEADER {
        return Front::NotYet;
    }
    match head_of(unread) {
        Err(fault) => Front::Refused(fault),
        Ok(head) if unread.len() < usize::from(head.len) => Front::NotYet,
        Ok(head) => Front::Whole(head),
    }
}
