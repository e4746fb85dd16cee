//! Neighbour discovery: which solicitations and advertisements count, and what they tell (RFC 4861).

ghost use Rattle.std.specs.Prelude.{◌≡◌, ◌==◌, ◌≤◌, ◌<◌, drop, length, slice_index, sum, IsTrue};
ghost use Rattle.conf_types.specs.Lists.{is_same};
ghost use Rattle.pkt_view.specs.Checksum.{ones_complement, words};
ghost use Rattle.pkt_view.specs.Replies.{checksum6, destination6, payload_len, source6};
ghost use Rattle.neighbour_resolve.specs.Discovery.{carries_discovery, first_len, is_discovery, may_stand, nd_message, options_tell, told_in, told_option, who};

use conf_types::Ip;
use net_base::{Ip6, Mac};
use pkt_view::{checksum, ip6_at, u16_at};

/// The next header of ICMPv6 (RFC 4443, 1).
const ICMPV6: u8 = 58;

/// The hop limit of a message that no router passed on.
const HOPS: u8 = 255;

/// The shortest message: type, code, checksum, four bytes, and the target.
const SHORTEST: usize = 24;

/// The types of the messages.
pub(crate) const SOLICITATION: u8 = 135;

const ADVERTISEMENT: u8 = 136;

/// A solicitation or an advertisement that counts.
#[derive(Clone, Copy, Debug, PartialEq, Eq)]
pub(crate) struct NdMessage {
    /// Its type, 135 or 136.
    pub kind: u8,
    /// The address that the packet is from.
    pub source: Ip6,
    pub target: Ip6,
    /// Whether the Ethernet address of who is known by it, where it tells that, is the frame's source.
    pub is_own: bool,
}

impl NdMessage {
    /// Who is known by it: the source of a solicitation, the target of an advertisement.
    pub(crate) fn who(self) -> Ip
        ensures { result ≡ who self }
    {
        if self.kind == SOLICITATION {
            Ip::V6(self.source)
        } else {
            Ip::V6(self.target)
        }
    }
}

pub(crate) fn is_same(a: Mac, b: Mac) -> bool
    ensures { result ≡ is_same a.0 b.0 }
{
    a.0.cmp(&b.0).is_eq()
}

/// Whether a whole message that no router passed on lies behind the header.
#[tactic(auto, unfolding(crate::specs::Discovery::carries_discovery))]
fn carries_discovery(header: &[u8], body: &[u8]) -> bool
    ensures value { result ≡ carries_discovery header.now body.now }
    ensures header { IsTrue result → length header.now ≡ 40 }
    ensures least { IsTrue result → 24 ≤ payload_len header.now }
    ensures within { IsTrue result → payload_len header.now ≤ length body.now }
{
    if header.len() != 40 {
        return false;
    }
    let len = u16_at(header, 4) as usize;
    header[6] == ICMPV6 && header[7] == HOPS && len >= SHORTEST && len <= body.len()
}

/// The one's complement sum of the words of some bytes (RFC 1071, 1).
fn word_sum(bytes: &[u8]) -> u32
    ensures sum { result ≡ ones_complement (sum (words bytes.now)) }
    ensures most { result ≤ 65535 }
{
    u32::from(0xffff - checksum(bytes))
}

/// Whether the checksum of a message is right, over its addresses, its length and its protocol too
/// (RFC 4443, 2.3).
fn is_summed(header: &[u8], message: &[u8]) -> bool
    requires header { length header.now ≡ 40 }
    requires most { length message.now ≤ 65535 }
    ensures { result ≡ (checksum6 (source6 header.now) (destination6 header.now) message.now == 0) }
{
    let addresses = word_sum(&header[8..40]);
    let sum = addresses + message.len() as u32 + u32::from(ICMPV6) + word_sum(message);
    sum % 0xffff == 0
}

/// Whether it is a solicitation or an advertisement of code 0 with a right checksum.
#[tactic(auto, unfolding(crate::specs::Discovery::is_discovery))]
fn is_discovery(header: &[u8], message: &[u8]) -> bool
    requires header { length header.now ≡ 40 }
    requires least { 24 ≤ length message.now }
    requires most { length message.now ≤ 65535 }
    ensures { result ≡ is_discovery header.now message.now }
{
    (message[0] == SOLICITATION || message[0] == ADVERTISEMENT)
        && message[1] == 0
        && is_summed(header, message)
}

/// The type of the option that tells the Ethernet address of who is known by a message (RFC 4861, 4.6.1).
fn told_option(kind: u8) -> u8
    ensures { result ≡ told_option kind }
{
    if kind == SOLICITATION { 1 } else { 2 }
}

/// How long the first option is; `None` exactly where its length is 0 or it doesn't lie inside.
fn first_len(options: &[u8]) -> Option<usize>
    ensures { result ≡ first_len options.now }
{
    if options.len() < 2 {
        return None;
    }
    let len = 8 * options[1] as usize;
    if len == 0 || len > options.len() {
        None
    } else {
        Some(len)
    }
}

/// Whether the first option may stand there: one of this type has to begin with this Ethernet address.
fn may_stand(asked: u8, mac: Mac, options: &[u8]) -> bool
    requires { 8 ≤ length options.now }
    ensures { result ≡ may_stand asked mac.0 (slice_index options.now 0) (drop 2 options.now) }
{
    let mut told = [0u8; 6];
    told.copy_from_slice(&options[2..8]);
    options[0] != asked || is_same(Mac(told), mac)
}

/// Whether each option may stand there; `None` exactly where one has a length of 0 or doesn't lie inside.
fn options_tell(asked: u8, mac: Mac, options: &[u8]) -> Option<bool>
    ensures { result ≡ options_tell asked mac.0 options.now 0 }
{
    let mut at = 0;
    let mut own = true;
    while at < options.len() {
        let rest = &options[at..];
        let Some(len) = first_len(rest) else {
            return None;
        };
        own = own && may_stand(asked, mac, rest);
        at += len;
    }
    Some(own)
}

fn told_in(from: Mac, header: &[u8], message: &[u8]) -> Option<NdMessage>
    requires header { length header.now ≡ 40 }
    requires least { 24 ≤ length message.now }
    ensures { result ≡ told_in from header.now message.now }
{
    let kind = message[0];
    let is_own = options_tell(told_option(kind), from, &message[24..])?;
    Some(NdMessage {
        kind,
        source: ip6_at(header, 8),
        target: ip6_at(message, 8),
        is_own,
    })
}

/// The message behind a header of IPv6, in a frame from an Ethernet address; `None` exactly where there is
/// none that counts: a solicitation or an advertisement of code 0 with hop limit 255 and a right checksum, whole
/// with at least 24 bytes, and with options of which each has a length that isn't 0 and lies inside.
pub(crate) fn nd_message(from: Mac, header: &[u8], body: &[u8]) -> Option<NdMessage>
    ensures { result ≡ nd_message from header.now body.now }
{
    if !carries_discovery(header, body) {
        return None;
    }
    let message = &body[..u16_at(header, 4) as usize];
    if !is_discovery(header, message) {
        return None;
    }
    told_in(from, header, message)
}
