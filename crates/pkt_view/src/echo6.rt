ghost use Rattle.std.specs.Prelude.{◌≡◌, ◌≤◌, length, IsTrue, IfOk};
ghost use Rattle.pkt_view.specs.Replies.{payload_len, source6, destination6, carries_icmp6, message_in, is_echo6_request, echo6_frame, echo6_upper};

use crate::bytes::u16_at;
use crate::icmp6::{Ends, ICMPV6, checksum6, frame6};
use net_base::{Bytes, Mac, NoMemory};
use std::alloc::Global;

/// The longest message that is answered.
const LONGEST: usize = 65_400;

// The types of the messages (RFC 4443, 4.1 and 4.2).
const REQUEST: u8 = 128;

const REPLY: u8 = 129;

const HOPS: u8 = 64;

// Whether a whole message of ICMPv6 lies behind the header.
#[tactic(auto, unfolding(crate::specs::Replies::carries_icmp6))]
fn carries_icmp6(header: &[u8], body: &[u8]) -> bool
    ensures value { result ≡ carries_icmp6 header.now body.now }
    ensures header { IsTrue result → length header.now ≡ 40 }
    ensures least { IsTrue result → 8 ≤ payload_len header.now }
    ensures within { IsTrue result → payload_len header.now ≤ length body.now }
    ensures most { IsTrue result → payload_len header.now ≤ 65400 }
{
    if header.len() != 40 {
        return false;
    }
    let len = u16_at(header, 4) as usize;
    header[6] == ICMPV6 && len >= 8 && len <= body.len() && len <= LONGEST
}

// Source and destination of a header.
fn ends_of(header: &[u8]) -> Ends<'_>
    requires { length header.now ≡ 40 }
    ensures source { result.source.now ≡ source6 header.now }
    ensures destination { result.destination.now ≡ destination6 header.now }
{
    Ends {
        source: &header[8..24],
        destination: &header[24..40],
    }
}

// Whether it is an echo request of code 0 with a right checksum.
#[tactic(auto, unfolding(crate::specs::Replies::is_echo6_request))]
fn is_echo6_request(alloc: Global, header: &[u8], message: &[u8]) -> Result<bool, NoMemory>
    requires header { length header.now ≡ 40 }
    requires least { 8 ≤ length message.now }
    requires most { length message.now ≤ 65400 }
    ensures { IfOk result (λ is. is ≡ is_echo6_request header.now message.now) }
{
    if message[0] != REQUEST || message[1] != 0 {
        return Ok(false);
    }
    Ok(checksum6(alloc, &ends_of(header), message)? == 0)
}

// The frame that answers a message.
fn echo6_frame(
    alloc: Global,
    src: Mac,
    dst: Mac,
    header: &[u8],
    message: &[u8],
) -> Result<Bytes, NoMemory>
    requires header { length header.now ≡ 40 }
    requires least { 8 ≤ length message.now }
    requires most { length message.now ≤ 65400 }
    ensures { IfOk result (λ frame. frame ≡ echo6_frame src dst header.now message.now) }
{
    let asked = ends_of(header);
    let ends = Ends {
        source: asked.destination,
        destination: asked.source,
    };
    frame6(alloc, dst, src, &ends, HOPS, REPLY, &message[4..])
}

/// The frame that answers an ICMPv6 echo request, sent from `src` to `dst`; `None` exactly where no answer
/// is due to what lies behind an IPv6 header, or `dst` is a group address.
pub(crate) fn echo6_reply(
    alloc: Global,
    src: Mac,
    dst: Mac,
    header: &[u8],
    body: &[u8],
) -> Result<Option<Bytes>, NoMemory>
    ensures { IfOk result (λ frame. frame ≡ echo6_upper src dst header.now body.now) }
{
    if dst.is_group() || !carries_icmp6(header, body) {
        return Ok(None);
    }
    let message = &body[..u16_at(header, 4) as usize];
    if !is_echo6_request(alloc, header, message)? {
        return Ok(None);
    }
    Ok(Some(echo6_frame(alloc, src, dst, header, message)?))
}
