ghost use Rattle.std.specs.Prelude.{◌≡◌, ◌+◌, ◌≤◌, ◌<◌, ◌^◌, ◌++◌, length, IsTrue, IfOk, OnOk};
ghost use Rattle.pkt_view.specs.Frame.{shown};
ghost use Rattle.pkt_view.specs.Replies.{total_len, carries_icmp, icmp_of, is_echo_request, is_echo_due, with_checksum, reply_header, reply_icmp, echo_frame, echo4_upper, echo_reply};

use crate::bytes::{put_u16, u16_at};
use crate::echo6::echo6_reply;
use crate::frame::{FrameView, UpperView};
use crate::sum::checksum;
use net_base::{Bytes, Mac, NoMemory};
use of_match::ether_type::IPV4;
use std::alloc::Global;

/// The longest IPv4 packet that is answered.
const LONGEST: usize = 65_400;

// Version 4, and a header of five words (RFC 791, 3.1).
const VERSION_AND_LENGTH: u8 = 0x45;

const TTL: u8 = 64;

const ICMP: u8 = 1;

// Whether a whole ICMP packet lies under the header, which is no fragment's and has a right checksum.
#[tactic(auto, unfolding(crate::specs::Replies::carries_icmp))]
fn carries_icmp(header: &[u8], body: &[u8]) -> bool
    ensures value { result ≡ carries_icmp header.now body.now }
    ensures fixed { IsTrue result → 20 ≤ length header.now }
    ensures least { IsTrue result → length header.now + 8 ≤ total_len header.now }
    ensures within { IsTrue result → total_len header.now ≤ length header.now + length body.now }
    ensures most { IsTrue result → total_len header.now ≤ 65400 }
{
    if header.len() < 20 {
        return false;
    }
    let total_len = u16_at(header, 2) as usize;
    header[9] == ICMP
        && u16_at(header, 6) % 0x4000 == 0
        && total_len >= 8
        && header.len() <= total_len - 8
        && total_len - header.len() <= body.len()
        && total_len <= LONGEST
        && checksum(header) == 0
}

// Whether it is an echo request of code 0 with a right checksum (RFC 792).
#[tactic(auto, unfolding(crate::specs::Replies::is_echo_request))]
fn is_echo_request(icmp: &[u8]) -> bool
    requires { 8 ≤ length icmp.now }
    ensures { result ≡ is_echo_request icmp.now }
{
    icmp[0] == 8 && icmp[1] == 0 && checksum(icmp) == 0
}

// Adds two parts, and between them the checksum of them both.
#[tactic(auto, unfolding(crate::specs::Replies::with_checksum))]
fn put_with_checksum(
    alloc: Global,
    out: &mut Bytes,
    before: &[u8],
    after: &[u8],
) -> Result<(), NoMemory>
    ensures { OnOk result (out.new ≡ out.old ++ with_checksum before.now after.now) }
{
    let mut all = Bytes::from_slice(alloc, before)?;
    put_u16(&mut all, 0)?;
    all.append(after)?;
    out.append(before)?;
    put_u16(out, checksum(all.as_slice()))?;
    out.append(after)
}

// Adds the header of the reply.
#[tactic(auto, unfolding(crate::specs::Replies::reply_header))]
fn put_header(alloc: Global, out: &mut Bytes, header: &[u8], icmp_len: u16) -> Result<(), NoMemory>
    requires there { 20 ≤ length header.now }
    requires fits { 20 + icmp_len < 2 ^ 16 }
    ensures { OnOk result (out.new ≡ out.old ++ reply_header header.now icmp_len) }
{
    let mut start = Bytes::from_slice(alloc, &[VERSION_AND_LENGTH, header[1]])?;
    put_u16(&mut start, 20 + icmp_len)?;
    start.append(&header[4..6])?;
    put_u16(&mut start, 0)?;
    start.append(&[TTL, ICMP])?;
    let mut addresses = Bytes::from_slice(alloc, &header[16..20])?;
    addresses.append(&header[12..16])?;
    put_with_checksum(alloc, out, start.as_slice(), addresses.as_slice())
}

// Adds the ICMP part of the reply.
#[tactic(auto, unfolding(crate::specs::Replies::reply_icmp))]
fn put_icmp(alloc: Global, out: &mut Bytes, icmp: &[u8]) -> Result<(), NoMemory>
    requires { 4 ≤ length icmp.now }
    ensures { OnOk result (out.new ≡ out.old ++ reply_icmp icmp.now) }
{
    put_with_checksum(alloc, out, &[0, 0], &icmp[4..])
}

fn echo_frame(
    alloc: Global,
    src: Mac,
    dst: Mac,
    header: &[u8],
    icmp: &[u8],
) -> Result<Bytes, NoMemory>
    requires there { 20 ≤ length header.now }
    requires whole { 8 ≤ length icmp.now }
    requires fits { length icmp.now ≤ 65400 }
    ensures { IfOk result (λ frame. frame ≡ echo_frame src dst header.now icmp.now) }
{
    let mut frame = Bytes::from_slice(alloc, &dst.0)?;
    frame.append(&src.0)?;
    put_u16(&mut frame, IPV4)?;
    put_header(alloc, &mut frame, header, icmp.len() as u16)?;
    put_icmp(alloc, &mut frame, icmp)?;
    Ok(frame)
}

// The frame that answers an echo request in IPv4.
fn echo4_reply(
    alloc: Global,
    src: Mac,
    dst: Mac,
    header: &[u8],
    body: &[u8],
) -> Result<Option<Bytes>, NoMemory>
    ensures { IfOk result (λ frame. frame ≡ echo4_upper src dst header.now body.now) }
{
    if dst.is_group() || !carries_icmp(header, body) {
        return Ok(None);
    }
    let icmp = &body[..u16_at(header, 2) as usize - header.len()];
    if !is_echo_request(icmp) {
        return Ok(None);
    }
    Ok(Some(echo_frame(alloc, src, dst, header, icmp)?))
}

/// The untagged frame that answers an echo request of ICMP (RFC 792) or ICMPv6 (RFC 4443, 4.1), sent
/// from `src`.
///
/// `None` exactly where no answer is due: unless the source is no group address, the IPv4 packet is
/// whole, no fragment, at most 65,400 bytes long and under a right header checksum, and its ICMP part
/// is an echo request of code 0 with a right checksum; or what lies behind an IPv6 header is a whole
/// ICMPv6 echo request of code 0, 8 to 65,400 bytes long, with a right checksum. The destination
/// address is not looked at, nor are the tags. Bytes behind the length that the header tells are
/// padding, and are not sent back.
pub fn echo_reply(
    alloc: Global,
    src: Mac,
    request: &FrameView<'_>,
) -> Result<Option<Bytes>, NoMemory>
    ensures { IfOk result (λ frame. frame ≡ echo_reply src (shown request.now)) }
{
    match request.upper {
        UpperView::V4 { header, body } => echo4_reply(alloc, src, request.src, header, body),
        UpperView::V6 { header, body } => echo6_reply(alloc, src, request.src, header, body),
        _ => Ok(None),
    }
}
