ghost use Rattle.std.specs.Prelude.{◌≡◌, ◌≤◌, ◌++◌, length, slice_index, take, drop, ◌↔◌, IsTrue, IsSome, IfOk, IfSome, OnOk};
ghost use Rattle.pkt_view.specs.Frame.{shown, shown_upper, HasFixedPart, has_type};
ghost use Rattle.pkt_view.specs.Packets.{tag_of, tags_of, l4_in, l4_of, has_target, target_of, icmp6_in, next_of, has_named_target, l4_len, next_rest, upper_of, rest_of, packet_of_parts, packet};
ghost use Rattle.of_match.specs.Shaped.{IsShaped};

use crate::bytes::{ip4_at, ip6_at, u16_at};
use crate::frame::{FrameView, UpperView, view};
use net_base::{Bytes, Ip6, Mac, NoMemory};
use of_match::{L4, Packet, Tag, Tags, Upper};
use std::alloc::Global;

// The numbers of protocols (RFC 790; RFC 4443, 1).
const ICMP: u8 = 1;

const ICMPV6: u8 = 58;

const TCP: u8 = 6;

const UDP: u8 = 17;

// The tag in the first four bytes.
fn tag_of(bytes: &[u8]) -> Tag
    requires { 4 ≤ length bytes.now }
    ensures { result ≡ tag_of bytes.now }
{
    let control = u16_at(bytes, 2);
    Tag {
        tpid: u16_at(bytes, 0),
        pcp: (control / 0x2000 % 8) as u8,
        dei: control / 0x1000 % 2 == 1,
        vid: control % 0x1000,
    }
}

// The tags of four bytes each.
fn tags_of(alloc: Global, bytes: &[u8]) -> Result<Tags, NoMemory>
    ensures { IfOk result (λ tags. tags ≡ tags_of bytes.now) }
{
    let mut tags = Tags::new(alloc);
    let mut at = 0;
    while at + 4 <= bytes.len() {
        tags.push(tag_of(&bytes[at..]))?;
        at += 4;
    }
    Ok(tags)
}

// What a transport header begins with.
fn l4_in(proto: u8, body: &[u8]) -> L4
    ensures { result ≡ l4_in proto body.now }
{
    if proto == TCP && body.len() >= 4 {
        L4::Tcp {
            src: u16_at(body, 0),
            dst: u16_at(body, 2),
        }
    } else if proto == UDP && body.len() >= 4 {
        L4::Udp {
            src: u16_at(body, 0),
            dst: u16_at(body, 2),
        }
    } else if proto == ICMP && body.len() >= 2 {
        L4::Icmp {
            kind: body[0],
            code: body[1],
        }
    } else {
        L4::None
    }
}

// Whether a target is there.
fn has_named_target(l4: L4) -> bool
    ensures { result ≡ has_named_target l4 }
{
    match l4 {
        L4::Icmp6 {
            target: Some(_),
            ..
        } => true,
        _ => false,
    }
}

// The same where the packet is no later fragment.
#[tactic(auto, unfolding(crate::specs::Packets::l4_of))]
fn l4_of(header: &[u8], body: &[u8]) -> L4
    requires { 20 ≤ length header.now }
    ensures { result ≡ l4_of header.now body.now }
{
    if u16_at(header, 6) % 0x2000 == 0 {
        l4_in(header[9], body)
    } else {
        L4::None
    }
}

// Whether a message of ICMPv6 solicits a neighbour or advertises one, and has a target.
fn has_target(body: &[u8]) -> bool
    requires { 2 ≤ length body.now }
    ensures value { result ≡ has_target body.now }
    ensures long { IsTrue result → 24 ≤ length body.now }
{
    (body[0] == 135 || body[0] == 136) && body.len() >= 24
}

// The target of such a message.
fn target_of(body: &[u8]) -> Option<Ip6>
    requires { 2 ≤ length body.now }
    ensures { result ≡ target_of body.now }
{
    if has_target(body) {
        Some(ip6_at(body, 8))
    } else {
        None
    }
}

// What a message of ICMPv6 begins with.
fn icmp6_in(body: &[u8]) -> L4
    ensures { result ≡ icmp6_in body.now }
{
    if body.len() < 2 {
        return L4::None;
    }
    L4::Icmp6 {
        kind: body[0],
        code: body[1],
        target: target_of(body),
    }
}

// What stands behind an IPv6 header.
#[tactic(auto, unfolding(crate::specs::Packets::next_of))]
fn next_of(proto: u8, body: &[u8]) -> L4
    ensures { result ≡ next_of proto body.now }
{
    if proto == ICMPV6 {
        icmp6_in(body)
    } else if proto == ICMP {
        L4::None
    } else {
        l4_in(proto, body)
    }
}

fn l4_len(l4: L4) -> usize
    ensures { result ≡ l4_len l4 }
{
    match l4 {
        L4::None => 0,
        L4::Tcp { .. } | L4::Udp { .. } => 4,
        L4::Icmp { .. } | L4::Icmp6 { .. } => 2,
    }
}

fn upper_of(upper: &UpperView<'_>) -> Upper
    requires { HasFixedPart (shown_upper upper.now) }
    ensures { result ≡ upper_of (shown_upper upper.now) }
{
    match *upper {
        UpperView::None => Upper::None,
        UpperView::Arp { op, spa, tpa, .. } => Upper::Arp { op, spa, tpa },
        UpperView::V4 { header, body } => Upper::V4 {
            src: ip4_at(header, 12),
            dst: ip4_at(header, 16),
            proto: header[9],
            ttl: header[8],
            l4: l4_of(header, body),
        },
        UpperView::V6 { header, body } => Upper::V6 {
            src: ip6_at(header, 8),
            dst: ip6_at(header, 24),
            proto: header[6],
            hops: header[7],
            l4: next_of(header[6], body),
        },
    }
}

// The bytes that no other part holds.
fn rest_of(alloc: Global, payload: &[u8], upper: &UpperView<'_>) -> Result<Bytes, NoMemory>
    requires { HasFixedPart (shown_upper upper.now) }
    ensures { IfOk result (λ rest. rest ≡ rest_of payload.now (shown_upper upper.now)) }
{
    match *upper {
        UpperView::None => Bytes::from_slice(alloc, payload),
        UpperView::Arp { sha, tha, .. } => arp_rest(alloc, payload, sha, tha),
        UpperView::V4 { header, body } => ipv4_rest(alloc, header, body),
        UpperView::V6 { header, body } => ipv6_rest(alloc, header, body),
    }
}

// Of an ARP packet: what comes before the operation, the hardware addresses, and what follows.
fn arp_rest(alloc: Global, payload: &[u8], sha: Mac, tha: Mac) -> Result<Bytes, NoMemory>
    ensures { IfOk result (λ rest. rest ≡ take 6 payload.now ++ sha.0 ++ tha.0 ++ drop 28 payload.now) }
{
    let mut rest = Bytes::from_slice(alloc, first(payload, 6))?;
    rest.append(&sha.0)?;
    rest.append(&tha.0)?;
    rest.append(behind(payload, 28))?;
    Ok(rest)
}

// Of an IPv4 packet: what comes before the TTL, the options, and what follows the matched part.
fn ipv4_rest(alloc: Global, header: &[u8], body: &[u8]) -> Result<Bytes, NoMemory>
    requires { 20 ≤ length header.now }
    ensures { IfOk result (λ rest. rest ≡ take 8 header.now ++ drop 20 header.now ++ drop (l4_len (l4_of header.now body.now)) body.now) }
{
    let mut rest = Bytes::from_slice(alloc, &header[..8])?;
    rest.append(&header[20..])?;
    rest.append(behind(body, l4_len(l4_of(header, body))))?;
    Ok(rest)
}

// Of an IPv6 packet: what comes before the protocol, and what is no matched part behind the header.
fn ipv6_rest(alloc: Global, header: &[u8], body: &[u8]) -> Result<Bytes, NoMemory>
    requires { length header.now ≡ 40 }
    ensures { IfOk result (λ rest. rest ≡ take 6 header.now ++ next_rest (next_of (slice_index header.now 6) body.now) body.now) }
{
    let mut rest = Bytes::from_slice(alloc, &header[..6])?;
    let l4 = next_of(header[6], body);
    if has_named_target(l4) {
        rest.append(first(behind(body, 2), 6))?;
        rest.append(behind(body, 24))?;
    } else {
        rest.append(behind(body, l4_len(l4)))?;
    }
    Ok(rest)
}

// So many bytes, or all there are.
fn first(bytes: &[u8], len: usize) -> &[u8]
    ensures { result.now ≡ take len bytes.now }
{
    if len <= bytes.len() {
        &bytes[..len]
    } else {
        bytes
    }
}

// What follows so many bytes.
fn behind(bytes: &[u8], len: usize) -> &[u8]
    ensures { result.now ≡ drop len bytes.now }
{
    if len <= bytes.len() {
        &bytes[len..]
    } else {
        &[]
    }
}

#[tactic(auto, unfolding(crate::specs::Packets::packet_of_parts))]
fn packet_from(alloc: Global, view: &FrameView<'_>) -> Result<Packet, NoMemory>
    requires { HasFixedPart (shown_upper view.now.upper) }
    ensures { IfOk result (λ p. p ≡ packet_of_parts (shown view.now)) }
{
    let tags = tags_of(alloc, view.tags)?;
    let rest = rest_of(alloc, view.payload, &view.upper)?;
    Ok(Packet {
        dst: view.dst,
        src: view.src,
        tags,
        eth_type: view.eth_type,
        upper: upper_of(&view.upper),
        rest,
    })
}

/// The packet that a frame shows; `None` exactly where the frame ends before its EtherType.
pub fn packet_of(alloc: Global, frame: &[u8]) -> Result<Option<Packet>, NoMemory>
    ensures packet { IfOk result (λ p. p ≡ packet frame.now) }
    ensures shaped { IfOk result (λ p. IfSome p IsShaped) }
    ensures none { IfOk result (λ p. IsSome p ↔ IsTrue (has_type frame.now)) }
{
    match view(frame) {
        None => Ok(None),
        Some(view) => Ok(Some(packet_from(alloc, &view)?)),
    }
}
