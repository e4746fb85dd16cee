//! Messages of ICMPv6 in IPv6, and the frames that carry them.

ghost use Rattle.std.specs.Prelude.{◌≡◌, ◌+◌, ◌≤◌, ◌++◌, length, IfOk, OnOk};
ghost use Rattle.pkt_view.specs.Replies.{header6, pseudo, checksum6, unsummed, message6, frame6};

use crate::bytes::{put_u16, put_u32};
use crate::sum::checksum;
use net_base::{Bytes, Mac, NoMemory};
use of_match::ether_type::IPV6;
use std::alloc::Global;

/// The next header of ICMPv6 (RFC 4443, 1).
pub(crate) const ICMPV6: u8 = 58;

/// Where a message goes: source and destination of its IPv6 header, of 16 bytes each.
#[derive(Clone, Copy)]
pub(crate) struct Ends<'a> {
    pub source: &'a [u8],
    pub destination: &'a [u8],
}

/// The checksum of a message (RFC 4443, 2.3), which is 0 where the message holds its own.
#[tactic(auto, unfolding(crate::specs::Replies::checksum6))]
pub(crate) fn checksum6(alloc: Global, ends: &Ends<'_>, message: &[u8]) -> Result<u16, NoMemory>
    requires { length message.now ≤ 65535 }
    ensures { IfOk result (λ sum. sum ≡ checksum6 ends.now.source.now ends.now.destination.now message.now) }
{
    let mut all = Bytes::from_slice(alloc, ends.source)?;
    all.append(ends.destination)?;
    put_u32(&mut all, message.len() as u32)?;
    all.append(&[0, 0, 0, ICMPV6])?;
    all.append(message)?;
    Ok(checksum(all.as_slice()))
}

// A message of code 0 without its checksum.
fn unsummed_message(alloc: Global, kind: u8, rest: &[u8]) -> Result<Bytes, NoMemory>
    ensures { IfOk result (λ message. message ≡ unsummed kind rest.now) }
{
    let mut message = Bytes::from_slice(alloc, &[kind, 0])?;
    put_u16(&mut message, 0)?;
    message.append(rest)?;
    Ok(message)
}

// Adds a message of code 0.
#[tactic(auto, unfolding(crate::specs::Replies::message6))]
fn put_message(
    alloc: Global,
    out: &mut Bytes,
    ends: &Ends<'_>,
    kind: u8,
    rest: &[u8],
) -> Result<(), NoMemory>
    requires { length rest.now ≤ 65400 }
    ensures { OnOk result (out.new ≡ out.old ++ message6 ends.now.source.now ends.now.destination.now kind rest.now) }
{
    let unsummed = unsummed_message(alloc, kind, rest)?;
    let sum = checksum6(alloc, ends, unsummed.as_slice())?;
    out.append(&[kind, 0])?;
    put_u16(out, sum)?;
    out.append(rest)
}

// Adds the header before a message of so many bytes.
fn put_header(out: &mut Bytes, ends: &Ends<'_>, hops: u8, len: u16) -> Result<(), NoMemory>
    ensures { OnOk result (out.new ≡ out.old ++ header6 len hops ends.now.source.now ends.now.destination.now) }
{
    out.append(&[0x60, 0, 0, 0])?;
    put_u16(out, len)?;
    out.append(&[ICMPV6, hops])?;
    out.append(ends.source)?;
    out.append(ends.destination)
}

/// The untagged frame of a message of code 0.
pub(crate) fn frame6(
    alloc: Global,
    dst: Mac,
    src: Mac,
    ends: &Ends<'_>,
    hops: u8,
    kind: u8,
    rest: &[u8],
) -> Result<Bytes, NoMemory>
    requires { length rest.now ≤ 65400 }
    ensures { IfOk result (λ frame. frame ≡ frame6 dst src hops ends.now.source.now ends.now.destination.now kind rest.now) }
{
    let mut frame = Bytes::from_slice(alloc, &dst.0)?;
    frame.append(&src.0)?;
    put_u16(&mut frame, IPV6)?;
    put_header(&mut frame, ends, hops, 4 + rest.len() as u16)?;
    put_message(alloc, &mut frame, ends, kind, rest)?;
    Ok(frame)
}
