//! Frames: what they show, and the answers to them.

use net_base::{Bytes, Ip4, Ip6, Mac, NoMemory};
use pkt_view::{
    FrameView, UpperView, arp_reply, arp_request, checksum, echo_reply, nd_advert, nd_solicit,
    packet_of, view,
};
use std::alloc::Global;
use std::fmt::Write;
use std::str::SplitWhitespace;

/// The gateway's Ethernet address.
const ROUTER: Mac = Mac([0x0e, 0, 0, 0, 0, 1]);

/// A host's Ethernet address.
const STATION: Mac = Mac([2, 0, 0, 0, 0, 1]);

/// The answer to a frame: to each ARP request, and to echo requests.
fn reply(alloc: Global, frame: &FrameView<'_>) -> Result<Option<Bytes>, NoMemory> {
    match frame.upper {
        UpperView::Arp { spa, tpa, .. } => {
            Ok(Some(arp_reply(alloc, ROUTER, tpa, frame.src, spa)?))
        }
        _ => echo_reply(alloc, ROUTER, frame),
    }
}

/// Writes how many bytes an answer has, and the first 80 of them.
fn write_reply(out: &mut String, alloc: Global, frame: &[u8]) -> Result<(), NoMemory> {
    let reply = match view(frame) {
        Some(frame) => reply(alloc, &frame)?,
        None => None,
    };
    match reply {
        Some(reply) => {
            let front = &reply.as_slice()[..reply.len().min(80)];
            write!(out, "{} bytes {}", reply.len(), hex::encode(alloc, front)?)
        }
        None => out.push_str("nothing"),
    }
}

/// Writes the request for an address.
fn write_request(out: &mut String, alloc: Global) -> Result<(), NoMemory> {
    let request = arp_request(alloc, ROUTER, Ip4(0x0a00_64fe), Ip4(0x0a00_6401))?;
    out.push_str(hex::encode(alloc, request.as_slice())?.as_str())
}

fn ip6(words: &mut SplitWhitespace<'_>) -> Option<Ip6> {
    Ip6::parse(words.next()?)
}

/// Writes the frame in which the gateway at the first address asks for the second, or tells a station
/// at the second that it is there.
pub fn write_neighbour(
    out: &mut String,
    alloc: Global,
    kind: &str,
    words: &mut SplitWhitespace<'_>,
) -> Result<(), NoMemory> {
    let (Some(own), Some(other)) = (ip6(words), ip6(words)) else {
        return out.push_str("no case");
    };
    let frame = match kind {
        "solicit" => nd_solicit(alloc, ROUTER, own, other)?,
        _ => nd_advert(alloc, ROUTER, own, STATION, other)?,
    };
    out.push_str(hex::encode(alloc, frame.as_slice())?.as_str())
}

fn write_packet(out: &mut String, alloc: Global, frame: &[u8]) -> Result<(), NoMemory> {
    write!(out, "{:?}", packet_of(alloc, frame)?)
}

/// Writes what a frame is.
pub fn write_frame(
    out: &mut String,
    alloc: Global,
    kind: &str,
    frame: &Bytes,
) -> Result<(), NoMemory> {
    let frame = frame.as_slice();
    match kind {
        "packet" => write_packet(out, alloc, frame),
        "view" => write!(out, "{:?}", view(frame)),
        "reply" => write_reply(out, alloc, frame),
        "checksum" => write!(out, "{:#06x}", checksum(frame)),
        "request" => write_request(out, alloc),
        _ => out.push_str("no such kind"),
    }
}
