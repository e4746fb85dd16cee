//! The frame of a case, and packets as they are shown.

use net_base::{NoMemory, PortNo};
use of_match::Packet;
use pkt_view::packet_of;
use std::alloc::Global;
use std::str::SplitWhitespace;
use test_words::{port_no, put_mac};

/// The packet of a frame in digits.
fn packet_in(alloc: Global, digits: &str) -> Result<Option<Packet>, NoMemory> {
    match hex::decode(alloc, digits) {
        Ok(frame) => packet_of(alloc, frame.as_slice()),
        Err(_) => Ok(None),
    }
}

/// The port by which a frame comes in, and the frame's packet, by a number and hexadecimal digits; `None` where
/// the words are none of these, or the frame shows no packet.
pub fn frame_in(
    alloc: Global,
    words: &mut SplitWhitespace<'_>,
) -> Result<Option<(PortNo, Packet)>, NoMemory> {
    let (Some(port), Some(digits)) = (port_no(words), words.next()) else {
        return Ok(None);
    };
    match packet_in(alloc, digits)? {
        Some(packet) => Ok(Some((port, packet))),
        None => Ok(None),
    }
}

/// Puts the destination and the source, and the VLANs of the tags.
pub fn put_packet(alloc: Global, out: &mut String, packet: &Packet) -> Result<(), NoMemory> {
    put_mac(alloc, out, packet.dst)?;
    out.push_str(" ")?;
    put_mac(alloc, out, packet.src)?;
    for tag in packet.tags.as_slice() {
        write!(out, " vlan {}", tag.vid)?;
    }
    Ok(())
}
