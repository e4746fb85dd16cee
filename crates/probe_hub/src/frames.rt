//! The frames in the bytes of a connection (OpenFlow 1.3, 7.1), and those of them that are looked into.

ghost use Rattle.std.specs.Prelude.{◌≡◌, ◌≤◌, length, IfOk, IfSome};
ghost use Rattle.probe_hub.specs.Frames.{asked_id, asks_ports, frame_len, is_of_ports, is_read, says};

use net_base::NoMemory;
use of_wire::{u8_at, u16_at, u32_at};
use of13_codec::{Message, WireRefused, decode, header};
use std::alloc::{AllocError, Global};

/// The bytes of a header.
const HEADER: usize = 8;

/// OFPMP_PORT_DESC, the multipart type of ports' descriptions (OpenFlow 1.3, 7.3.5).
const PORT_DESC: u16 = 13;

/// How many bytes the frame at the front takes. `None` where less than a frame stands there, or a header that tells
/// fewer bytes than it has itself.
pub(crate) fn frame_len(bytes: &[u8]) -> Option<usize>
    ensures len { result ≡ frame_len bytes.now }
    ensures within { IfSome result (λ len. (8 ≤ len) × (len ≤ length bytes.now)) }
{
    let head = header(bytes)?;
    let len = usize::from(head.length);
    if len < HEADER || bytes.len() < len {
        None
    } else {
        Some(len)
    }
}

/// Whether a multipart message is of ports' descriptions.
fn is_of_ports(frame: &[u8]) -> bool
    ensures { result ≡ is_of_ports frame.now }
{
    frame.len() >= 10 && u16_at(frame, HEADER) == PORT_DESC
}

/// Whether a frame is looked into: HELLO, FEATURES_REPLY, PORT_STATUS and ports' descriptions are, and where
/// packets matter PACKET_IN (OpenFlow 1.3, 7.1).
pub(crate) fn is_read(frame: &[u8], packets: bool) -> bool
    requires { 8 ≤ length frame.now }
    ensures { result ≡ is_read packets frame.now }
{
    let kind = u8_at(frame, 1);
    kind == 0
        || kind == 6
        || kind == 12
        || kind == 10 && packets
        || kind == 19 && is_of_ports(frame)
}

/// The message that a frame spells, with its transaction id; `None` where it spells none.
pub(crate) fn read_message(alloc: Global, frame: &[u8]) -> Result<Option<(Message, u32)>, NoMemory>
    ensures { IfOk result (λ said. said ≡ says frame.now) }
{
    match decode(alloc, frame) {
        Ok(said) => Ok(Some(said)),
        Err(WireRefused::Memory) => Err(AllocError),
        Err(WireRefused::Version) => Ok(None),
        Err(WireRefused::Length) => Ok(None),
        Err(WireRefused::Body(_)) => Ok(None),
    }
}

/// Whether a message is the request for the ports' descriptions.
fn asks_ports(message: &[u8]) -> bool
    ensures { result ≡ asks_ports message.now }
{
    message.len() >= 10 && u8_at(message, 1) == 18 && is_of_ports(message)
}

/// The transaction id of the request for the ports' descriptions; `None` exactly where the message is none.
pub(crate) fn asked_id(message: &[u8]) -> Option<u32>
    ensures { result ≡ asked_id message.now }
{
    if asks_ports(message) {
        Some(u32_at(message, 4))
    } else {
        None
    }
}
