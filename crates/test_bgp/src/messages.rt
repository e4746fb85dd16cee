//! Messages.

use bgp_messages::{Fault, Front, HEADER, Kind, Message, Refused, Update, front_of, read_body};
use net_base::{Ip4, Net4, NoMemory, Text};
use std::alloc::{AllocError, Global};
use std::fmt::Write;
use test_lines::bytes_of;

/// Writes the codes of a fault.
fn write_fault(out: &mut String, fault: Fault) -> Result<(), NoMemory> {
    write!(out, "{}/{}", fault.code(), fault.subcode())
}

/// Writes what stands at the front of bytes.
pub fn write_front(out: &mut String, bytes: &[u8]) -> Result<(), NoMemory> {
    match front_of(bytes) {
        Front::NotYet => out.push_str("not yet"),
        Front::Refused(fault) => write_fault(out, fault),
        Front::Whole(head) => write!(out, "type {}, {} bytes", head.kind.number(), head.len),
    }
}

/// Writes a network.
pub fn write_net(out: &mut String, alloc: Global, net: &Net4) -> Result<(), NoMemory> {
    let mut text = Text::new(alloc);
    net.print(&mut text)?;
    out.push_str(text.as_str())
}

/// Writes an address.
pub fn write_ip(out: &mut String, alloc: Global, ip: Ip4) -> Result<(), NoMemory> {
    let mut text = Text::new(alloc);
    ip.print(&mut text)?;
    out.push_str(text.as_str())
}

fn write_nets(out: &mut String, alloc: Global, nets: &[Net4]) -> Result<(), NoMemory> {
    for net in nets {
        out.push_str(" ")?;
        write_net(out, alloc, net)?;
    }
    Ok(())
}

fn write_update(out: &mut String, alloc: Global, update: &Update) -> Result<(), NoMemory> {
    out.push_str("withdrawn")?;
    write_nets(out, alloc, update.withdrawn.as_slice())?;
    out.push_str(", path")?;
    for number in update.path.as_slice() {
        write!(out, " {number}")?;
    }
    out.push_str(", by ")?;
    write_ip(out, alloc, update.next_hop)?;
    out.push_str(", announced")?;
    write_nets(out, alloc, update.announced.as_slice())
}

fn write_message(out: &mut String, alloc: Global, message: &Message) -> Result<(), NoMemory> {
    match message {
        Message::Open(open) => write!(
            out,
            "AS {}, hold {}, id {}",
            open.sender_as, open.hold, open.id
        ),
        Message::Update(update) => write_update(out, alloc, update),
        Message::Notification(told) => write!(out, "told {}/{}", told.code, told.subcode),
        Message::KeepAlive => out.push_str("keepalive"),
    }
}

/// Writes what a whole message says, or what is wrong with it. The text has the peer's AS, the number of the
/// type, and the bytes of the body.
pub fn write_heard(out: &mut String, alloc: Global, text: &str) -> Result<(), NoMemory> {
    let (peer, text) = text.split_once(' ').unwrap_or((text, ""));
    let (kind, text) = text.split_once(' ').unwrap_or((text, ""));
    let body = bytes_of(alloc, text)?;
    let peer = peer.parse::<u16>().unwrap_or(0);
    let Some(kind) = Kind::of_number(kind.parse::<u8>().unwrap_or(0)) else {
        return out.push_str("no such type");
    };
    let len = HEADER + body.len();
    if len > 4096 || !kind.may_have(len as u16) {
        return out.push_str("no such length");
    }
    match read_body(alloc, peer, kind, body.as_slice()) {
        Ok(message) => write_message(out, alloc, &message),
        Err(Refused::Fault(fault)) => write_fault(out, fault),
        Err(Refused::Memory) => Err(AllocError),
    }
}

/// Writes the codes of each fault, by name.
pub fn write_faults(out: &mut String) -> Result<(), NoMemory> {
    for fault in [
        Fault::ConnectionNotSynchronized,
        Fault::BadMessageLength,
        Fault::BadMessageType,
        Fault::OpenUnspecific,
        Fault::UnsupportedVersionNumber,
        Fault::BadPeerAs,
        Fault::BadBgpIdentifier,
        Fault::UnsupportedOptionalParameter,
        Fault::UnacceptableHoldTime,
        Fault::MalformedAttributeList,
        Fault::UnrecognizedWellKnownAttribute,
        Fault::MissingWellKnownAttribute,
        Fault::AttributeFlagsError,
        Fault::AttributeLengthError,
        Fault::InvalidOriginAttribute,
        Fault::InvalidNetworkField,
        Fault::MalformedAsPath,
        Fault::HoldTimerExpired,
        Fault::FiniteStateMachineError,
        Fault::Cease,
    ] {
        write!(out, "{fault:?} ")?;
        write_fault(out, fault)?;
        out.push_str("; ")?;
    }
    Ok(())
}
