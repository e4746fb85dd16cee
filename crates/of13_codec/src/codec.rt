ghost use Rattle.std.specs.Prelude.{◌≡◌, ◌≢◌, ◌≤◌, ◌<◌, ◌++◌, ◌+◌, ◌^◌, ℕ, List, length, take, drop, Ok, OnOk, OnErr, IfOk, IfErr, MatchOption};
ghost use Rattle.of_wire.specs.Reading.{Gives};
ghost use Rattle.of_wire.specs.Numbers.{number_in};
ghost use Rattle.of13_codec.specs.Decoding.{error_at, other_at, bare_at, echo_request_at, echo_reply_at, body_at, is_version, decoded, Decodes};
ghost use Rattle.of13_codec.specs.declared.message.Message.{Message};
ghost use Rattle.of13_codec.specs.Messages.{body_of, error_bytes, framed, written, head_of};
ghost use Rattle.of13_codec.specs.Spelling.{Spells};
ghost use Rattle.of13_codec.specs.Faults.{TellsFrame, Answers};
ghost use Rattle.of13_codec.specs.WellFormed.{IsWellFormed, FitsFrame};
ghost use Rattle.of13_codec.specs.Memory.{HasWrongHeader, HasWrongSize, NeedsNoMemory};

use crate::features::{put_features, read_features};
use crate::flow_mod::{put_flow_mod, read_flow_mod};
use crate::hello::{put_hello, read_hello};
use crate::message::{Message, VERSION};
use crate::multipart::{
    PORT_DESC, put_multipart_head, put_port_desc_reply, put_port_stats_reply,
    put_port_stats_request, read_other, read_reply, read_request,
};
use crate::packet_in::{put_packet_in, read_packet_in};
use crate::packet_out::{put_packet_out, read_packet_out};
use crate::ports::{put_port_status, read_port_status};
use crate::refused::WireRefused;
use crate::sizes::{at_least, exactly};
use net_base::{Bytes, NoMemory};
use of_wire::{PartRefused, put_number, u8_at, u16_at, u32_at};
use std::alloc::Global;

fn put_error(kind: u16, code: u16, payload: &[u8], out: &mut Bytes) -> Result<(), NoMemory>
    ensures { OnOk result (out.new ≡ out.old ++ error_bytes kind code payload.now) }
{
    put_number(out, u128::from(kind), 2)?;
    put_number(out, u128::from(code), 2)?;
    out.append(payload)
}

/// Writes what stands behind a message's header.
fn put_body(message: &Message, out: &mut Bytes) -> Result<(), NoMemory>
    ensures { OnOk result (out.new ≡ out.old ++ body_of message.now) }
{
    match message {
        Message::Hello { bitmap, .. } => put_hello(*bitmap, out),
        Message::Error {
            kind,
            code,
            payload,
        } => put_error(*kind, *code, payload.as_slice(), out),
        Message::EchoRequest(data) | Message::EchoReply(data) => out.append(data.as_slice()),
        Message::FeaturesRequest | Message::BarrierRequest | Message::BarrierReply => Ok(()),
        Message::FeaturesReply(m) => put_features(m, out),
        Message::PacketIn(m) => put_packet_in(m, out),
        Message::PortStatus { reason, port } => put_port_status(*reason, port, out),
        Message::PacketOut(m) => put_packet_out(m, out),
        Message::FlowMod(m) => put_flow_mod(m, out),
        Message::PortDescRequest => put_multipart_head(PORT_DESC, 0, out),
        Message::PortStatsRequest { port } => put_port_stats_request(*port, out),
        Message::PortDescReply { more, ports } => {
            put_port_desc_reply(*more, ports.as_slice(), out)
        }
        Message::PortStatsReply { more, ports } => {
            put_port_stats_reply(*more, ports.as_slice(), out)
        }
        Message::Other { body, .. } => out.append(body.as_slice()),
    }
}

/// Writes a header, and a body behind it; after `NoMemory` a part of it may stand behind what was there.
fn put_framed(version: u8, kind: u8, xid: u32, body: &[u8], out: &mut Bytes) -> Result<(), NoMemory>
    ensures ok { OnOk result (out.new ≡ out.old ++ framed version kind xid body.now) }
    ensures kept { OnErr result (take (length out.old) out.new ≡ out.old) }
{
    put_number(out, u128::from(version), 1)?;
    put_number(out, u128::from(kind), 1)?;
    put_number(out, 8 + body.len() as u128, 2)?;
    put_number(out, u128::from(xid), 4)?;
    out.append(body)
}

/// Adds what is written of a message to the end of `out`.
#[tactic(auto, unfolding(crate::specs::Messages::written))]
fn put_message(alloc: Global, message: &Message, xid: u32, out: &mut Bytes) -> Result<(), NoMemory>
    ensures ok { OnOk result (out.new ≡ out.old ++ written message.now xid) }
    ensures err { OnErr result (out.new ≡ out.old) }
{
    let mut body = Bytes::new(alloc);
    put_body(message, &mut body)?;
    let start = out.len();
    let (version, kind) = (message.version(), message.kind());
    if let Err(no_memory) = put_framed(version, kind, xid, body.as_slice(), out) {
        out.truncate(start);
        return Err(no_memory);
    }
    Ok(())
}

/// Adds a message with a transaction id to the end of `out` (OpenFlow 1.3, 7.1). After `NoMemory`
/// `out` is as it was.
pub fn encode(alloc: Global, message: &Message, xid: u32, out: &mut Bytes) -> Result<(), NoMemory>
    ensures ok { OnOk result (out.new ≡ out.old ++ written message.now xid) }
    ensures err { OnErr result (out.new ≡ out.old) }
    ensures spelled { IsWellFormed message.now → FitsFrame message.now
        → OnOk result ((added : List ℕ) × (out.new ≡ out.old ++ added) × Spells message.now xid added) }
{
    put_message(alloc, message, xid, out)
}

/// What stands at the front of every message (OpenFlow 1.3, 7.1).
#[derive(Clone, Copy, Debug, PartialEq, Eq)]
pub struct FrameHead {
    pub version: u8,
    pub kind: u8,
    pub length: u16,
    pub xid: u32,
}

/// The header at the front of the bytes; `None` exactly where there are fewer than 8 of them.
pub fn header(bytes: &[u8]) -> Option<FrameHead>
    ensures { MatchOption result (length bytes.now < 8) (λ h. (h ≡ head_of bytes.now) × (8 ≤ length bytes.now)) }
{
    if bytes.len() < 8 {
        return None;
    }
    Some(FrameHead {
        version: u8_at(bytes, 0),
        kind: u8_at(bytes, 1),
        length: u16_at(bytes, 2),
        xid: u32_at(bytes, 4),
    })
}

/// Reads the body of an ERROR (OpenFlow 1.3, 7.4.4).
#[tactic(auto, unfolding(crate::specs::Decoding::error_at))]
fn read_error(alloc: Global, body: &[u8]) -> Result<Message, PartRefused>
    requires { length body.now < 2 ^ 16 }
    ensures exact { Gives (λ m. m) result (error_at body.now) }
    ensures wrong_size { length body.now < 4 → IfErr result (λ e. e ≢ PartRefused.Memory) }
{
    if let Err(fault) = at_least(4, body) {
        return Err(PartRefused::At(fault));
    }
    let (_, data) = body.split_at(4);
    let payload = Bytes::from_slice(alloc, data)?;
    Ok(Message::Error {
        kind: u16_at(body, 0),
        code: u16_at(body, 2),
        payload,
    })
}

fn read_echo_request(alloc: Global, body: &[u8]) -> Result<Message, PartRefused>
    ensures { Gives (λ m. m) result (echo_request_at body.now) }
{
    Ok(Message::EchoRequest(Bytes::from_slice(alloc, body)?))
}

fn read_echo_reply(alloc: Global, body: &[u8]) -> Result<Message, PartRefused>
    ensures { Gives (λ m. m) result (echo_reply_at body.now) }
{
    Ok(Message::EchoReply(Bytes::from_slice(alloc, body)?))
}

/// Reads a message that is nothing but its header.
fn read_bare(message: Message, body: &[u8]) -> Result<Message, PartRefused>
    requires { length body.now < 2 ^ 16 }
    ensures exact { Gives (λ m. m) result (bare_at message body.now) }
    ensures sure { IfErr result (λ e. e ≢ PartRefused.Memory) }
{
    if let Err(fault) = exactly(0, body) {
        return Err(PartRefused::At(fault));
    }
    Ok(message)
}

/// Reads what stands behind the header, by the header's type (OpenFlow 1.3, 7.1).
#[tactic(auto, unfolding(crate::specs::Decoding::body_at))]
fn read_body(alloc: Global, version: u8, kind: u8, body: &[u8]) -> Result<Message, PartRefused>
    requires { length body.now < 2 ^ 16 }
    ensures exact { Gives (λ m. m) result (body_at version kind body.now) }
    ensures wrong_size { HasWrongSize kind body.now → IfErr result (λ e. e ≢ PartRefused.Memory) }
    ensures sure { NeedsNoMemory kind body.now → IfErr result (λ e. e ≢ PartRefused.Memory) }
{
    match kind {
        0 => read_hello(version, body),
        1 => read_error(alloc, body),
        2 => read_echo_request(alloc, body),
        3 => read_echo_reply(alloc, body),
        5 => read_bare(Message::FeaturesRequest, body),
        6 => read_features(body),
        10 => read_packet_in(alloc, body),
        12 => read_port_status(alloc, body),
        13 => read_packet_out(alloc, body),
        14 => read_flow_mod(alloc, body),
        18 => read_request(alloc, body),
        19 => read_reply(alloc, body),
        20 => read_bare(Message::BarrierRequest, body),
        21 => read_bare(Message::BarrierReply, body),
        _ => read_other(alloc, kind, body),
    }
}

fn is_version(version: u8, kind: u8) -> bool
    ensures { result ≡ is_version version kind }
{
    if kind == 0 {
        0 < version
    } else {
        version == VERSION
    }
}

/// Reads a frame, whose version, length and body are tested in this order.
#[tactic(auto, unfolding(crate::specs::Decoding::decoded))]
fn read_frame(alloc: Global, frame: &[u8]) -> Result<(Message, u32), WireRefused>
    ensures exact { Decodes result (decoded frame.now) }
    ensures wrong_header { HasWrongHeader frame.now → IfErr result (λ e. e ≢ WireRefused.Memory) }
    ensures wrong_size { HasWrongSize (number_in 1 1 frame.now) (drop 8 frame.now) → IfErr result (λ e. e ≢ WireRefused.Memory) }
    ensures sure { NeedsNoMemory (number_in 1 1 frame.now) (drop 8 frame.now) → IfErr result (λ e. e ≢ WireRefused.Memory) }
{
    if frame.len() < 8 {
        return Err(WireRefused::Length);
    }
    let version = u8_at(frame, 0);
    let kind = u8_at(frame, 1);
    if !is_version(version, kind) {
        return Err(WireRefused::Version);
    }
    if usize::from(u16_at(frame, 2)) != frame.len() {
        return Err(WireRefused::Length);
    }
    let (_, body) = frame.split_at(8);
    match read_body(alloc, version, kind, body) {
        Ok(message) => Ok((message, u32_at(frame, 4))),
        Err(PartRefused::At(fault)) => Err(WireRefused::Body(fault)),
        Err(PartRefused::Memory) => Err(WireRefused::Memory),
    }
}

/// Reads the message that a whole frame spells, with its transaction id. A frame shorter than a
/// header is `Length`, then come a wrong version, a length that isn't the frame's, and the first
/// fault of the body, whose place counts from the frame's first byte.
pub fn decode(alloc: Global, frame: &[u8]) -> Result<(Message, u32), WireRefused>
    ensures spelled { IfOk result (λ x. Spells x.0 x.1 frame.now) }
    ensures complete { (m : Message) (xid : ℕ) → Spells m xid frame.now → Answers (m, xid) result }
    ensures first { TellsFrame frame.now result }
    ensures wrong_header { HasWrongHeader frame.now → IfErr result (λ e. e ≢ WireRefused.Memory) }
    ensures wrong_size { HasWrongSize (number_in 1 1 frame.now) (drop 8 frame.now) → IfErr result (λ e. e ≢ WireRefused.Memory) }
    ensures sure { NeedsNoMemory (number_in 1 1 frame.now) (drop 8 frame.now) → IfErr result (λ e. e ≢ WireRefused.Memory) }
{
    read_frame(alloc, frame)
}
