ghost use Rattle.std.specs.Prelude.{◌≡◌, ◌≢◌, ◌≤◌, ◌<◌, ◌+◌, ◌++◌, ◌^◌, length, OnOk, IfOk, IfErr};
ghost use Rattle.of_wire.specs.Reading.{Gives};
ghost use Rattle.of13_codec.specs.Decoding.{packet_in_rest, packet_in_at};
ghost use Rattle.of13_codec.specs.Messages.{packet_in_head, packet_in_bytes};

use crate::message::Message;
use crate::sizes::{at_least, short};
use net_base::{Bytes, Fields, NoMemory, TryCopy};
use of_wire::{
    PartRefused, get_match_seen_at, put_match, put_number, put_zeros, u8_at, u16_at, u32_at, u64_at,
};
use std::alloc::Global;

/// A packet that a switch hands to the controller (OpenFlow 1.3, 7.4.1).
#[derive(Debug, Drop)]
pub struct PacketIn {
    pub buffer: u32,
    pub total: u16,
    pub reason: u8,
    pub table: u8,
    pub cookie: u64,
    pub fields: Fields,
    pub payload: Bytes,
}

impl TryCopy for PacketIn {
    fn copy(&self, alloc: Global) -> Result<PacketIn, NoMemory> {
        Ok(PacketIn {
            buffer: self.buffer,
            total: self.total,
            reason: self.reason,
            table: self.table,
            cookie: self.cookie,
            fields: self.fields.copy(alloc)?,
            payload: self.payload.copy(alloc)?,
        })
    }
}

fn put_packet_in_head(m: &PacketIn, out: &mut Bytes) -> Result<(), NoMemory>
    ensures { OnOk result (out.new ≡ out.old ++ packet_in_head m.now) }
{
    put_number(out, u128::from(m.buffer), 4)?;
    put_number(out, u128::from(m.total), 2)?;
    put_number(out, u128::from(m.reason), 1)?;
    put_number(out, u128::from(m.table), 1)?;
    put_number(out, u128::from(m.cookie), 8)
}

/// Writes the body of a PACKET_IN.
pub fn put_packet_in(m: &PacketIn, out: &mut Bytes) -> Result<(), NoMemory>
    ensures { OnOk result (out.new ≡ out.old ++ packet_in_bytes m.now) }
{
    put_packet_in_head(m, out)?;
    put_match(m.fields.as_slice(), out)?;
    put_zeros(out, 2)?;
    out.append(m.payload.as_slice())
}

/// Reads what stands behind the match: two bytes of padding, and the packet.
#[tactic(auto, unfolding(crate::specs::Decoding::packet_in_rest))]
fn read_packet_in_rest(
    alloc: Global,
    fields: Fields,
    body: &[u8],
    rest: &[u8],
) -> Result<Message, PartRefused>
    requires head { 16 ≤ length body.now }
    requires small { length body.now < 2 ^ 16 }
    ensures exact { Gives (λ m. m) result (packet_in_rest fields body.now rest.now) }
    ensures wrong_size { length rest.now < 2 → IfErr result (λ e. e ≢ PartRefused.Memory) }
{
    if rest.len() < 2 {
        return Err(PartRefused::At(short(body)));
    }
    let (_, data) = rest.split_at(2);
    let payload = Bytes::from_slice(alloc, data)?;
    Ok(Message::PacketIn(PacketIn {
        buffer: u32_at(body, 0),
        total: u16_at(body, 4),
        reason: u8_at(body, 6),
        table: u8_at(body, 7),
        cookie: u64_at(body, 8),
        fields,
        payload,
    }))
}

/// Reads the body of a PACKET_IN. Fields that aren't known are passed over.
#[tactic(auto, unfolding(crate::specs::Decoding::packet_in_at))]
pub fn read_packet_in(alloc: Global, body: &[u8]) -> Result<Message, PartRefused>
    requires { length body.now < 2 ^ 16 }
    ensures exact { Gives (λ m. m) result (packet_in_at body.now) }
    ensures wrong_size { length body.now < 16 → IfErr result (λ e. e ≢ PartRefused.Memory) }
{
    if let Err(fault) = at_least(16, body) {
        return Err(PartRefused::At(fault));
    }
    let (_, behind) = body.split_at(16);
    let (fields, taken) = get_match_seen_at(alloc, 24, behind)?;
    let (_, rest) = behind.split_at(taken);
    read_packet_in_rest(alloc, fields, body, rest)
}
