ghost use Rattle.std.specs.Prelude.{◌≡◌, ◌≢◌, ◌≤◌, ◌<◌, ◌+◌, ◌++◌, ◌^◌, length, ℕ, OnOk, IfOk, IfErr};
ghost use Rattle.of_wire.specs.Reading.{Gives};
ghost use Rattle.of13_codec.specs.Memory.{AsksForPorts, TellsNoPort};
ghost use Rattle.of13_codec.specs.Decoding.{other_at, port_desc_request_at, port_stats_request_at, port_desc_reply_at, port_stats_reply_at, request_at, has_more, items_at, reply_at};
ghost use Rattle.std.specs.List.{flat_map};
ghost use Rattle.of13_codec.specs.Messages.{multipart_head, port_bytes, port_stats_bytes, port_desc_reply_bytes, port_stats_request_bytes, port_stats_reply_bytes};

use crate::message::Message;
use crate::ports::{Item, PortDesc, PortStats};
use crate::sizes::{at_least, exactly, short};
use net_base::{Bytes, Items, NoMemory};
use of_wire::{PartFault, PartRefused, put_number, put_zeros, u16_at, u32_at};
use std::alloc::Global;

// The multipart types that are known (OpenFlow 1.3, 7.3.5).
pub const PORT_STATS: u128 = 4;

pub const PORT_DESC: u128 = 13;

/// Writes the front of a multipart message: its type and its flags.
pub fn put_multipart_head(kind: u128, flags: u128, out: &mut Bytes) -> Result<(), NoMemory>
    ensures { OnOk result (out.new ≡ out.old ++ multipart_head kind flags) }
{
    put_number(out, kind, 2)?;
    put_number(out, flags, 2)?;
    put_zeros(out, 4)
}

/// Writes the body of a request of a port's counters.
pub fn put_port_stats_request(port: u32, out: &mut Bytes) -> Result<(), NoMemory>
    ensures { OnOk result (out.new ≡ out.old ++ port_stats_request_bytes port) }
{
    put_multipart_head(PORT_STATS, 0, out)?;
    put_number(out, u128::from(port), 4)?;
    put_zeros(out, 4)
}

fn put_items<T: Item>(items: &[T], out: &mut Bytes) -> Result<(), NoMemory>
    ensures { OnOk result (out.new ≡ out.old ++ flat_map T.bytes_of items.now) }
{
    for item in items {
        item.put(out)?;
    }
    Ok(())
}

/// Writes the body of a reply with ports' descriptions.
pub fn put_port_desc_reply(more: bool, ports: &[PortDesc], out: &mut Bytes) -> Result<(), NoMemory>
    ensures { OnOk result (out.new ≡ out.old ++ port_desc_reply_bytes more ports.now) }
{
    put_multipart_head(PORT_DESC, if more { 1 } else { 0 }, out)?;
    put_items(ports, out)
}

/// Writes the body of a reply with ports' counters.
pub fn put_port_stats_reply(
    more: bool,
    stats: &[PortStats],
    out: &mut Bytes,
) -> Result<(), NoMemory>
    ensures { OnOk result (out.new ≡ out.old ++ port_stats_reply_bytes more stats.now) }
{
    put_multipart_head(PORT_STATS, if more { 1 } else { 0 }, out)?;
    put_items(stats, out)
}

fn read_port_desc_request(body: &[u8]) -> Result<Message, PartRefused>
    requires { length body.now < 2 ^ 16 }
    ensures exact { Gives (λ m. m) result (port_desc_request_at body.now) }
    ensures sure { IfErr result (λ e. e ≢ PartRefused.Memory) }
{
    if let Err(fault) = exactly(8, body) {
        return Err(PartRefused::At(fault));
    }
    Ok(Message::PortDescRequest)
}

fn read_port_stats_request(body: &[u8]) -> Result<Message, PartRefused>
    requires { length body.now < 2 ^ 16 }
    ensures exact { Gives (λ m. m) result (port_stats_request_at body.now) }
    ensures sure { IfErr result (λ e. e ≢ PartRefused.Memory) }
{
    if let Err(fault) = exactly(16, body) {
        return Err(PartRefused::At(fault));
    }
    Ok(Message::PortStatsRequest {
        port: u32_at(body, 8),
    })
}

pub fn read_other(alloc: Global, kind: u8, body: &[u8]) -> Result<Message, PartRefused>
    ensures { Gives (λ m. m) result (other_at kind body.now) }
{
    let body = Bytes::from_slice(alloc, body)?;
    Ok(Message::Other { kind, body })
}

/// Reads the body of a MULTIPART_REQUEST.
#[tactic(auto, unfolding(crate::specs::Decoding::request_at))]
pub fn read_request(alloc: Global, body: &[u8]) -> Result<Message, PartRefused>
    requires { length body.now < 2 ^ 16 }
    ensures exact { Gives (λ m. m) result (request_at body.now) }
    ensures wrong_size { length body.now < 8 → IfErr result (λ e. e ≢ PartRefused.Memory) }
    ensures sure { AsksForPorts body.now → IfErr result (λ e. e ≢ PartRefused.Memory) }
{
    if let Err(fault) = at_least(8, body) {
        return Err(PartRefused::At(fault));
    }
    match u128::from(u16_at(body, 0)) {
        PORT_DESC => read_port_desc_request(body),
        PORT_STATS => read_port_stats_request(body),
        _ => read_other(alloc, 18, body),
    }
}

fn has_more(body: &[u8]) -> bool
    requires { 8 ≤ length body.now }
    ensures { result ≡ has_more body.now }
{
    u16_at(body, 2) % 2 == 1
}

/// Reads items up to the end of the bytes.
fn read_items<T: Item>(
    alloc: Global,
    past: PartFault,
    bytes: &[u8],
) -> Result<Items<T>, PartRefused>
    requires { 0 < T.SIZE }
    ensures exact { Gives (λ x. x) result (items_at T.SIZE T.of past bytes.now) }
    ensures sure { length bytes.now < T.SIZE → IfErr result (λ e. e ≢ PartRefused.Memory) }
{
    let mut items = Items::new(alloc);
    let mut rest = bytes;
    while !rest.is_empty() {
        if rest.len() < T::SIZE {
            return Err(PartRefused::At(past));
        }
        items.push(T::from_bytes(alloc, rest)?)?;
        let (_, after) = rest.split_at(T::SIZE);
        rest = after;
    }
    Ok(items)
}

fn read_port_desc_reply(alloc: Global, body: &[u8]) -> Result<Message, PartRefused>
    requires head { 8 ≤ length body.now }
    requires small { length body.now < 2 ^ 16 }
    ensures exact { Gives (λ m. m) result (port_desc_reply_at body.now) }
    ensures sure { length body.now < 72 → IfErr result (λ e. e ≢ PartRefused.Memory) }
{
    let (_, items) = body.split_at(8);
    let ports = read_items(alloc, short(body), items)?;
    Ok(Message::PortDescReply {
        more: has_more(body),
        ports,
    })
}

fn read_port_stats_reply(alloc: Global, body: &[u8]) -> Result<Message, PartRefused>
    requires head { 8 ≤ length body.now }
    requires small { length body.now < 2 ^ 16 }
    ensures exact { Gives (λ m. m) result (port_stats_reply_at body.now) }
    ensures sure { length body.now < 120 → IfErr result (λ e. e ≢ PartRefused.Memory) }
{
    let (_, items) = body.split_at(8);
    let ports = read_items(alloc, short(body), items)?;
    Ok(Message::PortStatsReply {
        more: has_more(body),
        ports,
    })
}

/// Reads the body of a MULTIPART_REPLY.
#[tactic(auto, unfolding(crate::specs::Decoding::reply_at))]
pub fn read_reply(alloc: Global, body: &[u8]) -> Result<Message, PartRefused>
    requires { length body.now < 2 ^ 16 }
    ensures exact { Gives (λ m. m) result (reply_at body.now) }
    ensures wrong_size { length body.now < 8 → IfErr result (λ e. e ≢ PartRefused.Memory) }
    ensures sure { TellsNoPort body.now → IfErr result (λ e. e ≢ PartRefused.Memory) }
{
    if let Err(fault) = at_least(8, body) {
        return Err(PartRefused::At(fault));
    }
    match u128::from(u16_at(body, 0)) {
        PORT_DESC => read_port_desc_reply(alloc, body),
        PORT_STATS => read_port_stats_reply(alloc, body),
        _ => read_other(alloc, 19, body),
    }
}
