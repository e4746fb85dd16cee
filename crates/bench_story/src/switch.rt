//! What the switch of the story says.

ghost use Rattle.std.specs.Prelude.{◌≡◌, IfOk};
ghost use Rattle.of_wire.specs.Parts.{zeros};
ghost use Rattle.of13_codec.specs.Messages.{written};
ghost use Rattle.bench_story.specs.Switch.{features, frame, hello, packet_in, port, port_reply, ports};

use crate::setup::PORTS;
use flow_messages::COOKIE;
use net_base::{Bytes, DpId, Field, FieldId, Fields, Mac, NoMemory};
use of_wire::{put_number, put_zeros};
use of13_codec::{FeaturesReply, Message, PacketIn, PortDesc, PortDescs, encode};
use std::alloc::Global;

/// The wire version of OpenFlow 1.3.
const VERSION: u8 = 4;

/// A message as it is spelled.
fn spell(alloc: Global, message: &Message, xid: u32) -> Result<Bytes, NoMemory>
    ensures { IfOk result (λ bytes. bytes ≡ written message.now xid) }
{
    let mut bytes = Bytes::new(alloc);
    encode(alloc, message, xid, &mut bytes)?;
    Ok(bytes)
}

/// Its HELLO.
pub fn make_hello(alloc: Global) -> Result<Bytes, NoMemory>
    ensures { IfOk result (λ bytes. bytes ≡ hello) }
{
    let message = Message::Hello {
        version: VERSION,
        bitmap: None,
    };
    spell(alloc, &message, 1)
}

/// Its FEATURES_REPLY.
pub fn make_features(alloc: Global) -> Result<Bytes, NoMemory>
    ensures { IfOk result (λ bytes. bytes ≡ features) }
{
    let message = Message::FeaturesReply(FeaturesReply {
        dp: DpId(1),
        n_buffers: 0,
        n_tables: 254,
        auxiliary: 0,
        capabilities: 0,
    });
    spell(alloc, &message, 2)
}

fn make_zeros(alloc: Global, count: usize) -> Result<Bytes, NoMemory>
    ensures { IfOk result (λ bytes. bytes ≡ zeros count) }
{
    let mut bytes = Bytes::new(alloc);
    put_zeros(&mut bytes, count)?;
    Ok(bytes)
}

/// A port that is up.
fn make_port(alloc: Global, no: u32) -> Result<PortDesc, NoMemory>
    ensures { IfOk result (λ made. made ≡ port no) }
{
    Ok(PortDesc {
        no,
        hw: Mac([0; 6]),
        name: make_zeros(alloc, 16)?,
        config: 0,
        state: 0,
        rest: make_zeros(alloc, 24)?,
    })
}

fn make_ports(alloc: Global) -> Result<PortDescs, NoMemory>
    ensures { IfOk result (λ made. made ≡ ports 48) }
{
    let mut made = PortDescs::new(alloc);
    for at in 0..PORTS {
        made.push(make_port(alloc, at + 1)?)?;
    }
    Ok(made)
}

/// Its reply to the request for its ports, all of which are up.
pub fn make_port_reply(alloc: Global) -> Result<Bytes, NoMemory>
    ensures { IfOk result (λ bytes. bytes ≡ port_reply) }
{
    let message = Message::PortDescReply {
        more: false,
        ports: make_ports(alloc)?,
    };
    spell(alloc, &message, 3)
}

/// The frame of a host.
fn make_frame(alloc: Global, host: u32) -> Result<Bytes, NoMemory>
    ensures { IfOk result (λ bytes. bytes ≡ frame host) }
{
    let mut bytes = Bytes::new(alloc);
    put_number(&mut bytes, 0xffff_ffff_ffff, 6)?;
    put_number(&mut bytes, 0x0200, 2)?;
    put_number(&mut bytes, u128::from(host), 4)?;
    put_number(&mut bytes, 0x8100, 2)?;
    put_number(&mut bytes, 100, 2)?;
    put_number(&mut bytes, 0x88b5, 2)?;
    put_zeros(&mut bytes, 46)?;
    Ok(bytes)
}

/// The PACKET_IN by which a host comes, to the ports in turn.
pub fn make_packet_in(alloc: Global, host: u32) -> Result<Bytes, NoMemory>
    ensures { IfOk result (λ bytes. bytes ≡ written (packet_in host) 0) }
{
    let port = 1 + host % PORTS;
    let fields = [Field::exact(FieldId::InPort, u128::from(port))];
    let message = Message::PacketIn(PacketIn {
        buffer: 0xffff_ffff,
        total: 64,
        reason: 1,
        table: 3,
        cookie: COOKIE,
        fields: Fields::from_slice(alloc, &fields)?,
        payload: make_frame(alloc, host)?,
    });
    spell(alloc, &message, 0)
}
