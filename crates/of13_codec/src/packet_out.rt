ghost use Rattle.std.specs.Prelude.{◌≡◌, ◌≢◌, ◌≤◌, ◌<◌, ◌+◌, ◌++◌, ◌^◌, length, OnOk, IfOk, IfErr};
ghost use Rattle.of_wire.specs.Reading.{Gives};
ghost use Rattle.of13_codec.specs.Decoding.{short, packet_out_with, packet_out_at};
ghost use Rattle.of13_codec.specs.Messages.{packet_out_bytes};

use crate::message::Message;
use crate::sizes::{at_least, short};
use net_base::{Bytes, NoMemory, TryCopy};
use of_match::Actions;
use of_wire::{
    PartCause, PartFault, PartRefused, actions_len, past_end, put_actions, put_number, put_zeros,
    read_actions, u16_at, u32_at,
};
use std::alloc::Global;

/// A packet that the controller has a switch send (OpenFlow 1.3, 7.3.7).
#[derive(Debug, Drop)]
pub struct PacketOut {
    pub buffer: u32,
    pub in_port: u32,
    pub actions: Actions,
    pub payload: Bytes,
}

impl TryCopy for PacketOut {
    fn copy(&self, alloc: Global) -> Result<PacketOut, NoMemory> {
        Ok(PacketOut {
            buffer: self.buffer,
            in_port: self.in_port,
            actions: self.actions.copy(alloc)?,
            payload: self.payload.copy(alloc)?,
        })
    }
}

/// Writes the body of a PACKET_OUT.
pub fn put_packet_out(m: &PacketOut, out: &mut Bytes) -> Result<(), NoMemory>
    ensures { OnOk result (out.new ≡ out.old ++ packet_out_bytes m.now) }
{
    put_number(out, u128::from(m.buffer), 4)?;
    put_number(out, u128::from(m.in_port), 4)?;
    put_number(out, actions_len(m.actions.as_slice()), 2)?;
    put_zeros(out, 6)?;
    put_actions(m.actions.as_slice(), out)?;
    out.append(m.payload.as_slice())
}

/// Reads what stands behind the front of a PACKET_OUT whose actions have this length.
#[tactic(auto, unfolding(crate::specs::Decoding::packet_out_with))]
fn read_packet_out_with(alloc: Global, len: usize, body: &[u8]) -> Result<Message, PartRefused>
    requires head { 16 ≤ length body.now }
    requires small { length body.now < 2 ^ 16 }
    ensures { Gives (λ m. m) result (packet_out_with len body.now) }
{
    let wrong = PartFault {
        at: 16,
        cause: PartCause::BadLength,
    };
    let (_, behind) = body.split_at(16);
    let past = past_end(len, behind.len(), wrong, short(body));
    let (region, data) = behind.split_at(len.min(behind.len()));
    let actions = read_actions(alloc, past, 24, region)?;
    if behind.len() < len {
        return Err(PartRefused::At(short(body)));
    }
    let payload = Bytes::from_slice(alloc, data)?;
    Ok(Message::PacketOut(PacketOut {
        buffer: u32_at(body, 0),
        in_port: u32_at(body, 4),
        actions,
        payload,
    }))
}

/// Reads the body of a PACKET_OUT.
#[tactic(auto, unfolding(crate::specs::Decoding::packet_out_at))]
pub fn read_packet_out(alloc: Global, body: &[u8]) -> Result<Message, PartRefused>
    requires { length body.now < 2 ^ 16 }
    ensures exact { Gives (λ m. m) result (packet_out_at body.now) }
    ensures wrong_size { length body.now < 16 → IfErr result (λ e. e ≢ PartRefused.Memory) }
{
    if let Err(fault) = at_least(16, body) {
        return Err(PartRefused::At(fault));
    }
    read_packet_out_with(alloc, usize::from(u16_at(body, 8)), body)
}
