ghost use Rattle.std.specs.Prelude.{◌≡◌, ◌≢◌, ◌≤◌, ◌<◌, ◌+◌, ◌++◌, ◌^◌, length, OnOk, IfOk, IfErr};
ghost use Rattle.of_wire.specs.Reading.{Gives};
ghost use Rattle.of13_codec.specs.Decoding.{flow_mod_of, flow_mod_at};
ghost use Rattle.of13_codec.specs.Messages.{flow_mod_target, flow_mod_terms, flow_mod_filter, flow_mod_bytes};

use crate::message::Message;
use crate::sizes::at_least;
use net_base::{Bytes, Fields, NoMemory, TryCopy};
use of_match::Instrs;
use of_wire::{
    PartRefused, get_instrs_at, get_match_at, put_instrs, put_match, put_number, put_zeros, u8_at,
    u16_at, u32_at, u64_at,
};
use std::alloc::Global;

/// A change of a flow table (OpenFlow 1.3, 7.3.4.1).
#[derive(Debug, Drop)]
pub struct FlowMod {
    pub cookie: u64,
    pub cookie_mask: u64,
    pub table: u8,
    pub command: u8,
    pub idle: u16,
    pub hard: u16,
    pub priority: u16,
    pub buffer: u32,
    pub out_port: u32,
    pub out_group: u32,
    pub flags: u16,
    pub fields: Fields,
    pub instrs: Instrs,
}

impl TryCopy for FlowMod {
    fn copy(&self, alloc: Global) -> Result<FlowMod, NoMemory> {
        Ok(FlowMod {
            cookie: self.cookie,
            cookie_mask: self.cookie_mask,
            table: self.table,
            command: self.command,
            idle: self.idle,
            hard: self.hard,
            priority: self.priority,
            buffer: self.buffer,
            out_port: self.out_port,
            out_group: self.out_group,
            flags: self.flags,
            fields: self.fields.copy(alloc)?,
            instrs: self.instrs.copy(alloc)?,
        })
    }
}

fn put_flow_mod_target(m: &FlowMod, out: &mut Bytes) -> Result<(), NoMemory>
    ensures { OnOk result (out.new ≡ out.old ++ flow_mod_target m.now) }
{
    put_number(out, u128::from(m.cookie), 8)?;
    put_number(out, u128::from(m.cookie_mask), 8)?;
    put_number(out, u128::from(m.table), 1)?;
    put_number(out, u128::from(m.command), 1)
}

fn put_flow_mod_terms(m: &FlowMod, out: &mut Bytes) -> Result<(), NoMemory>
    ensures { OnOk result (out.new ≡ out.old ++ flow_mod_terms m.now) }
{
    put_number(out, u128::from(m.idle), 2)?;
    put_number(out, u128::from(m.hard), 2)?;
    put_number(out, u128::from(m.priority), 2)?;
    put_number(out, u128::from(m.buffer), 4)
}

fn put_flow_mod_filter(m: &FlowMod, out: &mut Bytes) -> Result<(), NoMemory>
    ensures { OnOk result (out.new ≡ out.old ++ flow_mod_filter m.now) }
{
    put_number(out, u128::from(m.out_port), 4)?;
    put_number(out, u128::from(m.out_group), 4)?;
    put_number(out, u128::from(m.flags), 2)?;
    put_zeros(out, 2)
}

/// Writes the body of a FLOW_MOD.
pub fn put_flow_mod(m: &FlowMod, out: &mut Bytes) -> Result<(), NoMemory>
    ensures { OnOk result (out.new ≡ out.old ++ flow_mod_bytes m.now) }
{
    put_flow_mod_target(m, out)?;
    put_flow_mod_terms(m, out)?;
    put_flow_mod_filter(m, out)?;
    put_match(m.fields.as_slice(), out)?;
    put_instrs(m.instrs.as_slice(), out)
}

/// A FLOW_MOD with this match and these instructions, and with the numbers at the front of a body.
#[tactic(auto, unfolding(crate::specs::Decoding::flow_mod_of))]
fn flow_mod_of(fields: Fields, instrs: Instrs, body: &[u8]) -> FlowMod
    requires { 40 ≤ length body.now }
    ensures { result ≡ flow_mod_of fields instrs body.now }
{
    FlowMod {
        cookie: u64_at(body, 0),
        cookie_mask: u64_at(body, 8),
        table: u8_at(body, 16),
        command: u8_at(body, 17),
        idle: u16_at(body, 18),
        hard: u16_at(body, 20),
        priority: u16_at(body, 22),
        buffer: u32_at(body, 24),
        out_port: u32_at(body, 28),
        out_group: u32_at(body, 32),
        flags: u16_at(body, 36),
        fields,
        instrs,
    }
}

/// Reads the body of a FLOW_MOD.
#[tactic(auto, unfolding(crate::specs::Decoding::flow_mod_at))]
pub fn read_flow_mod(alloc: Global, body: &[u8]) -> Result<Message, PartRefused>
    requires { length body.now < 2 ^ 16 }
    ensures exact { Gives (λ m. m) result (flow_mod_at body.now) }
    ensures wrong_size { length body.now < 40 → IfErr result (λ e. e ≢ PartRefused.Memory) }
{
    if let Err(fault) = at_least(40, body) {
        return Err(PartRefused::At(fault));
    }
    let (_, behind) = body.split_at(40);
    let (fields, taken) = get_match_at(alloc, 48, behind)?;
    let (_, rest) = behind.split_at(taken);
    let instrs = get_instrs_at(alloc, 48 + taken as u32, rest)?;
    Ok(Message::FlowMod(flow_mod_of(fields, instrs, body)))
}
