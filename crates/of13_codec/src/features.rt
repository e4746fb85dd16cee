ghost use Rattle.std.specs.Prelude.{◌≡◌, ◌≢◌, ◌≤◌, ◌<◌, ◌+◌, ◌++◌, ◌^◌, length, Ok, OnOk, IfOk, IfErr};
ghost use Rattle.of_wire.specs.Reading.{Gives};
ghost use Rattle.of13_codec.specs.Decoding.{features_at};
ghost use Rattle.of13_codec.specs.Messages.{features_bytes};

use crate::message::Message;
use crate::sizes::exactly;
use net_base::{Bytes, DpId, NoMemory, TryCopy};
use of_wire::{PartRefused, put_number, put_zeros, u8_at, u32_at, u64_at};
use std::alloc::Global;

/// What a switch says of itself (OpenFlow 1.3, 7.3.1).
#[derive(Clone, Copy, Debug, PartialEq, Eq)]
pub struct FeaturesReply {
    pub dp: DpId,
    pub n_buffers: u32,
    pub n_tables: u8,
    pub auxiliary: u8,
    pub capabilities: u32,
}

impl TryCopy for FeaturesReply {
    fn copy(&self, _alloc: Global) -> Result<FeaturesReply, NoMemory>
        ensures { result ≡ Ok self.now }
    {
        Ok(*self)
    }
}

/// Writes the body of a FEATURES_REPLY.
pub fn put_features(m: &FeaturesReply, out: &mut Bytes) -> Result<(), NoMemory>
    ensures { OnOk result (out.new ≡ out.old ++ features_bytes m.now) }
{
    put_number(out, u128::from(m.dp.0), 8)?;
    put_number(out, u128::from(m.n_buffers), 4)?;
    put_number(out, u128::from(m.n_tables), 1)?;
    put_number(out, u128::from(m.auxiliary), 1)?;
    put_zeros(out, 2)?;
    put_number(out, u128::from(m.capabilities), 4)?;
    put_zeros(out, 4)
}

/// Reads the body of a FEATURES_REPLY.
#[tactic(auto, unfolding(crate::specs::Decoding::features_at))]
pub fn read_features(body: &[u8]) -> Result<Message, PartRefused>
    requires { length body.now < 2 ^ 16 }
    ensures exact { Gives (λ m. m) result (features_at body.now) }
    ensures sure { IfErr result (λ e. e ≢ PartRefused.Memory) }
{
    if let Err(fault) = exactly(24, body) {
        return Err(PartRefused::At(fault));
    }
    Ok(Message::FeaturesReply(FeaturesReply {
        dp: DpId(u64_at(body, 0)),
        n_buffers: u32_at(body, 8),
        n_tables: u8_at(body, 12),
        auxiliary: u8_at(body, 13),
        capabilities: u32_at(body, 16),
    }))
}
