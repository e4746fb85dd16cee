ghost use Rattle.std.specs.Prelude.{◌≡◌, ◌≢◌, ◌≤◌, ◌<◌, ◌+◌, ◌++◌, ◌^◌, ℕ, List, length, Ok, OnOk, IfOk, IfErr};
ghost use Rattle.of_wire.specs.Reading.{Gives};
ghost use Rattle.of13_codec.specs.Decoding.{port_of, port_status_at, stats_of};
ghost use Rattle.std.specs.List.{flat_map};
ghost use Rattle.of_wire.specs.Parts.{number};
ghost use Rattle.of13_codec.specs.Messages.{port_bytes, port_front, port_back, port_status_bytes, port_stats_bytes};

use crate::message::Message;
use crate::sizes::exactly;
use net_base::{Bytes, Items, Mac, NoMemory, TryCopy};
use of_wire::{PartRefused, put_number, put_zeros, u8_at, u32_at, u64_at};
use std::alloc::Global;

/// A port of a switch (OpenFlow 1.3, 7.2.1). `name` has 16 bytes, padded with zeros, and `rest` the
/// 24 of the features and speeds.
#[derive(Debug, Drop)]
pub struct PortDesc {
    pub no: u32,
    pub hw: Mac,
    pub name: Bytes,
    pub config: u32,
    pub state: u32,
    pub rest: Bytes,
}

impl TryCopy for PortDesc {
    fn copy(&self, alloc: Global) -> Result<PortDesc, NoMemory> {
        Ok(PortDesc {
            no: self.no,
            hw: self.hw,
            name: self.name.copy(alloc)?,
            config: self.config,
            state: self.state,
            rest: self.rest.copy(alloc)?,
        })
    }
}

/// Ports.
pub type PortDescs = Items<PortDesc>;

/// The counters of a port (OpenFlow 1.3, 7.3.5.6), in the order of the standard from rx_packets on,
/// and for how long it has been there.
#[derive(Clone, Copy, Debug)]
pub struct PortStats {
    pub no: u32,
    pub counters: [u64; 12],
    pub sec: u32,
    pub nsec: u32,
}

impl TryCopy for PortStats {
    fn copy(&self, _alloc: Global) -> Result<PortStats, NoMemory>
        ensures { result ≡ Ok self.now }
    {
        Ok(*self)
    }
}

/// Ports' counters.
pub type PortStatsList = Items<PortStats>;

fn put_port_front(port: &PortDesc, out: &mut Bytes) -> Result<(), NoMemory>
    ensures { OnOk result (out.new ≡ out.old ++ port_front port.now) }
{
    put_number(out, u128::from(port.no), 4)?;
    put_zeros(out, 4)?;
    out.append(&port.hw.0)?;
    put_zeros(out, 2)
}

fn put_port_back(port: &PortDesc, out: &mut Bytes) -> Result<(), NoMemory>
    ensures { OnOk result (out.new ≡ out.old ++ port_back port.now) }
{
    out.append(port.name.as_slice())?;
    put_number(out, u128::from(port.config), 4)?;
    put_number(out, u128::from(port.state), 4)?;
    out.append(port.rest.as_slice())
}

/// Writes a port's description.
#[tactic(auto, unfolding(crate::specs::Messages::port_bytes))]
pub fn put_port(port: &PortDesc, out: &mut Bytes) -> Result<(), NoMemory>
    ensures { OnOk result (out.new ≡ out.old ++ port_bytes port.now) }
{
    put_port_front(port, out)?;
    put_port_back(port, out)
}

/// Writes the body of a PORT_STATUS (OpenFlow 1.3, 7.4.3).
pub fn put_port_status(reason: u8, port: &PortDesc, out: &mut Bytes) -> Result<(), NoMemory>
    ensures { OnOk result (out.new ≡ out.old ++ port_status_bytes reason port.now) }
{
    put_number(out, u128::from(reason), 1)?;
    put_zeros(out, 7)?;
    put_port(port, out)
}

fn put_counters(counters: &[u64], out: &mut Bytes) -> Result<(), NoMemory>
    ensures { OnOk result (out.new ≡ out.old ++ flat_map (number 8) counters.now) }
{
    for counter in counters {
        put_number(out, u128::from(*counter), 8)?;
    }
    Ok(())
}

/// Writes a port's counters.
#[tactic(auto, unfolding(crate::specs::Messages::port_stats_bytes))]
pub fn put_port_stats(stats: &PortStats, out: &mut Bytes) -> Result<(), NoMemory>
    ensures { OnOk result (out.new ≡ out.old ++ port_stats_bytes stats.now) }
{
    put_number(out, u128::from(stats.no), 4)?;
    put_zeros(out, 4)?;
    put_counters(&stats.counters, out)?;
    put_number(out, u128::from(stats.sec), 4)?;
    put_number(out, u128::from(stats.nsec), 4)
}

/// An item of a multipart reply, which takes so many bytes.
pub trait Item: Drop {
    ghost SIZE: { ℕ };

    const SIZE: usize;

    ghost of: { List ℕ → Self };

    ghost bytes_of: { Self → List ℕ };

    /// The item that stands at the front of the bytes.
    fn from_bytes(alloc: Global, bytes: &[u8]) -> Result<Self, NoMemory>
        requires { SIZE ≤ length bytes.now }
        ensures { IfOk result (λ item. item ≡ of bytes.now) };

    /// Writes the item.
    fn put(&self, out: &mut Bytes) -> Result<(), NoMemory>
        ensures { OnOk result (out.new ≡ out.old ++ bytes_of self.now) };
}

/// The port that 64 bytes describe.
#[tactic(auto, unfolding(crate::specs::Decoding::port_of))]
pub fn port_of(alloc: Global, bytes: &[u8]) -> Result<PortDesc, NoMemory>
    requires { 64 ≤ length bytes.now }
    ensures { IfOk result (λ p. p ≡ port_of bytes.now) }
{
    let hw = Mac([
        bytes[8], bytes[9], bytes[10], bytes[11], bytes[12], bytes[13],
    ]);
    let name = Bytes::from_slice(alloc, &bytes[16..32])?;
    let rest = Bytes::from_slice(alloc, &bytes[40..64])?;
    Ok(PortDesc {
        no: u32_at(bytes, 0),
        hw,
        name,
        config: u32_at(bytes, 32),
        state: u32_at(bytes, 36),
        rest,
    })
}

/// Reads the body of a PORT_STATUS.
#[tactic(auto, unfolding(crate::specs::Decoding::port_status_at))]
pub fn read_port_status(alloc: Global, body: &[u8]) -> Result<Message, PartRefused>
    requires { length body.now < 2 ^ 16 }
    ensures exact { Gives (λ m. m) result (port_status_at body.now) }
    ensures wrong_size { length body.now ≢ 72 → IfErr result (λ e. e ≢ PartRefused.Memory) }
{
    if let Err(fault) = exactly(72, body) {
        return Err(PartRefused::At(fault));
    }
    let (_, bytes) = body.split_at(8);
    let port = port_of(alloc, bytes)?;
    Ok(Message::PortStatus {
        reason: u8_at(body, 0),
        port,
    })
}

/// The counters in 112 bytes.
#[tactic(auto, unfolding(crate::specs::Decoding::stats_of))]
pub fn stats_of(bytes: &[u8]) -> PortStats
    requires { 112 ≤ length bytes.now }
    ensures { result ≡ stats_of bytes.now }
{
    PortStats {
        no: u32_at(bytes, 0),
        counters: [
            u64_at(bytes, 8),
            u64_at(bytes, 16),
            u64_at(bytes, 24),
            u64_at(bytes, 32),
            u64_at(bytes, 40),
            u64_at(bytes, 48),
            u64_at(bytes, 56),
            u64_at(bytes, 64),
            u64_at(bytes, 72),
            u64_at(bytes, 80),
            u64_at(bytes, 88),
            u64_at(bytes, 96),
        ],
        sec: u32_at(bytes, 104),
        nsec: u32_at(bytes, 108),
    }
}

impl Item for PortDesc {
    ghost SIZE = { 64 };

    const SIZE: usize = 64;

    ghost of = { port_of };

    ghost bytes_of = { port_bytes };

    fn from_bytes(alloc: Global, bytes: &[u8]) -> Result<PortDesc, NoMemory> {
        port_of(alloc, bytes)
    }

    fn put(&self, out: &mut Bytes) -> Result<(), NoMemory> {
        put_port(self, out)
    }
}

impl Item for PortStats {
    ghost SIZE = { 112 };

    const SIZE: usize = 112;

    ghost of = { stats_of };

    ghost bytes_of = { port_stats_bytes };

    fn from_bytes(_alloc: Global, bytes: &[u8]) -> Result<PortStats, NoMemory>
        requires { 112 ≤ length bytes.now }
        ensures { result ≡ Ok (stats_of bytes.now) }
    {
        Ok(stats_of(bytes))
    }

    fn put(&self, out: &mut Bytes) -> Result<(), NoMemory> {
        put_port_stats(self, out)
    }
}
