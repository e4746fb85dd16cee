ghost use Rattle.std.specs.Prelude.{◌≡◌, ◌++◌, true, None, IfOk, IfSome, OnOk};
ghost use Rattle.net_base.specs.Numbers.{IsPortNo};
ghost use Rattle.lldp_probe.specs.declared.frame.Probe.{Probe};
ghost use Rattle.lldp_probe.specs.Probes.{IsLaidOut, SpellsProbe, ids, is_laid_out, probe_frame, probe_of};

use net_base::{Bytes, DpId, NoMemory, PortNo};
use of_wire::{number_at, put_number, u32_at, u64_at};
use std::alloc::Global;

/// The group address of the nearest bridges (IEEE 802.1AB-2016, 7.1).
const NEAREST_BRIDGES: u128 = 0x0180_c200_000e;

/// The address that probes are sent from, which is administered locally.
const SENDER: u128 = 0x0e00_0000_0001;

/// The EtherType of LLDP (7.3).
const LLDP: u128 = 0x88cc;

/// What stands before the identifier of a datapath: a chassis in 9 bytes, named as the sender likes (8.5.2).
const CHASSIS: u128 = 0x02_0907;

/// What stands before the number of a port: one in 5 bytes, named as the sender likes (8.5.3).
const PORT: u128 = 0x04_0507;

/// What stands before the seconds that a probe counts for (8.5.4).
const TIME_TO_LIVE: u128 = 0x0602;

/// How many bytes a probe takes up to its time to live.
const LEAST: usize = 36;

/// Where the identifier of the datapath stands.
const DP_AT: usize = 17;

/// Where the number of the port stands.
const PORT_AT: usize = 28;

/// Which port of which datapath a probe was sent from.
#[derive(Clone, Copy, Debug, PartialEq, Eq)]
pub struct Probe {
    pub dp: DpId,
    pub port: PortNo,
}

/// Writes the frame up to the port's number.
fn put_ids(out: &mut Bytes, dp: DpId, port: PortNo) -> Result<(), NoMemory>
    ensures { OnOk result (out.new ≡ out.old ++ ids dp port) }
{
    put_number(out, NEAREST_BRIDGES, 6)?;
    put_number(out, SENDER, 6)?;
    put_number(out, LLDP, 2)?;
    put_number(out, CHASSIS, 3)?;
    put_number(out, u128::from(dp.0), 8)?;
    put_number(out, PORT, 3)?;
    put_number(out, u128::from(port.get()), 4)
}

/// The probe that is sent from a port of a datapath, which counts for so many seconds (IEEE 802.1AB-2016, 8).
/// All numbers stand with their highest byte first.
pub fn probe_frame(alloc: Global, dp: DpId, port: PortNo, ttl: u16) -> Result<Bytes, NoMemory>
    ensures { IfOk result (λ frame. frame ≡ probe_frame dp port ttl) }
{
    let mut out = Bytes::new(alloc);
    put_ids(&mut out, dp, port)?;
    put_number(&mut out, TIME_TO_LIVE, 2)?;
    put_number(&mut out, u128::from(ttl), 2)?;
    put_number(&mut out, 0, 2)?;
    Ok(out)
}

/// Whether what is the same in every probe stands in its places.
fn is_laid_out(frame: &[u8]) -> bool
    ensures test { result ≡ is_laid_out frame.now }
    ensures yes { result ≡ true → IsLaidOut frame.now }
    ensures no { IsLaidOut frame.now → result ≡ true }
{
    frame.len() >= LEAST
        && number_at(frame, 0, 6) == NEAREST_BRIDGES
        && number_at(frame, 12, 2) == LLDP
        && number_at(frame, 14, 3) == CHASSIS
        && number_at(frame, 25, 3) == PORT
        && number_at(frame, 32, 2) == TIME_TO_LIVE
}

/// Which port of which datapath a frame was sent from as a probe, whatever its source and its time to live;
/// `None` exactly where it is no probe, or its port has no number of one.
pub fn probe_read(frame: &[u8]) -> Option<Probe>
    ensures exact { result ≡ probe_of frame.now }
    ensures some { IfSome result (λ probe. SpellsProbe probe frame.now) }
    ensures none { result ≡ None → (probe : Probe) → IsPortNo probe.port → SpellsProbe probe frame.now → ⊥ }
{
    if !is_laid_out(frame) {
        return None;
    }
    let port = PortNo::new(u32_at(frame, PORT_AT))?;
    Some(Probe {
        dp: DpId(u64_at(frame, DP_AT)),
        port,
    })
}
