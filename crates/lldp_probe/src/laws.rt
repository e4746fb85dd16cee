//! Laws of the definitions: each function is empty, and its contract is the law.

ghost use Rattle.std.specs.Prelude.{◌≡◌, ◌^◌, ◌<◌, ℕ, List};
ghost use Rattle.net_base.specs.declared.numbers.DpId.{DpId};
ghost use Rattle.lldp_probe.specs.declared.frame.Probe.{Probe};
ghost use Rattle.lldp_probe.specs.Probes.{SpellsProbe, first_probe, probe_frame};

/// A frame is the probe of one port of one datapath at most, and the probe that is sent from a port is that port's.
pub fn a_probe_is_read_again()
    ensures one { (a b : Probe) (frame : List ℕ) → SpellsProbe a frame → SpellsProbe b frame → a ≡ b }
    ensures sent { (dp : DpId) (port ttl : ℕ) → dp.0 < 2 ^ 64 → port < 2 ^ 32 → SpellsProbe (record { dp = dp; port = port }) (probe_frame dp port ttl) }
{}

/// The probe of the first port of the first datapath, byte by byte.
pub fn the_first_probe_is_written()
    ensures { probe_frame (record { 0 = 1 }) 1 15 ≡ first_probe }
{}
