ghost use Rattle.std.specs.Prelude.{◌≤◌};
ghost use Rattle.faucet_top.specs.Given.{GivesBench};
ghost use Rattle.faucet_top.specs.Status.{number_of_status};

use crate::deliver::{Status, deliver_measured, deliver_out_of_memory};
use crate::units::Units;
use bench_story::measure;
use fg_outside::Sink;
use std::alloc::Global;

/// Measures a controller by the story in which so many hosts come, and writes the line of what was measured.
pub fn measure_story<O: Sink, E: Sink>(
    alloc: Global,
    hosts: u32,
    out: &mut O,
    err: &mut E,
) -> Status
    ensures gives { GivesBench hosts (number_of_status result) (O.wrote out.old) (O.wrote out.new) (E.wrote err.old) (E.wrote err.new)
        (O.faults out.old) (O.faults out.new) (E.faults err.old) (E.faults err.new) }

    ensures out_faults { O.faults out.old ≤ O.faults out.new }
    ensures err_faults { E.faults err.old ≤ E.faults err.new }
{
    match measure(alloc, hosts, &mut Units::new()) {
        Ok(measured) => deliver_measured(out, measured),
        Err(_) => deliver_out_of_memory(err),
    }
}
