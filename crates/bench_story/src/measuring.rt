//! What is measured of the story.

ghost use Rattle.std.specs.Prelude.{◌≡◌, IfOk};
ghost use Rattle.bench_story.specs.Measured.{measured};
ghost use Rattle.bench_story.specs.Story.{StandsFor, opened};

use crate::run::Run;
use conf_types::Tally;
use net_base::NoMemory;
use std::alloc::Global;

/// What is measured of the story with so many hosts.
#[derive(Clone, Copy, Debug)]
pub struct Measured {
    /// The hosts that are known in the end.
    pub hosts: usize,
    /// The batches that hosts led to, each with a barrier.
    pub batches: u64,
    /// The FLOW_MODs in them.
    pub commands: u64,
    /// The values of all bytes that were said, the opening included, in 32 bits.
    pub sum: u32,
}

/// Lets so many hosts come to a controller to which the switch has opened its connection, and measures what it says.
fn measure_hosts<T: Tally>(
    alloc: Global,
    run: &mut Run,
    hosts: u32,
    units: &mut T,
) -> Result<Measured, NoMemory>
    requires { StandsFor run.old opened }
    ensures { IfOk result (λ made. made ≡ measured hosts) }
{
    let opening = run.counts();
    run.bring_hosts(alloc, hosts, units)?;
    let all = run.counts();
    let known = run.known_hosts()?;
    let batches = all.batches - opening.batches;
    let commands = all.commands - opening.commands;
    Ok(Measured {
        hosts: known,
        batches,
        commands,
        sum: all.sum,
    })
}

/// Lets the story with so many hosts happen to a controller, and measures what it says of it.
pub fn measure<T: Tally>(alloc: Global, hosts: u32, units: &mut T) -> Result<Measured, NoMemory>
    ensures { IfOk result (λ made. made ≡ measured hosts) }
{
    let mut run = Run::open(alloc, units)?;
    measure_hosts(alloc, &mut run, hosts, units)
}
