ghost use Rattle.std.specs.Prelude.{◌≡◌, ◌<◌, ◌≤◌, All, IfOk, vec_len};
ghost use Rattle.stack_paths.specs.Hops.{AreWays, AllWays};

use crate::choice::next_hops;
use crate::hops::Hop;
use crate::search::distances;
use net_base::NoMemory;
use std::alloc::Global;

/// The ways to one place from each: how many hops there are, and the first of them.
#[derive(Drop)]
pub(crate) struct Ways {
    pub(crate) distances: Vec<Option<u32>>,
    pub(crate) hops: Vec<Option<Hop>>,
}

fn ways_to(alloc: Global, count: usize, hops: &[Hop], target: usize) -> Result<Ways, NoMemory>
    requires small { count ≤ 64 }
    requires target { target < count }
    requires places { All (λ h. (h.from < count) × (h.to < count)) hops.now }
    ensures { IfOk result (λ ways. AreWays hops.now count target ways) }
{
    let distances = distances(alloc, count, hops, target)?;
    let hops = next_hops(alloc, count, hops, distances.as_slice())?;
    Ok(Ways { distances, hops })
}

/// The ways to each place.
pub(crate) fn all_ways(alloc: Global, count: usize, hops: &[Hop]) -> Result<Vec<Ways>, NoMemory>
    requires small { count ≤ 64 }
    requires places { All (λ h. (h.from < count) × (h.to < count)) hops.now }
    ensures len { IfOk result (λ ways. vec_len ways ≡ count) }
    ensures each { IfOk result (λ ways. AllWays hops.now count ways.items) }
{
    let mut ways = Vec::with_capacity(alloc, count)?;
    for target in 0..count {
        ways.push(ways_to(alloc, count, hops, target)?)?;
    }
    Ok(ways)
}
