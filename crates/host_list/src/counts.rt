//! How many hosts there are at a port, in a VLAN of a datapath, and of a VLAN at a port.

ghost use Rattle.std.specs.Prelude.{◌≡◌, ◌<◌, ◌≤◌, ◌+◌, ◌^◌};
ghost use Rattle.indexmap.specs.IndexMap.{spare};
ghost use Rattle.host_list.specs.Counts.{at_spot, one_at};

use indexmap::IndexMap;
use net_base::DpId;

/// Where hosts are counted: on a datapath, at a port or in a VLAN or both.
#[derive(Clone, Copy, Debug, PartialEq, Eq, Hash)]
pub(crate) struct Spot {
    pub dp: DpId,
    pub port: Option<u32>,
    pub vid: Option<u16>,
}

pub(crate) type Counts = IndexMap<Spot, usize>;

pub(crate) fn count(counts: &Counts, spot: &Spot) -> usize
    ensures { result ≡ at_spot counts.now spot.now }
{
    match counts.get(spot) {
        Some(count) => *count,
        None => 0,
    }
}

pub(crate) fn raise(counts: &mut Counts, spot: Spot)
    requires room { 0 < spare counts.old }
    requires small { at_spot counts.old spot < 2 ^ 63 }
    ensures counts { (q : Spot) → at_spot counts.new q ≡ at_spot counts.old q + one_at spot q }
    ensures spare { spare counts.old ≤ spare counts.new + 1 }
{
    let more = count(counts, &spot) + 1;
    match counts.insert(spot, more) {
        Ok(_) => {}
        Err(_) => {}
    }
}

pub(crate) fn lower(counts: &mut Counts, spot: Spot)
    requires { 0 < at_spot counts.old spot }
    ensures counts { (q : Spot) → at_spot counts.new q + one_at spot q ≡ at_spot counts.old q }
    ensures spare { spare counts.old ≤ spare counts.new + 1 }
{
    let fewer = count(counts, &spot) - 1;
    match counts.insert(spot, fewer) {
        Ok(_) => {}
        Err(_) => {}
    }
}
