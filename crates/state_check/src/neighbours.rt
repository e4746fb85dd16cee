//! What holds of the neighbours of a valid state.

ghost use Rattle.std.specs.Prelude.{◌≡◌, ◌↔◌, ◌==◌, true};
ghost use Rattle.std.specs.List.{AllByRecursion, list_any};
ghost use Rattle.conf_types.specs.Groups.{group_of};
ghost use Rattle.conf_types.specs.Lists.{EachBefore};
ghost use Rattle.conf_types.specs.Networks.{is_neighbour_address};
ghost use Rattle.conf_types.specs.Routing.{vips_of};
ghost use Rattle.conf_types.specs.State.{IsNeighbour, IsSameNeighbour};
ghost use Rattle.packet_way.specs.Present.{state_of};

use conf_types::{Conf, Ip, NeighRec};
use net_base::DpId;
use packet_way::Now;

fn has_address(conf: &Conf, neighbour: &NeighRec) -> bool
    ensures { result ≡ is_neighbour_address (vips_of conf.now neighbour.now.vid) neighbour.now.ip }
{
    match conf.vlan(neighbour.vid) {
        Some(vlan) => vlan.is_neighbour_address(neighbour.ip),
        None => false,
    }
}

/// Whether some datapath of a group runs.
fn has_running(conf: &Conf, running: &[DpId], group: DpId) -> bool
    ensures { result ≡ list_any (λ dp. (group_of conf.now dp).0 == group.0) running.now }
{
    running.iter().any(|dp| conf.group_number(*dp).0 == group.0)
}

fn is_neighbour(conf: &Conf, now: &Now, neighbour: &NeighRec) -> bool
    ensures { (result ≡ true) ↔ IsNeighbour conf.now (state_of now.now) neighbour.now }
{
    has_address(conf, neighbour) && has_running(conf, now.running.as_slice(), neighbour.group)
}

pub(crate) fn are_neighbours(conf: &Conf, now: &Now, neighbours: &[NeighRec]) -> bool
    ensures { (result ≡ true) ↔ AllByRecursion (IsNeighbour conf.now (state_of now.now)) neighbours.now }
{
    match neighbours {
        [] => true,
        [neighbour, more @ ..] => {
            is_neighbour(conf, now, neighbour) && are_neighbours(conf, now, more)
        }
    }
}

fn is_same_ip(a: Ip, b: Ip) -> bool
    ensures { (result ≡ true) ↔ (a ≡ b) }
{
    a.is_same(b)
}

/// Whether two neighbours have one key.
fn is_same_neighbour(a: &NeighRec, b: &NeighRec) -> bool
    ensures { (result ≡ true) ↔ IsSameNeighbour a.now b.now }
{
    a.group.0 == b.group.0 && a.vid.get() == b.vid.get() && is_same_ip(a.ip, b.ip)
}

/// Whether no other neighbour has the key of this one.
fn has_own_key(neighbour: &NeighRec, others: &[NeighRec]) -> bool
    ensures { (result ≡ true) ↔ AllByRecursion (λ other. IsSameNeighbour neighbour.now other → ⊥) others.now }
{
    match others {
        [] => true,
        [other, more @ ..] => !is_same_neighbour(neighbour, other) && has_own_key(neighbour, more),
    }
}

/// Whether no two neighbours have one key.
pub(crate) fn have_own_keys(neighbours: &[NeighRec]) -> bool
    ensures { (result ≡ true) ↔ EachBefore (λ a b. IsSameNeighbour a b → ⊥) neighbours.now }
{
    match neighbours {
        [] => true,
        [neighbour, more @ ..] => has_own_key(neighbour, more) && have_own_keys(more),
    }
}
