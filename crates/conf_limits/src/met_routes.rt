//! Where the routes lead that were met so far.

ghost use Rattle.std.specs.Prelude.{◌≡◌, ◌==◌, ◌&&◌, ◌||◌, ℕ, OnOk};
ghost use Rattle.std.specs.List.{list_any};
ghost use Rattle.conf_types.specs.declared.vlan.Route.{Route};
ghost use Rattle.conf_rules.specs.Routing.{is_same_route};
ghost use Rattle.conf_limits.specs.MetRoutes.{destination_of, has_route};

use conf_types::Route;
use net_base::{NoMemory, Vid};
use std::collections::HashSet;

/// The network that a route of a VLAN leads to.
#[derive(Clone, Copy, Debug, PartialEq, Eq, Hash)]
pub(crate) struct Destination {
    pub vid: Vid,
    /// How many bits an address has in the network's family.
    pub width: u8,
    /// The network's address as a number.
    pub value: u128,
    pub len: u8,
}

pub(crate) type MetRoutes = HashSet<Destination>;

fn destination_of(vid: Vid, route: &Route) -> Destination
    ensures { result ≡ destination_of vid route.now }
{
    let ip = route.dst.address();
    Destination {
        vid,
        width: ip.family().width,
        value: ip.value(),
        len: route.dst.len(),
    }
}

/// From now on the route of the VLAN is met.
pub(crate) fn meet_route(met: &mut MetRoutes, vid: Vid, route: &Route) -> Result<(), NoMemory>
    ensures { OnOk result ((n : ℕ) (r : Route) → has_route met.new n r ≡ (has_route met.old n r || (vid == n && is_same_route route.now r))) }
{
    met.insert(destination_of(vid, route))?;
    Ok(())
}

fn has_route(met: &MetRoutes, vid: Vid, route: &Route) -> bool
    ensures { result ≡ has_route met.now vid route.now }
{
    met.contains(&destination_of(vid, route))
}

/// Whether a route of one of the VLANs to the same network was met.
pub(crate) fn has_route_of(met: &MetRoutes, vids: &[Vid], route: &Route) -> bool
    ensures { result ≡ list_any (λ n. has_route met.now n route.now) vids.now }
{
    vids.iter().any(|vid| has_route(met, *vid, route))
}
