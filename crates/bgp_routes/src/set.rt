//! One network of a list of routes in the order of their networks.

ghost use Rattle.std.specs.Prelude.{◌≡◌, ◌≤◌, length, OnOk};
ghost use Rattle.bgp_routes.specs.Sets.{without, place, put};

use crate::networks::{is_before, is_same};
use crate::routes::BgpRoute;
use net_base::{Net4, NoMemory};

/// Takes out the route to a network, if it is there.
pub(crate) fn forget(routes: &mut Vec<BgpRoute>, net: Net4)
    ensures { routes.new.items ≡ without net routes.old.items }
{
    routes.retain(|route| !is_same(&route.dst, &net));
}

/// How many routes stand before a network.
fn place_of(routes: &[BgpRoute], net: &Net4) -> usize
    ensures value { result ≡ place net.now routes.now }
    ensures within { result ≤ length routes.now }
{
    for (i, route) in routes.iter().enumerate() {
        if !is_before(&route.dst, net) {
            return i;
        }
    }
    routes.len()
}

/// Sets a route, in the place of the one to its network, if it is there.
pub(crate) fn put(routes: &mut Vec<BgpRoute>, route: BgpRoute) -> Result<(), NoMemory>
    ensures { OnOk result (routes.new.items ≡ put route routes.old.items) }
{
    forget(routes, route.dst);
    let at = place_of(routes.as_slice(), &route.dst);
    routes.insert(at, route)?;
    Ok(())
}
