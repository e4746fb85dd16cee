//! The gateways of routes, which are wanted in each group that runs.

ghost use Rattle.std.specs.Prelude.{◌≡◌, ◌==◌, OnOk};
ghost use Rattle.std.specs.List.{list_any};
ghost use Rattle.conf_types.specs.Groups.{group_of};
ghost use Rattle.ctl_core.specs.Hearing.{begin, want_gateways, want_in, want_routes};

use conf_types::{Conf, Route, Vlan};
use ctl_world::World;
use neighbour_resolve::Neighbours;
use net_base::{DpId, Moment, NoMemory, Vid};
use std::alloc::Global;

fn want_routes(neighbours: &mut Neighbours, group: DpId, vid: Vid, routes: &[Route], moment: Moment)
    ensures { neighbours.new ≡ want_routes group vid routes.now moment neighbours.old }
{
    if let [route, more @ ..] = routes {
        let _ = neighbours.want(group, vid, route.gw, moment);
        want_routes(neighbours, group, vid, more, moment);
    }
}

/// The gateways of VLANs are wanted, VLAN by VLAN, in the order of their routes.
fn want_gateways(neighbours: &mut Neighbours, group: DpId, vlans: &[Vlan], moment: Moment)
    ensures { neighbours.new ≡ want_gateways group vlans.now moment neighbours.old }
{
    if let [vlan, more @ ..] = vlans {
        want_routes(neighbours, group, vlan.vid, vlan.routes.as_slice(), moment);
        want_gateways(neighbours, group, more, moment);
    }
}

fn has_any_of(conf: &Conf, running: &[DpId], group: DpId) -> bool
    ensures { result ≡ list_any (λ dp. (group_of conf.now dp).0 == group.0) running.now }
{
    running.iter().any(|dp| conf.group_number(*dp) == group)
}

/// The gateways of all VLANs are wanted in a group of which a datapath runs.
pub(crate) fn want_in(alloc: Global, world: &mut World, group: DpId) -> Result<(), NoMemory>
    ensures { OnOk result (world.new ≡ want_in group world.old) }
{
    let running = world.running(alloc)?;
    if has_any_of(&world.conf, running.as_slice(), group) {
        let vlans = world.conf.vlans().as_slice();
        want_gateways(&mut world.neighbours, group, vlans, world.moment);
    }
    Ok(())
}

/// A datapath begins to run.
pub(crate) fn begin(alloc: Global, world: &mut World, dp: Option<DpId>) -> Result<(), NoMemory>
    ensures { OnOk result (world.new ≡ begin dp world.old) }
{
    match dp {
        Some(dp) => {
            let group = world.conf.group_number(dp);
            want_in(alloc, world, group)
        }
        None => Ok(()),
    }
}
