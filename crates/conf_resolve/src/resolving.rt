ghost use Rattle.std.specs.Prelude.{◌≡◌, map, option_and_then, IfOk};
ghost use Rattle.conf_resolve.specs.Resolved.{vlan_of, peer_of, router_of, resolved};

use crate::numbers::{acl_names, vids_of, vids_once};
use crate::ordered::{OrderedConf, PlacedVlan};
use crate::ports::resolve_dps;
use crate::resolved::Resolved;
use crate::rules::resolve_acls;
use conf_shape::{RawBgp, RawRouter, RawVlan};
use conf_types::{BgpConf, Router, Routers, Vids, Vlan, Vlans};
use net_base::{NoMemory, TryCopy};
use std::alloc::Global;

fn resolve_vlan(alloc: Global, vlan: &RawVlan) -> Result<Vlan, NoMemory>
    ensures { IfOk result (λ made. made ≡ vlan_of vlan.now) }
{
    Ok(Vlan {
        vid: vlan.vid,
        name: vlan.names.name.copy(alloc)?,
        description: vlan.names.description.copy(alloc)?,
        mac: vlan.mac,
        vips: vlan.vips.copy(alloc)?,
        routes: vlan.routes.copy(alloc)?,
        acls: acl_names(alloc, &vlan.acls)?,
        max_hosts: vlan.max_hosts,
        unicast_flood: vlan.unicast_flood,
    })
}

fn resolve_vlans(alloc: Global, vlans: &[PlacedVlan]) -> Result<Vlans, NoMemory>
    ensures { IfOk result (λ made. made ≡ map (λ v. vlan_of v.vlan) vlans.now) }
{
    let mut made = Vlans::new(alloc);
    for placed in vlans {
        made.push(resolve_vlan(alloc, &placed.vlan)?)?;
    }
    Ok(made)
}

fn routed(alloc: Global, conf: &OrderedConf, router: &RawRouter) -> Result<Vids, NoMemory>
    ensures { IfOk result (λ vids. vids ≡ (router_of conf.now router.now).vlans) }
{
    let vids = vids_of(alloc, conf, router.vlans.as_slice())?;
    vids_once(alloc, vids.as_slice())
}

/// The peer in the VLAN that is named; none where no VLAN has the name.
fn peer_of(conf: &OrderedConf, bgp: &RawBgp) -> Option<BgpConf>
    ensures { result ≡ peer_of conf.now bgp.now }
{
    match conf.vid_of(&bgp.vlan) {
        Some(vlan) => Some(BgpConf {
            our_as: bgp.our_as,
            neighbor_as: bgp.neighbor_as,
            routerid: bgp.routerid,
            vlan,
        }),
        None => None,
    }
}

fn router_peer(conf: &OrderedConf, router: &RawRouter) -> Option<BgpConf>
    ensures { result ≡ option_and_then (peer_of conf.now) router.now.bgp }
{
    match &router.bgp {
        Some(bgp) => peer_of(conf, bgp),
        None => None,
    }
}

fn resolve_router(alloc: Global, conf: &OrderedConf, router: &RawRouter) -> Result<Router, NoMemory>
    ensures { IfOk result (λ made. made ≡ router_of conf.now router.now) }
{
    Ok(Router {
        name: router.name.copy(alloc)?,
        vlans: routed(alloc, conf, router)?,
        bgp: router_peer(conf, router),
    })
}

fn resolve_routers(
    alloc: Global,
    conf: &OrderedConf,
    routers: &[RawRouter],
) -> Result<Routers, NoMemory>
    ensures { IfOk result (λ made. made ≡ map (router_of conf.now) routers.now) }
{
    let mut made = Routers::new(alloc);
    for router in routers {
        made.push(resolve_router(alloc, conf, router)?)?;
    }
    Ok(made)
}

/// What a raw configuration in order stands for: names as numbers. A name that nothing has stands
/// for nothing in a list of VLANs, for no peer as the VLAN of a BGP peer, and for the interface
/// itself as a mirrored port or the far end of a stack link.
pub fn resolve(alloc: Global, conf: &OrderedConf) -> Result<Resolved, NoMemory>
    ensures { IfOk result (λ made. made ≡ resolved conf.now) }
{
    let dps = resolve_dps(alloc, conf)?;
    let vlans = resolve_vlans(alloc, conf.vlans.as_slice())?;
    let acls = resolve_acls(alloc, conf.acls.as_slice())?;
    let routers = resolve_routers(alloc, conf, conf.routers.as_slice())?;
    Ok(Resolved::new(dps, vlans, acls, routers))
}
