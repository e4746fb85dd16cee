//! The networks of VLANs between which packets are routed.

ghost use Rattle.std.specs.Prelude.{◌≡◌, ◌<◌, ◌∷◌, ℕ, IfOk, None, codes, false, slice_index_or};
ghost use Rattle.std.specs.List.{flat_map, list_any};
ghost use Rattle.conf_types.specs.Lists.{is_among};
ghost use Rattle.conf_types.specs.Families.{is_same_family};
ghost use Rattle.conf_types.specs.Routing.{vips_of};
ghost use Rattle.conf_limits.specs.MetRoutes.{HasRoutes, has_same_route, has_same_route_so_far};
ghost use Rattle.conf_limits.specs.MetVips.{HasVips, met_vips};
ghost use Rattle.conf_rules.specs.Places.{first, nth, under};
ghost use Rattle.conf_rules.specs.Routing.{are_routed, overlap, clash, overlaps_earlier, overlapping_of_vlan, overlapping_vips, is_in_router, shared_of_router, shared_vlans, lies_in, route_site, leads_inside, is_gateway, wrong_route, wrong_routes_of, wrong_routes, repeats_earlier, repeated_of_vlan, repeated_routes};
ghost use Rattle.conf_rules.specs.Rules.{routing_faults};

use crate::met_routes::{MetRoutes, has_route_of, meet_route};
use crate::met_vips::{MetVips, meet_vips, met_vips};
use crate::numbered::Numbered;
use crate::routed::Joined;
use conf_resolve::{OrderedConf, PlacedVlan, Resolved};
use conf_rules::{Found, broken, nth, router_site, see_all, seen_once, under};
use conf_shape::{ConfCause, ConfFault, RawRouter};
use conf_types::{Ip, Net, Route, Router, Vlan};
use net_base::{Names, NoMemory, TryCopy, Vid};
use std::alloc::Global;
use std::collections::{HashMap, HashSet};

/// Whether some address is of both.
fn overlap(a: &Net, b: &Net) -> bool
    ensures { result ≡ overlap a.now b.now }
{
    if a.len() <= b.len() {
        a.holds(b.address())
    } else {
        b.holds(a.address())
    }
}

/// Whether some address is of both, and they aren't both link-local: so may networks of different VLANs
/// not stand.
fn clash(a: &Net, b: &Net) -> bool
    ensures { result ≡ clash a.now b.now }
{
    overlap(a, b) && !(a.is_link_local() && b.is_link_local())
}

fn overlaps_some(others: &[Net], vip: &Net) -> bool
    ensures { result ≡ list_any (λ other. overlap other vip.now) others.now }
{
    others.iter().any(|other| overlap(other, vip))
}

fn clashes_some(others: &[Net], vip: &Net) -> bool
    ensures { result ≡ list_any (λ other. clash other vip.now) others.now }
{
    others.iter().any(|other| clash(other, vip))
}

/// Whether a VIP clashes with one of these VLANs' that was met.
fn clashes_met(met: &MetVips, vids: &[Vid], vip: &Net) -> bool
    ensures { result ≡ list_any (λ n. list_any (λ other. clash other vip.now) (met_vips met.now n)) vids.now }
{
    vids.iter()
        .any(|vid| clashes_some(met_vips(met, *vid), vip))
}

fn overlaps_earlier(
    conf: &Resolved,
    met: &MetVips,
    vids: &[Vid],
    earlier: &[Vlan],
    vlan: &Vlan,
    vips: &[Net],
    vip: &Net,
) -> bool
    requires met { HasVips met.now earlier.now }
    requires vids { (n : ℕ) → is_among vids.now n ≡ are_routed conf.now n vlan.now.vid }
    ensures { result ≡ overlaps_earlier conf.now (earlier.now, vlan.now) (vips.now, vip.now) }
{
    clashes_met(met, vids, vip) || overlaps_some(vips, vip)
}

/// Where a VIP of a VLAN is written.
fn vip_site(alloc: Global, placed: &PlacedVlan, at: usize) -> Result<Names, NoMemory>
    ensures { IfOk result (λ site. site ≡ nth (under placed.now.site (codes "faucet_vips")) at) }
{
    let site = under(alloc, placed.site.copy(alloc)?, "faucet_vips")?;
    nth(alloc, site, at)
}

#[tactic(auto, using(conf_rules::proofs::First::first_rules))]
fn overlapping_of_vlan(
    alloc: Global,
    joined: &Joined,
    placed: &PlacedVlan,
    met: &MetVips,
    earlier: &[Vlan],
    vlan: &Vlan,
) -> Found
    requires { HasVips met.now earlier.now }
    ensures { IfOk result (λ found. found ≡ first (overlapping_of_vlan joined.now.conf.now (placed.now, (earlier.now, vlan.now)))) }
{
    let vips = vlan.vips.as_slice();
    if vips.is_empty() {
        return Ok(None);
    }
    let made = joined.routed_vids(alloc, vlan.vid)?;
    let vids = made.as_slice();
    for (i, vip) in vips.iter().enumerate() {
        if overlaps_earlier(joined.conf(), met, vids, earlier, vlan, &vips[..i], vip) {
            return broken(alloc, ConfCause::Conflict(12), vip_site(alloc, placed, i)?);
        }
    }
    Ok(None)
}

/// VIP networks that packets are routed between don't overlap, but link-local ones of different VLANs
/// may.
#[tactic(auto, using(conf_rules::proofs::First::zip_rules))]
fn overlapping_vips(alloc: Global, ordered: &OrderedConf, conf: &Resolved) -> Found
    ensures { IfOk result (λ found. found ≡ first (overlapping_vips ordered.now conf.now)) }
{
    let vlans = conf.vlans().as_slice();
    let joined = Joined::of(alloc, conf)?;
    let mut met = HashMap::new(alloc);
    for (i, placed) in ordered.vlans.as_slice().iter().enumerate() {
        let Some(vlan) = vlans.get(i) else {
            return Ok(None);
        };
        if let Some(found) = overlapping_of_vlan(alloc, &joined, placed, &met, &vlans[..i], vlan)? {
            return Ok(Some(found));
        }
        meet_vips(alloc, &mut met, vlan.vid, vlan.vips.as_slice())?;
    }
    Ok(None)
}

/// Whether a VLAN is in one of the routers, of whose VLANs there is a table.
fn is_in_router(routed: &[bool; 4096], routers: &[Router], vid: Vid) -> bool
    requires { (n : ℕ) → n < 4096 → slice_index_or routed.now n false ≡ list_any (is_in_router n) routers.now }
    ensures { result ≡ list_any (is_in_router vid) routers.now }
{
    routed[usize::from(vid.get())]
}

#[tactic(auto, using(conf_rules::proofs::First::first_rules))]
fn shared_of_router(
    alloc: Global,
    ordered: &OrderedConf,
    raw: &RawRouter,
    routed: &[bool; 4096],
    earlier: &[Router],
    router: &Router,
) -> Found
    requires { (n : ℕ) → n < 4096 → slice_index_or routed.now n false ≡ list_any (is_in_router n) earlier.now }
    ensures { IfOk result (λ found. found ≡ first (shared_of_router ordered.now (raw.now, (earlier.now, router.now)))) }
{
    for (i, name) in raw.vlans.as_slice().iter().enumerate() {
        if let Some(vid) = ordered.vid_of(name) {
            if is_in_router(routed, earlier, vid) {
                let site = under(alloc, router_site(alloc, raw)?, "vlans")?;
                return broken(alloc, ConfCause::Conflict(13), nth(alloc, site, i)?);
            }
        }
    }
    Ok(None)
}

/// A VLAN is in at most one router.
#[tactic(auto, using(conf_rules::proofs::First::zip_rules))]
fn shared_vlans(alloc: Global, ordered: &OrderedConf, conf: &Resolved) -> Found
    ensures { IfOk result (λ found. found ≡ first (shared_vlans ordered.now conf.now)) }
{
    let routers = conf.routers().as_slice();
    let mut routed = seen_once(None);
    for (i, raw) in ordered.routers.as_slice().iter().enumerate() {
        let Some(router) = routers.get(i) else {
            return Ok(None);
        };
        if let Some(found) = shared_of_router(
            alloc,
            ordered,
            raw,
            &routed,
            &routers[..i],
            router,
        )? {
            return Ok(Some(found));
        }
        see_all(&mut routed, router.vlans.as_slice());
    }
    Ok(None)
}

/// Whether the first network equals the second or lies inside it.
fn lies_in(a: &Net, b: &Net) -> bool
    ensures { result ≡ lies_in a.now b.now }
{
    b.len() <= a.len() && b.holds(a.address())
}

fn lies_in_some(dst: &Net, vips: &[Net]) -> bool
    ensures { result ≡ list_any (lies_in dst.now) vips.now }
{
    vips.iter().any(|vip| lies_in(dst, vip))
}

fn leads_into(conf: &Resolved, numbered: &Numbered, vid: Vid, dst: &Net) -> bool
    requires { numbered.now.conf.now ≡ conf.now }
    ensures { result ≡ list_any (lies_in dst.now) (vips_of conf.now vid) }
{
    match numbered.vlan(vid) {
        Some(vlan) => lies_in_some(dst, vlan.vips.as_slice()),
        None => false,
    }
}

fn leads_into_some(conf: &Resolved, numbered: &Numbered, vids: &[Vid], dst: &Net) -> bool
    requires { numbered.now.conf.now ≡ conf.now }
    ensures { result ≡ list_any (λ vid. list_any (lies_in dst.now) (vips_of conf.now vid)) vids.now }
{
    vids.iter().any(|vid| leads_into(conf, numbered, *vid, dst))
}

/// Whether a route leads into a VIP network that packets of the VLAN are routed to.
#[tactic(auto, using(conf_rules::proofs::First::any_rules))]
fn leads_inside(conf: &Resolved, numbered: &Numbered, vid: Vid, dst: &Net) -> bool
    requires { numbered.now.conf.now ≡ conf.now }
    ensures { result ≡ leads_inside conf.now vid dst.now }
{
    match numbered.router(vid) {
        Some(router) => leads_into_some(conf, numbered, router.vlans.as_slice(), dst),
        None => leads_into_some(conf, numbered, &[vid], dst),
    }
}

fn is_same_family(a: Ip, b: Ip) -> bool
    ensures { result ≡ is_same_family a b }
{
    a.family().width == b.family().width
}

/// Where a key of a VLAN's route is written.
fn route_site(alloc: Global, placed: &PlacedVlan, at: usize, key: &str) -> Result<Names, NoMemory>
    ensures { IfOk result (λ site. site ≡ route_site (nth (under placed.now.site (codes "routes")) at) key.now) }
{
    let site = under(alloc, placed.site.copy(alloc)?, "routes")?;
    let site = under(alloc, nth(alloc, site, at)?, "route")?;
    under(alloc, site, key)
}

/// Whether a route's gateway is a neighbour of the VLAN, of the family of what the route leads to.
fn is_gateway(vlan: &Vlan, route: &Route) -> bool
    ensures { result ≡ is_gateway vlan.now route.now }
{
    vlan.is_neighbour_address(route.gw) && is_same_family(route.gw, route.dst.address())
}

fn wrong_route(
    alloc: Global,
    conf: &Resolved,
    numbered: &Numbered,
    placed: &PlacedVlan,
    vlan: &Vlan,
    at: usize,
    route: &Route,
) -> Found
    requires { numbered.now.conf.now ≡ conf.now }
    ensures { IfOk result (λ found. found ≡ first (wrong_route conf.now vlan.now (nth (under placed.now.site (codes "routes")) at, route.now))) }
{
    if leads_inside(conf, numbered, vlan.vid, &route.dst) {
        let site = route_site(alloc, placed, at, "ip_dst")?;
        return broken(alloc, ConfCause::Conflict(14), site);
    }
    if !is_gateway(vlan, route) {
        let site = route_site(alloc, placed, at, "ip_gw")?;
        return broken(alloc, ConfCause::Conflict(14), site);
    }
    Ok(None)
}

#[tactic(auto, using(conf_rules::proofs::First::first_rules))]
fn wrong_routes_of(
    alloc: Global,
    conf: &Resolved,
    numbered: &Numbered,
    placed: &PlacedVlan,
    vlan: &Vlan,
) -> Found
    requires { numbered.now.conf.now ≡ conf.now }
    ensures { IfOk result (λ found. found ≡ first (wrong_routes_of conf.now (placed.now, vlan.now))) }
{
    for (i, route) in vlan.routes.as_slice().iter().enumerate() {
        if let Some(found) = wrong_route(alloc, conf, numbered, placed, vlan, i, route)? {
            return Ok(Some(found));
        }
    }
    Ok(None)
}

/// A route leads into no VIP network that packets of its VLAN are routed to, and its gateway is a
/// neighbour of its VLAN, of the family of what it leads to.
#[tactic(auto, using(conf_rules::proofs::First::zip_rules))]
fn wrong_routes(alloc: Global, ordered: &OrderedConf, conf: &Resolved) -> Found
    ensures { IfOk result (λ found. found ≡ first (wrong_routes ordered.now conf.now)) }
{
    let vlans = conf.vlans().as_slice();
    let numbered = Numbered::of(conf);
    for (i, placed) in ordered.vlans.as_slice().iter().enumerate() {
        let Some(vlan) = vlans.get(i) else {
            return Ok(None);
        };
        if let Some(found) = wrong_routes_of(alloc, conf, &numbered, placed, vlan)? {
            return Ok(Some(found));
        }
    }
    Ok(None)
}

fn repeats_earlier(
    conf: &Resolved,
    met: &MetRoutes,
    vids: &[Vid],
    earlier: &[Vlan],
    vlan: &Vlan,
    routes: &[Route],
    route: &Route,
) -> bool
    requires met { HasRoutes met.now (has_same_route_so_far earlier.now vlan.now.vid routes.now) }
    requires vids { (n : ℕ) → is_among vids.now n ≡ are_routed conf.now n vlan.now.vid }
    ensures { result ≡ repeats_earlier conf.now (earlier.now, vlan.now) (routes.now, route.now) }
{
    has_route_of(met, vids, route)
}

#[tactic(auto, using(conf_rules::proofs::First::first_rules))]
fn repeated_of_vlan(
    alloc: Global,
    joined: &Joined,
    placed: &PlacedVlan,
    met: &mut MetRoutes,
    earlier: &[Vlan],
    vlan: &Vlan,
) -> Found
    requires { HasRoutes met.old (has_same_route earlier.now) }
    ensures found { IfOk result (λ found. found ≡ first (repeated_of_vlan joined.now.conf.now (placed.now, (earlier.now, vlan.now)))) }
    ensures met { IfOk result (λ found. found ≡ None → HasRoutes met.new (has_same_route_so_far earlier.now vlan.now.vid vlan.now.routes)) }
{
    let routes = vlan.routes.as_slice();
    if routes.is_empty() {
        return Ok(None);
    }
    let made = joined.routed_vids(alloc, vlan.vid)?;
    let vids = made.as_slice();
    for (i, route) in routes.iter().enumerate() {
        if repeats_earlier(joined.conf(), met, vids, earlier, vlan, &routes[..i], route) {
            let site = route_site(alloc, placed, i, "ip_dst")?;
            return broken(alloc, ConfCause::Duplicate, site);
        }
        meet_route(met, vlan.vid, route)?;
    }
    Ok(None)
}

/// Routes that packets are routed by lead to different networks.
#[tactic(auto, using(conf_rules::proofs::First::zip_rules))]
fn repeated_routes(alloc: Global, ordered: &OrderedConf, conf: &Resolved) -> Found
    ensures { IfOk result (λ found. found ≡ first (repeated_routes ordered.now conf.now)) }
{
    let vlans = conf.vlans().as_slice();
    let joined = Joined::of(alloc, conf)?;
    let mut met = HashSet::new(alloc);
    for (i, placed) in ordered.vlans.as_slice().iter().enumerate() {
        let Some(vlan) = vlans.get(i) else {
            return Ok(None);
        };
        if let Some(found) = repeated_of_vlan(
            alloc,
            &joined,
            placed,
            &mut met,
            &vlans[..i],
            vlan,
        )? {
            return Ok(Some(found));
        }
    }
    Ok(None)
}

/// The first place where one of rules 12 to 15 is broken, rule by rule; `None` where none is. The only
/// error is that memory runs out.
#[tactic(auto, using(conf_rules::proofs::First::first_rules))]
pub fn find_routing_fault(
    alloc: Global,
    ordered: &OrderedConf,
    conf: &Resolved,
) -> Result<Option<ConfFault>, NoMemory>
    ensures { IfOk result (λ fault. fault ≡ first (routing_faults ordered.now conf.now)) }
{
    if let Some(found) = overlapping_vips(alloc, ordered, conf)? {
        return Ok(Some(found));
    }
    if let Some(found) = shared_vlans(alloc, ordered, conf)? {
        return Ok(Some(found));
    }
    if let Some(found) = wrong_routes(alloc, ordered, conf)? {
        return Ok(Some(found));
    }
    repeated_routes(alloc, ordered, conf)
}
