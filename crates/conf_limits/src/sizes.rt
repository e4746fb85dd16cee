//! How much there is of what limits bound, each count as far as a cap.

ghost use Rattle.std.specs.Prelude.{◌≡◌, ◌==◌, ◌+◌, IfOk, length, min, sum_by};
ghost use Rattle.conf_types.specs.Families.{width_of};
ghost use Rattle.conf_types.specs.Lists.{different};
ghost use Rattle.conf_types.specs.Routing.{vips_of, vips_in, routes_of, routes_in};
ghost use Rattle.conf_types.specs.Valid.{route_items};
ghost use Rattle.conf_rules.specs.Limits.{members, routes, gateways_of};
ghost use Rattle.conf_limits.specs.Sizes.{capped, members_among, values_of};

use crate::members::Counted;
use crate::numbered::Numbered;
use conf_resolve::Resolved;
use conf_rules::different_len;
use conf_types::{Dp, Ip, Route, Vlan};
use net_base::{NoMemory, Vid};
use std::alloc::Global;

/// A sum, as far as the cap.
pub(crate) fn add(cap: usize, a: usize, b: usize) -> usize
    ensures { result ≡ min cap (a + b) }
{
    if a >= cap || b >= cap - a { cap } else { a + b }
}

fn add_members(counted: &Counted, cap: usize, dp: &Dp) -> usize
    ensures { result ≡ capped cap (members_among counted.now.vlans.now) dp.now.ports }
{
    dp.ports
        .as_slice()
        .iter()
        .fold(0, |sum, port| add(cap, sum, counted.members(port)))
}

/// How many members the VLANs have on a datapath.
pub(crate) fn members(conf: &Resolved, cap: usize, dp: &Dp) -> usize
    ensures { result ≡ min cap (members conf.now dp.now) }
{
    let counted = Counted::of(conf.vlans().as_slice());
    add_members(&counted, cap, dp)
}

/// How many routes there are.
pub(crate) fn routes(conf: &Resolved, cap: usize) -> usize
    ensures { result ≡ min cap (routes conf.now) }
{
    add_routes(conf, cap)
}

fn add_routes(conf: &Resolved, cap: usize) -> usize
    ensures { result ≡ capped cap (λ v. length v.routes) conf.now.vlans }
{
    conf.vlans()
        .as_slice()
        .iter()
        .fold(0, |sum, vlan| add(cap, sum, vlan.routes.len()))
}

fn vips_of(conf: &Resolved, numbered: &Numbered, vid: Vid) -> usize
    requires { numbered.now.conf.now ≡ conf.now }
    ensures { result ≡ length (vips_of conf.now vid) }
{
    match numbered.vlan(vid) {
        Some(vlan) => vlan.vips.len(),
        None => 0,
    }
}

fn routes_of(conf: &Resolved, numbered: &Numbered, vid: Vid) -> usize
    requires { numbered.now.conf.now ≡ conf.now }
    ensures { result ≡ length (routes_of conf.now vid) }
{
    match numbered.vlan(vid) {
        Some(vlan) => vlan.routes.len(),
        None => 0,
    }
}

fn add_vips(conf: &Resolved, numbered: &Numbered, cap: usize, vids: &[Vid]) -> usize
    requires { numbered.now.conf.now ≡ conf.now }
    ensures { result ≡ capped cap (λ vid. length (vips_of conf.now vid)) vids.now }
{
    vids.iter()
        .fold(0, |sum, vid| add(cap, sum, vips_of(conf, numbered, *vid)))
}

fn add_routes_of(conf: &Resolved, numbered: &Numbered, cap: usize, vids: &[Vid]) -> usize
    requires { numbered.now.conf.now ≡ conf.now }
    ensures { result ≡ capped cap (λ vid. length (routes_of conf.now vid)) vids.now }
{
    vids.iter().fold(0, |sum, vid| add(cap, sum, routes_of(conf, numbered, *vid)))
}

fn items_of(conf: &Resolved, numbered: &Numbered, cap: usize, vids: &[Vid]) -> usize
    requires { numbered.now.conf.now ≡ conf.now }
    ensures { result ≡ min cap (length (vips_in conf.now vids.now) + length (routes_in conf.now vids.now)) }
{
    add(
        cap,
        add_vips(conf, numbered, cap, vids),
        add_routes_of(conf, numbered, cap, vids),
    )
}

/// The VIPs and routes that packets of a VLAN may take.
fn route_items(conf: &Resolved, numbered: &Numbered, cap: usize, vlan: &Vlan) -> usize
    requires { numbered.now.conf.now ≡ conf.now }
    ensures { result ≡ min cap (route_items conf.now vlan.now) }
{
    if vlan.vips.is_empty() {
        return 0;
    }
    match numbered.router(vlan.vid) {
        Some(router) => items_of(conf, numbered, cap, router.vlans.as_slice()),
        None => items_of(conf, numbered, cap, &[vlan.vid]),
    }
}

fn add_route_items(conf: &Resolved, numbered: &Numbered, cap: usize) -> usize
    requires { numbered.now.conf.now ≡ conf.now }
    ensures { result ≡ capped cap (λ v. min cap (route_items conf.now v)) conf.now.vlans }
{
    conf.vlans().as_slice().iter().fold(
        0,
        |sum, vlan| add(cap, sum, route_items(conf, numbered, cap, vlan)),
    )
}

/// The VIPs and routes that packets of each VLAN may take, VLAN by VLAN.
pub(crate) fn all_route_items(conf: &Resolved, cap: usize) -> usize
    ensures { result ≡ min cap (sum_by (route_items conf.now) conf.now.vlans) }
{
    let numbered = Numbered::of(conf);
    add_route_items(conf, &numbered, cap)
}

fn is_of(ip: Ip, width: u8) -> bool
    ensures { result ≡ (width_of ip == width) }
{
    ip.family().width == width
}

/// The gateways of routes that have so many bits, as numbers.
fn values_of(alloc: Global, width: u8, routes: &[Route]) -> Result<Vec<u128>, NoMemory>
    ensures { IfOk result (λ made. made.items ≡ values_of width routes.now) }
{
    let mut made = Vec::new(alloc);
    for route in routes {
        if is_of(route.gw, width) {
            made.push(route.gw.value())?;
        }
    }
    Ok(made)
}

fn different_of(alloc: Global, width: u8, routes: &[Route]) -> Result<usize, NoMemory>
    ensures { IfOk result (λ count. count ≡ different (values_of width routes.now)) }
{
    let values = values_of(alloc, width, routes)?;
    different_len(alloc, values.as_slice())
}

/// How many gateways a VLAN's routes have.
fn gateways_of(alloc: Global, cap: usize, vlan: &Vlan) -> Result<usize, NoMemory>
    ensures { IfOk result (λ count. count ≡ min cap (gateways_of vlan.now)) }
{
    let routes = vlan.routes.as_slice();
    let of_ipv4 = different_of(alloc, 32, routes)?;
    let of_ipv6 = different_of(alloc, 128, routes)?;
    Ok(add(cap, of_ipv4, of_ipv6))
}

/// The gateways of each VLAN's routes, VLAN by VLAN.
pub(crate) fn all_gateways(alloc: Global, conf: &Resolved, cap: usize) -> Result<usize, NoMemory>
    ensures { IfOk result (λ sum. sum ≡ min cap (sum_by gateways_of conf.now.vlans)) }
{
    let mut sum = 0;
    for vlan in conf.vlans().as_slice() {
        let gateways = gateways_of(alloc, cap, vlan)?;
        sum = add(cap, sum, gateways);
    }
    Ok(sum)
}
