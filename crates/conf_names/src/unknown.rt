//! VLANs and ACLs that are named: each exists, and an interface names a VLAN at most once.

ghost use Rattle.std.specs.Prelude.{◌≡◌, IfOk, codes, is_none, map, option_and_then};
ghost use Rattle.std.specs.List.{flat_map};
ghost use Rattle.conf_resolve.specs.InOrder.{port_site};
ghost use Rattle.conf_resolve.specs.Resolved.{vid_of};
ghost use Rattle.conf_shape.specs.declared.refused.ConfCause.TheVariants.{Duplicate};
ghost use Rattle.conf_rules.specs.Names.{unknown_vlan, native_at, tagged_at, routed_at, peer_at, unknown_of_port, unknown_of_dp, unknown_of_router, unknown_vlans, twice_of_port, twice_of_dp, vlans_twice, unknown_acl, unknown_acls_of_vlan, unknown_acls_of_port, unknown_acls_of_dp, unknown_acls};
ghost use Rattle.conf_rules.specs.Places.{first, fault_if, nth, under, each_at, one_at, list_at};

use conf_resolve::{OrderedConf, PlacedVlan, Resolved};
use conf_rules::{
    AclNames, Found, broken, nth, port_site, router_site, see_some, seen_once, under, under_port,
};
use conf_shape::{ConfCause, RawDp, RawPort, RawRouter, VlanRef};
use net_base::{NoMemory, Text, TryCopy, Vid};
use std::alloc::Global;

fn unknown_native(alloc: Global, ordered: &OrderedConf, dp: &RawDp, port: &RawPort) -> Found
    ensures { IfOk result (λ found. found ≡ first (flat_map (unknown_vlan ordered.now) (native_at dp.now port.now))) }
{
    if let Some(name) = &port.native {
        if ordered.vid_of(name).is_none() {
            let site = under_port(alloc, dp, port, "native_vlan")?;
            return broken(alloc, ConfCause::Unresolved, site);
        }
    }
    Ok(None)
}

#[tactic(auto, using(conf_rules::proofs::First::first_rules))]
fn unknown_tagged(alloc: Global, ordered: &OrderedConf, dp: &RawDp, port: &RawPort) -> Found
    ensures { IfOk result (λ found. found ≡ first (flat_map (unknown_vlan ordered.now) (tagged_at dp.now port.now))) }
{
    for (i, name) in port.tagged.as_slice().iter().enumerate() {
        if ordered.vid_of(name).is_none() {
            let site = under_port(alloc, dp, port, "tagged_vlans")?;
            return broken(alloc, ConfCause::Unresolved, nth(alloc, site, i)?);
        }
    }
    Ok(None)
}

#[tactic(auto, using(conf_rules::proofs::First::first_rules))]
fn unknown_of_port(alloc: Global, ordered: &OrderedConf, dp: &RawDp, port: &RawPort) -> Found
    ensures { IfOk result (λ found. found ≡ first (unknown_of_port ordered.now dp.now port.now)) }
{
    if let Some(found) = unknown_native(alloc, ordered, dp, port)? {
        return Ok(Some(found));
    }
    unknown_tagged(alloc, ordered, dp, port)
}

#[tactic(auto, using(conf_rules::proofs::First::first_rules))]
fn unknown_of_dp(alloc: Global, ordered: &OrderedConf, dp: &RawDp) -> Found
    ensures { IfOk result (λ found. found ≡ first (unknown_of_dp ordered.now dp.now)) }
{
    for port in dp.ports.as_slice() {
        if let Some(found) = unknown_of_port(alloc, ordered, dp, port)? {
            return Ok(Some(found));
        }
    }
    Ok(None)
}

#[tactic(auto, using(conf_rules::proofs::First::first_rules))]
fn unknown_of_dps(alloc: Global, ordered: &OrderedConf) -> Found
    ensures { IfOk result (λ found. found ≡ first (flat_map (unknown_of_dp ordered.now) ordered.now.dps)) }
{
    for dp in ordered.dps.as_slice() {
        if let Some(found) = unknown_of_dp(alloc, ordered, dp)? {
            return Ok(Some(found));
        }
    }
    Ok(None)
}

#[tactic(auto, using(conf_rules::proofs::First::first_rules))]
fn unknown_routed(alloc: Global, ordered: &OrderedConf, router: &RawRouter) -> Found
    ensures { IfOk result (λ found. found ≡ first (flat_map (unknown_vlan ordered.now) (routed_at router.now))) }
{
    for (i, name) in router.vlans.as_slice().iter().enumerate() {
        if ordered.vid_of(name).is_none() {
            let site = under(alloc, router_site(alloc, router)?, "vlans")?;
            return broken(alloc, ConfCause::Unresolved, nth(alloc, site, i)?);
        }
    }
    Ok(None)
}

fn unknown_of_peer(alloc: Global, ordered: &OrderedConf, router: &RawRouter) -> Found
    ensures { IfOk result (λ found. found ≡ first (flat_map (unknown_vlan ordered.now) (peer_at router.now))) }
{
    if let Some(bgp) = &router.bgp {
        if ordered.vid_of(&bgp.vlan).is_none() {
            let site = under(alloc, router_site(alloc, router)?, "bgp")?;
            return broken(alloc, ConfCause::Unresolved, under(alloc, site, "vlan")?);
        }
    }
    Ok(None)
}

#[tactic(auto, using(conf_rules::proofs::First::first_rules))]
fn unknown_of_router(alloc: Global, ordered: &OrderedConf, router: &RawRouter) -> Found
    ensures { IfOk result (λ found. found ≡ first (unknown_of_router ordered.now router.now)) }
{
    if let Some(found) = unknown_routed(alloc, ordered, router)? {
        return Ok(Some(found));
    }
    unknown_of_peer(alloc, ordered, router)
}

/// Every VLAN that is named exists; of interfaces, then of routers.
#[tactic(auto, using(conf_rules::proofs::First::first_rules))]
pub(crate) fn unknown_vlans(alloc: Global, ordered: &OrderedConf) -> Found
    ensures { IfOk result (λ found. found ≡ first (unknown_vlans ordered.now)) }
{
    if let Some(found) = unknown_of_dps(alloc, ordered)? {
        return Ok(Some(found));
    }
    for router in ordered.routers.as_slice() {
        if let Some(found) = unknown_of_router(alloc, ordered, router)? {
            return Ok(Some(found));
        }
    }
    Ok(None)
}

fn native_vid(ordered: &OrderedConf, port: &RawPort) -> Option<Vid>
    ensures { result ≡ option_and_then (vid_of ordered.now.vlans) port.now.native }
{
    match &port.native {
        Some(name) => ordered.vid_of(name),
        None => None,
    }
}

// The number of each VLAN that is named, each looked up once; `None` for one that doesn't exist.
fn vids_of(
    alloc: Global,
    ordered: &OrderedConf,
    names: &[VlanRef],
) -> Result<Vec<Option<Vid>>, NoMemory>
    ensures { IfOk result (λ vids. vids.items ≡ map (vid_of ordered.now.vlans) names.now) }
{
    names.iter().map(|name| ordered.vid_of(name)).collect(alloc)
}

// The fault of a tagged VLAN that is the native one, or among the tagged ones before it.
fn vid_again(alloc: Global, dp: &RawDp, port: &RawPort, at: usize, is_again: bool) -> Found
    ensures { IfOk result (λ found. found ≡ first (fault_if is_again Duplicate (nth (under (port_site dp.now port.now) (codes "tagged_vlans")) at))) }
{
    if is_again {
        let site = under_port(alloc, dp, port, "tagged_vlans")?;
        return broken(alloc, ConfCause::Duplicate, nth(alloc, site, at)?);
    }
    Ok(None)
}

#[tactic(auto, using(conf_rules::proofs::First::first_rules))]
fn twice_of_port(alloc: Global, ordered: &OrderedConf, dp: &RawDp, port: &RawPort) -> Found
    ensures { IfOk result (λ found. found ≡ first (twice_of_port ordered.now dp.now port.now)) }
{
    let native = native_vid(ordered, port);
    let made = vids_of(alloc, ordered, port.tagged.as_slice())?;
    let mut seen = seen_once(native);
    for (i, vid) in made.as_slice().iter().enumerate() {
        let is_again = see_some(&mut seen, *vid);
        if let Some(found) = vid_again(alloc, dp, port, i, is_again)? {
            return Ok(Some(found));
        }
    }
    Ok(None)
}

#[tactic(auto, using(conf_rules::proofs::First::first_rules))]
fn twice_of_dp(alloc: Global, ordered: &OrderedConf, dp: &RawDp) -> Found
    ensures { IfOk result (λ found. found ≡ first (twice_of_dp ordered.now dp.now)) }
{
    for port in dp.ports.as_slice() {
        if let Some(found) = twice_of_port(alloc, ordered, dp, port)? {
            return Ok(Some(found));
        }
    }
    Ok(None)
}

/// An interface names a VLAN at most once.
#[tactic(auto, using(conf_rules::proofs::First::first_rules))]
pub(crate) fn vlans_twice(alloc: Global, ordered: &OrderedConf) -> Found
    ensures { IfOk result (λ found. found ≡ first (vlans_twice ordered.now)) }
{
    for dp in ordered.dps.as_slice() {
        if let Some(found) = twice_of_dp(alloc, ordered, dp)? {
            return Ok(Some(found));
        }
    }
    Ok(None)
}

fn unknown_one_of_vlan(alloc: Global, acls: &AclNames, placed: &PlacedVlan) -> Found
    ensures { IfOk result (λ found. found ≡ first (flat_map (unknown_acl acls.now) (one_at placed.now.site placed.now.vlan.acls))) }
{
    if let Some(name) = &placed.vlan.acls.one {
        if !acls.has(name) {
            let site = under(alloc, placed.site.copy(alloc)?, "acl_in")?;
            return broken(alloc, ConfCause::Unresolved, site);
        }
    }
    Ok(None)
}

#[tactic(auto, using(conf_rules::proofs::First::first_rules))]
fn unknown_nth_of_vlan(alloc: Global, acls: &AclNames, placed: &PlacedVlan, names: &[Text]) -> Found
    ensures { IfOk result (λ found. found ≡ first (flat_map (unknown_acl acls.now) (each_at (under placed.now.site (codes "acls_in")) names.now))) }
{
    for (i, name) in names.iter().enumerate() {
        if !acls.has(name) {
            let site = under(alloc, placed.site.copy(alloc)?, "acls_in")?;
            return broken(alloc, ConfCause::Unresolved, nth(alloc, site, i)?);
        }
    }
    Ok(None)
}

#[tactic(auto, using(conf_rules::proofs::First::first_rules))]
fn unknown_acls_of_vlan(alloc: Global, acls: &AclNames, placed: &PlacedVlan) -> Found
    ensures { IfOk result (λ found. found ≡ first (unknown_acls_of_vlan acls.now placed.now)) }
{
    if let Some(found) = unknown_one_of_vlan(alloc, acls, placed)? {
        return Ok(Some(found));
    }
    match &placed.vlan.acls.list {
        Some(names) => unknown_nth_of_vlan(alloc, acls, placed, names.as_slice()),
        None => Ok(None),
    }
}

fn unknown_one_of_port(alloc: Global, acls: &AclNames, dp: &RawDp, port: &RawPort) -> Found
    ensures { IfOk result (λ found. found ≡ first (flat_map (unknown_acl acls.now) (one_at (port_site dp.now port.now) port.now.acls))) }
{
    if let Some(name) = &port.acls.one {
        if !acls.has(name) {
            let site = under(alloc, port_site(alloc, dp, port)?, "acl_in")?;
            return broken(alloc, ConfCause::Unresolved, site);
        }
    }
    Ok(None)
}

#[tactic(auto, using(conf_rules::proofs::First::first_rules))]
fn unknown_nth_of_port(
    alloc: Global,
    acls: &AclNames,
    dp: &RawDp,
    port: &RawPort,
    names: &[Text],
) -> Found
    ensures { IfOk result (λ found. found ≡ first (flat_map (unknown_acl acls.now) (each_at (under (port_site dp.now port.now) (codes "acls_in")) names.now))) }
{
    for (i, name) in names.iter().enumerate() {
        if !acls.has(name) {
            let site = under(alloc, port_site(alloc, dp, port)?, "acls_in")?;
            return broken(alloc, ConfCause::Unresolved, nth(alloc, site, i)?);
        }
    }
    Ok(None)
}

#[tactic(auto, using(conf_rules::proofs::First::first_rules))]
fn unknown_acls_of_port(alloc: Global, acls: &AclNames, dp: &RawDp, port: &RawPort) -> Found
    ensures { IfOk result (λ found. found ≡ first (unknown_acls_of_port acls.now dp.now port.now)) }
{
    if let Some(found) = unknown_one_of_port(alloc, acls, dp, port)? {
        return Ok(Some(found));
    }
    match &port.acls.list {
        Some(names) => unknown_nth_of_port(alloc, acls, dp, port, names.as_slice()),
        None => Ok(None),
    }
}

#[tactic(auto, using(conf_rules::proofs::First::first_rules))]
fn unknown_acls_of_vlans(alloc: Global, acls: &AclNames, vlans: &[PlacedVlan]) -> Found
    ensures { IfOk result (λ found. found ≡ first (flat_map (unknown_acls_of_vlan acls.now) vlans.now)) }
{
    for placed in vlans {
        if let Some(found) = unknown_acls_of_vlan(alloc, acls, placed)? {
            return Ok(Some(found));
        }
    }
    Ok(None)
}

#[tactic(auto, using(conf_rules::proofs::First::first_rules))]
fn unknown_acls_of_dp(alloc: Global, acls: &AclNames, dp: &RawDp) -> Found
    ensures { IfOk result (λ found. found ≡ first (unknown_acls_of_dp acls.now dp.now)) }
{
    for port in dp.ports.as_slice() {
        if let Some(found) = unknown_acls_of_port(alloc, acls, dp, port)? {
            return Ok(Some(found));
        }
    }
    Ok(None)
}

/// Every ACL that is named exists; of VLANs, then of interfaces.
#[tactic(auto, using(conf_rules::proofs::First::first_rules))]
pub(crate) fn unknown_acls(alloc: Global, ordered: &OrderedConf, conf: &Resolved) -> Found
    ensures { IfOk result (λ found. found ≡ first (unknown_acls ordered.now conf.now)) }
{
    let acls = AclNames::of(alloc, conf)?;
    if let Some(found) = unknown_acls_of_vlans(alloc, &acls, ordered.vlans.as_slice())? {
        return Ok(Some(found));
    }
    for dp in ordered.dps.as_slice() {
        if let Some(found) = unknown_acls_of_dp(alloc, &acls, dp)? {
            return Ok(Some(found));
        }
    }
    Ok(None)
}
