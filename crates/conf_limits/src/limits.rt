//! The limits on the size of a configuration, in their order.

ghost use Rattle.std.specs.Prelude.{◌≡◌, ◌++◌, ◌∷◌, ◌&&◌, [], IfOk, codes, nat_lt, count_by, length, slice_index_or, sum_by, ◌==◌, ◌≤◌, ◌<◌};
ghost use Rattle.std.specs.List.{flat_map, list_any};
ghost use Rattle.conf_types.specs.Attached.{rules_of};
ghost use Rattle.conf_types.specs.declared.datapath.Dp.{Dp};
ghost use Rattle.conf_types.specs.Groups.{group_of, of_dps};
ghost use Rattle.conf_types.specs.Lists.{EachBefore};
ghost use Rattle.conf_types.specs.Membership.{has_edge_member};
ghost use Rattle.conf_types.specs.Valid.{is_special, route_items};
ghost use Rattle.conf_shape.specs.declared.refused.ConfCause.TheVariants.{TooMany};
ghost use Rattle.conf_shape.specs.declared.refused.LimitName.TheVariants.{Routes, Gateways, RouteItems};
ghost use Rattle.conf_rules.specs.Limits.{size_of, most_of, at_dp, at_dps, routes, many_mirrors, too_many_mirrors, is_attached_somewhere, many_rules_on_vlan, many_rules_on_port, too_many_rules, many_vips, many_router_vlans, too_many_router_vlans, part_limits, acl_limits, above, whole_vlans, gateways, routing_limits, passed_limits};
ghost use Rattle.conf_rules.specs.Places.{first, fault_if, vlans_of, interfaces, interfaces_of};

use crate::acl_sizes::{acl_entries, acl_outputs, rules_len};
use crate::mirrored::Mirrored;
use crate::sizes::{all_gateways, all_route_items, members, routes};
use conf_resolve::{OrderedConf, PlacedVlan, Resolved};
use conf_rules::{AclNames, AllEdges, Found, broken, dp_site, port_site, router_site, under};
use conf_shape::{ConfCause, ConfFault, LimitName, RawDp, RawPort, RawRouter};
use conf_types::{Dp, Port, Router, Vlan, group_at};
use net_base::{Items, NoMemory, PortNo, Text, TryCopy};
use std::alloc::Global;

/// The most entries that the ACLs attached on a datapath take.
const ACL_ENTRIES: usize = 20_000;

/// The most ports that these ACLs name there, rule by rule.
const ACL_OUTPUTS: usize = 65_536;

/// The most members that the VLANs have on a datapath.
const MEMBERS: usize = 8192;

/// The most rules that the ACLs of an interface or a VLAN have.
const RULES: usize = 1000;

/// The most routes of all VLANs.
const ROUTES: usize = 1024;

/// The most gateways that the groups of datapaths ask for.
const GATEWAYS: usize = 1024;

/// The most VIPs and routes that packets of each VLAN may take, VLAN by VLAN.
const ROUTE_ITEMS: usize = 32_768;

fn whole(alloc: Global, is_above: bool, limit: LimitName, section: &str) -> Found
    ensures { IfOk result (λ found. found ≡ first (fault_if is_above (TooMany limit) (section.now ∷ []))) }
{
    if is_above {
        let site = under(alloc, Items::new(alloc), section)?;
        return broken(alloc, ConfCause::TooMany(limit), site);
    }
    Ok(None)
}

fn is_special(dp: &Dp, mirrored: &Mirrored, port: &Port) -> bool
    requires { mirrored.now.dp.now ≡ dp.now }
    ensures { result ≡ is_special dp.now port.now }
{
    port.is_edge() && (port.hairpin || mirrored.is_mirrored(port.no))
}

fn specials_among(dp: &Dp, mirrored: &Mirrored) -> usize
    requires { mirrored.now.dp.now ≡ dp.now }
    ensures { result ≡ count_by (is_special dp.now) dp.now.ports }
{
    dp.ports
        .as_slice()
        .iter()
        .filter(|port| is_special(dp, mirrored, port))
        .count()
}

fn specials(alloc: Global, dp: &Dp) -> Result<usize, NoMemory>
    ensures { IfOk result (λ count. count ≡ count_by (is_special dp.now) dp.now.ports) }
{
    let mirrored = Mirrored::of(alloc, dp)?;
    Ok(specials_among(dp, &mirrored))
}

/// Whether a datapath passes a limit on datapaths.
#[tactic(auto, using(crate::proofs::Capped::above_rules))]
fn is_above(alloc: Global, acls: &AclNames, limit: LimitName, dp: &Dp) -> Result<bool, NoMemory>
    ensures { IfOk result (λ is_above. is_above ≡ nat_lt (most_of limit) (size_of acls.now limit dp.now)) }
{
    match limit {
        LimitName::Ports => Ok(dp.ports.len() > 256),
        LimitName::Special => Ok(specials(alloc, dp)? > 16),
        LimitName::AclEntries => Ok(acl_entries(acls, ACL_ENTRIES + 1, dp) > ACL_ENTRIES),
        LimitName::AclOutputs => {
            let named = acl_outputs(alloc, acls, ACL_OUTPUTS + 1, dp)?;
            Ok(named > ACL_OUTPUTS)
        }
        _ => Ok(members(acls.conf(), MEMBERS + 1, dp) > MEMBERS),
    }
}

fn at_dp(alloc: Global, acls: &AclNames, limit: LimitName, raw_dp: &RawDp, dp: &Dp) -> Found
    ensures { IfOk result (λ found. found ≡ first (at_dp acls.now limit (raw_dp.now, dp.now))) }
{
    if is_above(alloc, acls, limit, dp)? {
        return broken(alloc, ConfCause::TooMany(limit), dp_site(alloc, raw_dp)?);
    }
    Ok(None)
}

#[tactic(auto, using(conf_rules::proofs::First::zip_rules))]
fn at_dps(alloc: Global, ordered: &OrderedConf, acls: &AclNames, limit: LimitName) -> Found
    ensures { IfOk result (λ found. found ≡ first (at_dps ordered.now acls.now limit)) }
{
    let dps = acls.conf().dps().as_slice();
    for (i, raw_dp) in ordered.dps.as_slice().iter().enumerate() {
        let Some(dp) = dps.get(i) else {
            return Ok(None);
        };
        if let Some(found) = at_dp(alloc, acls, limit, raw_dp, dp)? {
            return Ok(Some(found));
        }
    }
    Ok(None)
}

fn many_mirrors(
    alloc: Global,
    raw_dp: &RawDp,
    dp: &Dp,
    mirrored: &Mirrored,
    raw: &RawPort,
    port: &Port,
) -> Found
    requires { mirrored.now.dp.now ≡ dp.now }
    ensures { IfOk result (λ found. found ≡ first (many_mirrors (record { raw_dp = raw_dp.now; dp = dp.now; raw = raw.now; port = port.now }))) }
{
    if mirrored.mirrors(port.no) > 4 {
        let site = port_site(alloc, raw_dp, raw)?;
        return broken(alloc, ConfCause::TooMany(LimitName::Mirrors), site);
    }
    Ok(None)
}

#[tactic(auto, using(conf_rules::proofs::First::zip_rules))]
fn many_mirrors_of(alloc: Global, raw_dp: &RawDp, dp: &Dp) -> Found
    ensures { IfOk result (λ found. found ≡ first (flat_map many_mirrors (interfaces_of (raw_dp.now, dp.now)))) }
{
    let mirrored = Mirrored::of(alloc, dp)?;
    let ports = dp.ports.as_slice();
    for (i, raw) in raw_dp.ports.as_slice().iter().enumerate() {
        let Some(port) = ports.get(i) else {
            return Ok(None);
        };
        if let Some(found) = many_mirrors(alloc, raw_dp, dp, &mirrored, raw, port)? {
            return Ok(Some(found));
        }
    }
    Ok(None)
}

#[tactic(auto, using(conf_rules::proofs::First::pair_rules))]
fn too_many_mirrors(alloc: Global, ordered: &OrderedConf, conf: &Resolved) -> Found
    ensures { IfOk result (λ found. found ≡ first (too_many_mirrors ordered.now conf.now)) }
{
    let dps = conf.dps().as_slice();
    for (i, raw_dp) in ordered.dps.as_slice().iter().enumerate() {
        let Some(dp) = dps.get(i) else {
            return Ok(None);
        };
        if let Some(found) = many_mirrors_of(alloc, raw_dp, dp)? {
            return Ok(Some(found));
        }
    }
    Ok(None)
}

#[tactic(auto, using(conf_rules::proofs::First::first_rules))]
fn part_limits(alloc: Global, ordered: &OrderedConf, acls: &AclNames) -> Found
    ensures { IfOk result (λ found. found ≡ first (part_limits ordered.now acls.now)) }
{
    if let Some(found) = whole(alloc, acls.conf().dps().len() > 64, LimitName::Dps, "dps")? {
        return Ok(Some(found));
    }
    if let Some(found) = at_dps(alloc, ordered, acls, LimitName::Ports)? {
        return Ok(Some(found));
    }
    if let Some(found) = whole(
        alloc,
        acls.conf().vlans().len() > 1024,
        LimitName::Vlans,
        "vlans",
    )? {
        return Ok(Some(found));
    }
    if let Some(found) = too_many_mirrors(alloc, ordered, acls.conf())? {
        return Ok(Some(found));
    }
    at_dps(alloc, ordered, acls, LimitName::Special)
}

fn is_attached_somewhere(edges: &AllEdges, vlan: &Vlan) -> bool
    ensures { result ≡ is_attached_somewhere edges.now vlan.now }
{
    edges.has(vlan.vid)
}

#[tactic(auto, using(crate::proofs::Capped::above_rules))]
fn are_many_rules(acls: &AclNames, names: &[Text]) -> bool
    ensures { result ≡ nat_lt 1000 (length (rules_of acls.now names.now)) }
{
    rules_len(acls, RULES + 1, names) > RULES
}

fn many_rules_on_vlan(
    alloc: Global,
    acls: &AclNames,
    edges: &AllEdges,
    placed: &PlacedVlan,
    vlan: &Vlan,
) -> Found
    requires { edges.now ≡ acls.now }
    ensures { IfOk result (λ found. found ≡ first (many_rules_on_vlan acls.now (placed.now, vlan.now))) }
{
    if are_many_rules(acls, vlan.acls.as_slice()) && is_attached_somewhere(edges, vlan) {
        let site = placed.site.copy(alloc)?;
        return broken(alloc, ConfCause::TooMany(LimitName::Rules), site);
    }
    Ok(None)
}

#[tactic(auto, using(conf_rules::proofs::First::zip_rules))]
fn many_rules_on_vlans(alloc: Global, ordered: &OrderedConf, acls: &AclNames) -> Found
    ensures { IfOk result (λ found. found ≡ first (flat_map (many_rules_on_vlan acls.now) (vlans_of ordered.now acls.now))) }
{
    let vlans = acls.conf().vlans().as_slice();
    let edges = AllEdges::of(acls.conf());
    for (i, placed) in ordered.vlans.as_slice().iter().enumerate() {
        let Some(vlan) = vlans.get(i) else {
            return Ok(None);
        };
        if let Some(found) = many_rules_on_vlan(alloc, acls, &edges, placed, vlan)? {
            return Ok(Some(found));
        }
    }
    Ok(None)
}

fn many_rules_on_port(
    alloc: Global,
    acls: &AclNames,
    raw_dp: &RawDp,
    dp: &Dp,
    raw: &RawPort,
    port: &Port,
) -> Found
    ensures { IfOk result (λ found. found ≡ first (many_rules_on_port acls.now (record { raw_dp = raw_dp.now; dp = dp.now; raw = raw.now; port = port.now }))) }
{
    if are_many_rules(acls, port.acls.as_slice()) {
        let site = port_site(alloc, raw_dp, raw)?;
        return broken(alloc, ConfCause::TooMany(LimitName::Rules), site);
    }
    Ok(None)
}

#[tactic(auto, using(conf_rules::proofs::First::zip_rules))]
fn many_rules_on_ports(alloc: Global, acls: &AclNames, raw_dp: &RawDp, dp: &Dp) -> Found
    ensures { IfOk result (λ found. found ≡ first (flat_map (many_rules_on_port acls.now) (interfaces_of (raw_dp.now, dp.now)))) }
{
    let ports = dp.ports.as_slice();
    for (i, raw) in raw_dp.ports.as_slice().iter().enumerate() {
        let Some(port) = ports.get(i) else {
            return Ok(None);
        };
        if let Some(found) = many_rules_on_port(alloc, acls, raw_dp, dp, raw, port)? {
            return Ok(Some(found));
        }
    }
    Ok(None)
}

#[tactic(auto, using(conf_rules::proofs::First::pair_rules))]
fn many_rules_on_dps(alloc: Global, ordered: &OrderedConf, acls: &AclNames) -> Found
    ensures { IfOk result (λ found. found ≡ first (flat_map (many_rules_on_port acls.now) (interfaces ordered.now acls.now))) }
{
    let dps = acls.conf().dps().as_slice();
    for (i, raw_dp) in ordered.dps.as_slice().iter().enumerate() {
        let Some(dp) = dps.get(i) else {
            return Ok(None);
        };
        if let Some(found) = many_rules_on_ports(alloc, acls, raw_dp, dp)? {
            return Ok(Some(found));
        }
    }
    Ok(None)
}

#[tactic(auto, using(conf_rules::proofs::First::first_rules))]
fn too_many_rules(alloc: Global, ordered: &OrderedConf, acls: &AclNames) -> Found
    ensures { IfOk result (λ found. found ≡ first (too_many_rules ordered.now acls.now)) }
{
    if let Some(found) = many_rules_on_vlans(alloc, ordered, acls)? {
        return Ok(Some(found));
    }
    many_rules_on_dps(alloc, ordered, acls)
}

#[tactic(auto, using(conf_rules::proofs::First::first_rules))]
fn acl_limits(alloc: Global, ordered: &OrderedConf, acls: &AclNames) -> Found
    ensures { IfOk result (λ found. found ≡ first (acl_limits ordered.now acls.now)) }
{
    if let Some(found) = too_many_rules(alloc, ordered, acls)? {
        return Ok(Some(found));
    }
    if let Some(found) = at_dps(alloc, ordered, acls, LimitName::AclEntries)? {
        return Ok(Some(found));
    }
    if let Some(found) = at_dps(alloc, ordered, acls, LimitName::AclOutputs)? {
        return Ok(Some(found));
    }
    at_dps(alloc, ordered, acls, LimitName::Members)
}

fn many_vips(alloc: Global, placed: &PlacedVlan, vlan: &Vlan) -> Found
    ensures { IfOk result (λ found. found ≡ first (many_vips (placed.now, vlan.now))) }
{
    if vlan.vips.len() > 8 {
        let site = placed.site.copy(alloc)?;
        return broken(alloc, ConfCause::TooMany(LimitName::Vips), site);
    }
    Ok(None)
}

#[tactic(auto, using(conf_rules::proofs::First::zip_rules))]
fn too_many_vips(alloc: Global, ordered: &OrderedConf, conf: &Resolved) -> Found
    ensures { IfOk result (λ found. found ≡ first (flat_map many_vips (vlans_of ordered.now conf.now))) }
{
    let vlans = conf.vlans().as_slice();
    for (i, placed) in ordered.vlans.as_slice().iter().enumerate() {
        let Some(vlan) = vlans.get(i) else {
            return Ok(None);
        };
        if let Some(found) = many_vips(alloc, placed, vlan)? {
            return Ok(Some(found));
        }
    }
    Ok(None)
}

fn many_router_vlans(alloc: Global, raw: &RawRouter, router: &Router) -> Found
    ensures { IfOk result (λ found. found ≡ first (many_router_vlans (raw.now, router.now))) }
{
    if router.vlans.len() > 16 {
        let site = router_site(alloc, raw)?;
        return broken(alloc, ConfCause::TooMany(LimitName::RouterVlans), site);
    }
    Ok(None)
}

#[tactic(auto, using(conf_rules::proofs::First::zip_rules))]
fn too_many_router_vlans(alloc: Global, ordered: &OrderedConf, conf: &Resolved) -> Found
    ensures { IfOk result (λ found. found ≡ first (too_many_router_vlans ordered.now conf.now)) }
{
    let routers = conf.routers().as_slice();
    for (i, raw) in ordered.routers.as_slice().iter().enumerate() {
        let Some(router) = routers.get(i) else {
            return Ok(None);
        };
        if let Some(found) = many_router_vlans(alloc, raw, router)? {
            return Ok(Some(found));
        }
    }
    Ok(None)
}

#[tactic(auto, using(crate::proofs::Capped::above_rules))]
fn are_many_routes(conf: &Resolved) -> bool
    ensures { result ≡ nat_lt 1024 (routes conf.now) }
{
    routes(conf, ROUTES + 1) > ROUTES
}

#[tactic(auto, using(crate::proofs::Capped::above_rules))]
fn are_many_route_items(conf: &Resolved) -> bool
    ensures { result ≡ nat_lt 32768 (sum_by (route_items conf.now) conf.now.vlans) }
{
    all_route_items(conf, ROUTE_ITEMS + 1) > ROUTE_ITEMS
}

/// Whether the identifier of the datapath at a place is the number of its group.
fn names_group(dps: &[Dp], at: usize) -> bool
    requires place { at < length dps.now }
    requires few { length dps.now ≤ 64 }
    requires distinct { EachBefore (λ d e. d.id.0 ≡ e.id.0 → ⊥) dps.now }
    ensures { (d : Dp) → result ≡ ((group_of (of_dps dps.now) (slice_index_or dps.now at d).id).0 == (slice_index_or dps.now at d).id.0) }
{
    group_at(dps, at).0 == dps[at].id.0
}

/// How many groups there are.
fn groups(dps: &[Dp]) -> usize
    requires few { length dps.now ≤ 64 }
    requires distinct { EachBefore (λ d e. d.id.0 ≡ e.id.0 → ⊥) dps.now }
    ensures value { result ≡ count_by (λ d. (group_of (of_dps dps.now) d.id).0 == d.id.0) dps.now }
    ensures within { result ≤ length dps.now }
{
    let mut count = 0;
    for i in 0..dps.len() {
        if names_group(dps, i) {
            count += 1;
        }
    }
    count
}

#[tactic(auto, using(crate::proofs::Gateways::product_rules))]
fn are_many_gateways(alloc: Global, conf: &Resolved) -> Result<bool, NoMemory>
    requires few { length conf.now.dps ≤ 64 }
    requires distinct { EachBefore (λ d e. d.id.0 ≡ e.id.0 → ⊥) conf.now.dps }
    ensures { IfOk result (λ are_many. are_many ≡ nat_lt 1024 (gateways conf.now)) }
{
    let each = all_gateways(alloc, conf, GATEWAYS + 1)?;
    let asked = groups(conf.dps().as_slice()) * each;
    Ok(asked > GATEWAYS)
}

#[tactic(auto, using(conf_rules::proofs::First::first_rules))]
fn whole_limits(alloc: Global, conf: &Resolved) -> Found
    requires few { length conf.now.dps ≤ 64 }
    requires distinct { EachBefore (λ d e. d.id.0 ≡ e.id.0 → ⊥) conf.now.dps }
    ensures { IfOk result (λ found. found ≡ first (above 1024 (routes conf.now) Routes whole_vlans ++ (above 1024 (gateways conf.now) Gateways whole_vlans ++ above 32768 (sum_by (route_items conf.now) conf.now.vlans) RouteItems whole_vlans))) }
{
    if let Some(found) = whole(alloc, are_many_routes(conf), LimitName::Routes, "vlans")? {
        return Ok(Some(found));
    }
    let are_many = are_many_gateways(alloc, conf)?;
    if let Some(found) = whole(alloc, are_many, LimitName::Gateways, "vlans")? {
        return Ok(Some(found));
    }
    whole(
        alloc,
        are_many_route_items(conf),
        LimitName::RouteItems,
        "vlans",
    )
}

#[tactic(auto, using(conf_rules::proofs::First::first_rules))]
fn routing_limits(alloc: Global, ordered: &OrderedConf, conf: &Resolved) -> Found
    requires few { length conf.now.dps ≤ 64 }
    requires distinct { EachBefore (λ d e. d.id.0 ≡ e.id.0 → ⊥) conf.now.dps }
    ensures { IfOk result (λ found. found ≡ first (routing_limits ordered.now conf.now)) }
{
    if let Some(found) = too_many_vips(alloc, ordered, conf)? {
        return Ok(Some(found));
    }
    if let Some(found) = too_many_router_vlans(alloc, ordered, conf)? {
        return Ok(Some(found));
    }
    whole_limits(alloc, conf)
}

/// The first limit that is passed, in their order.
#[tactic(auto, using(conf_rules::proofs::First::first_rules))]
pub fn find_passed_limit(
    alloc: Global,
    ordered: &OrderedConf,
    conf: &Resolved,
) -> Result<Option<ConfFault>, NoMemory>
    requires { EachBefore (λ d e. d.id.0 ≡ e.id.0 → ⊥) conf.now.dps }
    ensures { IfOk result (λ fault. fault ≡ first (passed_limits ordered.now conf.now)) }
{
    let acls = AclNames::of(alloc, conf)?;
    if let Some(found) = part_limits(alloc, ordered, &acls)? {
        return Ok(Some(found));
    }
    if let Some(found) = acl_limits(alloc, ordered, &acls)? {
        return Ok(Some(found));
    }
    routing_limits(alloc, ordered, conf)
}
