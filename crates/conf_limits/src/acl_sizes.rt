//! How much the ACLs that are attached on a datapath take, each count as far as a cap.

ghost use Rattle.std.specs.Prelude.{◌≡◌, ◌+◌, IfOk, length, min, sum_by};
ghost use Rattle.conf_types.specs.Attached.{rules_of};
ghost use Rattle.conf_types.specs.Valid.{ports_named};
ghost use Rattle.conf_rules.specs.Limits.{acl_entries, acl_outputs};
ghost use Rattle.conf_limits.specs.Sizes.{capped, named_rules, cost, vlan_cost};

use crate::port_places::PortPlaces;
use crate::sizes::add;
use conf_rules::{AclNames, Edges};
use conf_types::{Dp, Rule, Vlan};
use net_base::{NoMemory, Text};
use std::alloc::Global;

fn named_rules<'a>(acls: &'a AclNames, name: &Text) -> &'a [Rule]
    ensures { result.now ≡ named_rules acls.now name.now }
{
    match acls.find(name) {
        Some(acl) => acl.rules.as_slice(),
        None => &[],
    }
}

fn add_rules(acls: &AclNames, cap: usize, names: &[Text]) -> usize
    ensures { result ≡ capped cap (λ name. length (named_rules acls.now name)) names.now }
{
    names.iter().fold(0, |sum, name| add(cap, sum, named_rules(acls, name).len()))
}

/// How many rules the named ACLs have.
pub(crate) fn rules_len(acls: &AclNames, cap: usize, names: &[Text]) -> usize
    ensures { result ≡ min cap (length (rules_of acls.now names.now)) }
{
    add_rules(acls, cap, names)
}

/// How many entries the named ACLs take where they are attached.
fn entries(acls: &AclNames, cap: usize, names: &[Text]) -> usize
    ensures { result ≡ min cap (cost (λ rules. length rules + 1) acls.now names.now) }
{
    if names.is_empty() {
        0
    } else {
        add(cap, rules_len(acls, cap, names), 1)
    }
}

fn entries_for_vlan(acls: &AclNames, cap: usize, edges: &Edges, vlan: &Vlan) -> usize
    ensures { result ≡ min cap (vlan_cost (λ rules. length rules + 1) acls.now edges.now vlan.now) }
{
    if edges.has(vlan.vid) {
        entries(acls, cap, vlan.acls.as_slice())
    } else {
        0
    }
}

fn entries_on_ports(acls: &AclNames, cap: usize, dp: &Dp) -> usize
    ensures { result ≡ capped cap (λ p. min cap (cost (λ rules. length rules + 1) acls.now p.acls)) dp.now.ports }
{
    dp.ports.as_slice().iter().fold(
        0,
        |sum, port| add(cap, sum, entries(acls, cap, port.acls.as_slice())),
    )
}

fn entries_for_edges(acls: &AclNames, cap: usize, edges: &Edges) -> usize
    ensures { result ≡ capped cap (λ v. min cap (vlan_cost (λ rules. length rules + 1) acls.now edges.now v)) acls.now.vlans }
{
    acls.conf().vlans().as_slice().iter().fold(
        0,
        |sum, vlan| add(cap, sum, entries_for_vlan(acls, cap, edges, vlan)),
    )
}

fn entries_for_vlans(acls: &AclNames, cap: usize, dp: &Dp) -> usize
    ensures { result ≡ capped cap (λ v. min cap (vlan_cost (λ rules. length rules + 1) acls.now dp.now v)) acls.now.vlans }
{
    let edges = Edges::of(dp);
    entries_for_edges(acls, cap, &edges)
}

/// How many entries the ACLs that are attached on a datapath take.
pub(crate) fn acl_entries(acls: &AclNames, cap: usize, dp: &Dp) -> usize
    ensures { result ≡ min cap (acl_entries acls.now dp.now) }
{
    add(
        cap,
        entries_on_ports(acls, cap, dp),
        entries_for_vlans(acls, cap, dp),
    )
}

fn add_outputs(
    alloc: Global,
    ports: &PortPlaces,
    cap: usize,
    rules: &[Rule],
) -> Result<usize, NoMemory>
    ensures { IfOk result (λ sum. sum ≡ min cap (sum_by (ports_named ports.now.dp.now) rules.now)) }
{
    let mut sum = 0;
    for rule in rules {
        let named = ports.count(alloc, rule)?;
        sum = add(cap, sum, named);
    }
    Ok(sum)
}

/// How many ports the named ACLs name on a datapath where they are attached, rule by rule.
fn outputs(
    alloc: Global,
    acls: &AclNames,
    ports: &PortPlaces,
    cap: usize,
    names: &[Text],
) -> Result<usize, NoMemory>
    ensures { IfOk result (λ sum. sum ≡ min cap (cost (λ rules. sum_by (ports_named ports.now.dp.now) rules) acls.now names.now)) }
{
    let mut sum = 0;
    for name in names {
        let named = add_outputs(alloc, ports, cap, named_rules(acls, name))?;
        sum = add(cap, sum, named);
    }
    Ok(sum)
}

fn outputs_for_vlan(
    alloc: Global,
    acls: &AclNames,
    ports: &PortPlaces,
    cap: usize,
    edges: &Edges,
    vlan: &Vlan,
) -> Result<usize, NoMemory>
    ensures { IfOk result (λ sum. sum ≡ min cap (vlan_cost (λ rules. sum_by (ports_named ports.now.dp.now) rules) acls.now edges.now vlan.now)) }
{
    if !edges.has(vlan.vid) {
        return Ok(0);
    }
    outputs(alloc, acls, ports, cap, vlan.acls.as_slice())
}

fn outputs_on_ports(
    alloc: Global,
    acls: &AclNames,
    ports: &PortPlaces,
    cap: usize,
) -> Result<usize, NoMemory>
    ensures { IfOk result (λ sum. sum ≡ min cap (sum_by (λ p. cost (λ rules. sum_by (ports_named ports.now.dp.now) rules) acls.now p.acls) ports.now.dp.now.ports)) }
{
    let mut sum = 0;
    for port in ports.dp().ports.as_slice() {
        let named = outputs(alloc, acls, ports, cap, port.acls.as_slice())?;
        sum = add(cap, sum, named);
    }
    Ok(sum)
}

fn outputs_for_vlans(
    alloc: Global,
    acls: &AclNames,
    ports: &PortPlaces,
    cap: usize,
) -> Result<usize, NoMemory>
    ensures { IfOk result (λ sum. sum ≡ min cap (sum_by (vlan_cost (λ rules. sum_by (ports_named ports.now.dp.now) rules) acls.now ports.now.dp.now) acls.now.vlans)) }
{
    let edges = Edges::of(ports.dp());
    let mut sum = 0;
    for vlan in acls.conf().vlans().as_slice() {
        let named = outputs_for_vlan(alloc, acls, ports, cap, &edges, vlan)?;
        sum = add(cap, sum, named);
    }
    Ok(sum)
}

/// How many ports the ACLs that are attached on a datapath name there, rule by rule.
pub(crate) fn acl_outputs(
    alloc: Global,
    acls: &AclNames,
    cap: usize,
    dp: &Dp,
) -> Result<usize, NoMemory>
    ensures { IfOk result (λ sum. sum ≡ min cap (acl_outputs acls.now dp.now)) }
{
    let ports = PortPlaces::of(alloc, dp)?;
    let on_ports = outputs_on_ports(alloc, acls, &ports, cap)?;
    let for_vlans = outputs_for_vlans(alloc, acls, &ports, cap)?;
    Ok(add(cap, on_ports, for_vlans))
}
