//! What is named once, and what is named at all.

ghost use Rattle.std.specs.Prelude.{◌≡◌, ◌++◌, [], IfOk, codes};
ghost use Rattle.std.specs.List.{flat_map};
ghost use Rattle.conf_resolve.specs.InOrder.{dp_site, port_site};
ghost use Rattle.conf_shape.specs.declared.refused.ConfCause.TheVariants.{Duplicate};
ghost use Rattle.conf_rules.specs.Names.{vid_site, repeated_vlans, repeated_dps, number_site, repeated_ports_of, repeated_ports, are_both, both_of_vlan, both_of_dp, acls_twice};
ghost use Rattle.conf_rules.specs.Places.{first, fault_if, name_site, under};

use conf_resolve::{OrderedConf, PlacedVlan, see_number};
use conf_rules::{Found, broken, dp_site, name_site, port_site, see_name, under, under_port};
use conf_shape::{ConfCause, RawAclNames, RawDp, RawPort};
use net_base::{Names, NoMemory, TryCopy};
use std::alloc::Global;
use std::collections::BTreeSet;

/// Whether the number and the name of an item are those of an earlier one.
#[derive(Clone, Copy)]
struct Again {
    number: bool,
    name: bool,
}

fn vid_site(alloc: Global, placed: &PlacedVlan) -> Result<Names, NoMemory>
    ensures { IfOk result (λ site. site ≡ vid_site placed.now) }
{
    let site = placed.site.copy(alloc)?;
    if placed.vlan.has_vid {
        under(alloc, site, "vid")
    } else {
        Ok(site)
    }
}

fn repeated_vlan(alloc: Global, placed: &PlacedVlan, again: Again) -> Found
    ensures { IfOk result (λ found. found ≡ first (fault_if again.number Duplicate (vid_site placed.now) ++ fault_if again.name Duplicate (name_site placed.now.site placed.now.vlan.names))) }
{
    if again.number {
        return broken(alloc, ConfCause::Duplicate, vid_site(alloc, placed)?);
    }
    if again.name {
        let site = placed.site.copy(alloc)?;
        let site = name_site(alloc, site, &placed.vlan.names)?;
        return broken(alloc, ConfCause::Duplicate, site);
    }
    Ok(None)
}

/// Numbers and names of VLANs are distinct.
#[tactic(auto, using(conf_rules::proofs::First::first_rules))]
pub(crate) fn repeated_vlans(alloc: Global, ordered: &OrderedConf) -> Found
    ensures { IfOk result (λ found. found ≡ first (repeated_vlans ordered.now)) }
{
    let mut vids = BTreeSet::new(alloc);
    let mut names = BTreeSet::new(alloc);
    for placed in ordered.vlans.as_slice() {
        let number = see_number(&mut vids, u128::from(placed.vlan.vid.get()))?;
        let name = see_name(alloc, &mut names, &placed.vlan.names.name)?;
        if let Some(found) = repeated_vlan(alloc, placed, Again { number, name })? {
            return Ok(Some(found));
        }
    }
    Ok(None)
}

fn repeated_dp(alloc: Global, dp: &RawDp, again: Again) -> Found
    ensures { IfOk result (λ found. found ≡ first (fault_if again.number Duplicate (under (dp_site dp.now) (codes "dp_id")) ++ fault_if again.name Duplicate (name_site (dp_site dp.now) dp.now.names))) }
{
    if again.number {
        let site = under(alloc, dp_site(alloc, dp)?, "dp_id")?;
        return broken(alloc, ConfCause::Duplicate, site);
    }
    if again.name {
        let site = name_site(alloc, dp_site(alloc, dp)?, &dp.names)?;
        return broken(alloc, ConfCause::Duplicate, site);
    }
    Ok(None)
}

/// Identifiers and names of datapaths are distinct.
#[tactic(auto, using(conf_rules::proofs::First::first_rules))]
pub(crate) fn repeated_dps(alloc: Global, ordered: &OrderedConf) -> Found
    ensures { IfOk result (λ found. found ≡ first (repeated_dps ordered.now)) }
{
    let mut ids = BTreeSet::new(alloc);
    let mut names = BTreeSet::new(alloc);
    for dp in ordered.dps.as_slice() {
        let number = see_number(&mut ids, u128::from(dp.id.0))?;
        let name = see_name(alloc, &mut names, &dp.names.name)?;
        if let Some(found) = repeated_dp(alloc, dp, Again { number, name })? {
            return Ok(Some(found));
        }
    }
    Ok(None)
}

fn number_site(alloc: Global, dp: &RawDp, port: &RawPort) -> Result<Names, NoMemory>
    ensures { IfOk result (λ site. site ≡ number_site dp.now port.now) }
{
    if port.has_number {
        under_port(alloc, dp, port, "number")
    } else {
        port_site(alloc, dp, port)
    }
}

fn repeated_port(alloc: Global, dp: &RawDp, port: &RawPort, again: Again) -> Found
    ensures { IfOk result (λ found. found ≡ first (fault_if again.number Duplicate (number_site dp.now port.now) ++ fault_if again.name Duplicate (name_site (port_site dp.now port.now) port.now.names))) }
{
    if again.number {
        return broken(alloc, ConfCause::Duplicate, number_site(alloc, dp, port)?);
    }
    if again.name {
        let site = name_site(alloc, port_site(alloc, dp, port)?, &port.names)?;
        return broken(alloc, ConfCause::Duplicate, site);
    }
    Ok(None)
}

#[tactic(auto, using(conf_rules::proofs::First::first_rules))]
fn repeated_ports_of(alloc: Global, dp: &RawDp) -> Found
    ensures { IfOk result (λ found. found ≡ first (repeated_ports_of dp.now)) }
{
    let mut numbers = BTreeSet::new(alloc);
    let mut names = BTreeSet::new(alloc);
    for port in dp.ports.as_slice() {
        let number = see_number(&mut numbers, u128::from(port.no.get()))?;
        let name = see_name(alloc, &mut names, &port.names.name)?;
        if let Some(found) = repeated_port(alloc, dp, port, Again { number, name })? {
            return Ok(Some(found));
        }
    }
    Ok(None)
}

/// Numbers and names of a datapath's interfaces are distinct.
#[tactic(auto, using(conf_rules::proofs::First::first_rules))]
pub(crate) fn repeated_ports(alloc: Global, ordered: &OrderedConf) -> Found
    ensures { IfOk result (λ found. found ≡ first (repeated_ports ordered.now)) }
{
    for dp in ordered.dps.as_slice() {
        if let Some(found) = repeated_ports_of(alloc, dp)? {
            return Ok(Some(found));
        }
    }
    Ok(None)
}

fn are_both(acls: &RawAclNames) -> bool
    ensures { result ≡ are_both acls.now }
{
    acls.one.is_some() && acls.list.is_some()
}

#[tactic(auto, using(conf_rules::proofs::First::first_rules))]
fn both_of_vlans(alloc: Global, vlans: &[PlacedVlan]) -> Found
    ensures { IfOk result (λ found. found ≡ first (flat_map both_of_vlan vlans.now)) }
{
    for placed in vlans {
        if are_both(&placed.vlan.acls) {
            return broken(alloc, ConfCause::Conflict(7), placed.site.copy(alloc)?);
        }
    }
    Ok(None)
}

#[tactic(auto, using(conf_rules::proofs::First::first_rules))]
fn both_of_dp(alloc: Global, dp: &RawDp) -> Found
    ensures { IfOk result (λ found. found ≡ first (both_of_dp dp.now)) }
{
    for port in dp.ports.as_slice() {
        if are_both(&port.acls) {
            return broken(alloc, ConfCause::Conflict(7), port_site(alloc, dp, port)?);
        }
    }
    Ok(None)
}

/// `acl_in` and `acls_in` don't stand together.
#[tactic(auto, using(conf_rules::proofs::First::first_rules))]
pub(crate) fn acls_twice(alloc: Global, ordered: &OrderedConf) -> Found
    ensures { IfOk result (λ found. found ≡ first (acls_twice ordered.now)) }
{
    if let Some(found) = both_of_vlans(alloc, ordered.vlans.as_slice())? {
        return Ok(Some(found));
    }
    for dp in ordered.dps.as_slice() {
        if let Some(found) = both_of_dp(alloc, dp)? {
            return Ok(Some(found));
        }
    }
    Ok(None)
}
