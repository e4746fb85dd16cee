//! The units that changes reach, listed from the changes.

ghost use Rattle.std.specs.Prelude.{◌≡◌, ◌++◌, map, filter, IfOk, OnOk};
ghost use Rattle.std.specs.BTreeSet.{IsFromIterResult};
ghost use Rattle.std.specs.Option.{option_copied};
ghost use Rattle.conf_types.specs.Lists.{is_among};
ghost use Rattle.conf_types.specs.Routing.{router_with, routing_set};
ghost use Rattle.plan_units.specs.declared.unit.Unit.TheVariants as unit;
ghost use Rattle.plan_units.specs.Order.{unit_cmp};
ghost use Rattle.warm_plan.specs.Effects.{is_at, has_vlan, touches, is_linked, is_held, own_unit, touched_ports, linked_units, routed_units, units_by, all_units_by, named_unit, named_units};
ghost use Rattle.warm_plan.specs.Once.{AreOnce};

use crate::effect::{Effect, HostEffect};
use crate::units::{hosts_in, push_hosts, push_vlans};
use conf_types::{Conf, Dp, Port, Router, Vlan};
use host_list::Hosts;
use net_base::{Items, Mac, NoMemory, PortNo, Vid};
use plan_units::Unit;
use std::alloc::Global;
use std::collections::BTreeSet;

fn is_at(place: Option<PortNo>, no: PortNo) -> bool
    ensures { result ≡ is_at place no }
{
    match place {
        Some(port) => port.get() == no.get(),
        None => false,
    }
}

fn has_vlan(dp: &Dp, no: PortNo, vid: Vid) -> bool
    ensures { result ≡ has_vlan dp.now no vid }
{
    match dp.port(no) {
        Some(port) => port.is_edge_member(vid),
        None => false,
    }
}

fn touches(dp: &Dp, host: &HostEffect, no: PortNo) -> bool
    ensures { result ≡ touches dp.now host.now no }
{
    (host.is_ours
        && ((is_at(host.stood, no) || is_at(host.stands, no))
            || (has_vlan(dp, no, host.vid) && host.turns_vlan)))
        || host.turns_table
}

/// Whether the entries of a unit hang on the stack's links.
pub(crate) fn is_linked(unit: &Unit) -> bool
    ensures { result ≡ is_linked unit.now }
{
    match unit {
        Unit::Dp => false,
        Unit::Port(_) => false,
        Unit::Vlan(_) => true,
        Unit::Host(_, _) => true,
        Unit::Route(_) => false,
    }
}

fn is_among(vids: &[Vid], vid: Vid) -> bool
    ensures { result ≡ is_among vids.now vid }
{
    vids.iter().any(|other| other.get() == vid.get())
}

fn find_router(routers: &[Router], vid: Vid) -> Option<&Router>
    ensures { option_copied result ≡ router_with routers.now vid }
{
    routers.iter().find(|router| router.has(vid))
}

/// Whether a VLAN is in the routing set of another one.
fn is_routed_with(conf: &Conf, vlan: Vid, vid: Vid) -> bool
    ensures { result ≡ is_among (routing_set conf.now vlan) vid }
{
    match find_router(conf.routers().as_slice(), vlan) {
        Some(router) => router.has(vid),
        None => is_among(&[vlan], vid),
    }
}

fn is_held(conf: &Conf, dp: &Dp, hosts: &Hosts, vid: Vid, mac: Mac) -> bool
    ensures { result ≡ is_held conf.now dp.now hosts.now vid mac }
{
    hosts.get(conf, dp.id, vid, mac).is_some()
}

fn ports_by(
    alloc: Global,
    ports: &[Port],
    dp: &Dp,
    host: &HostEffect,
) -> Result<Vec<Unit>, NoMemory>
    ensures { IfOk result (λ made. made.items ≡ map (λ i. unit.Port i.no) (filter (λ i. touches dp.now host.now i.no) ports.now)) }
{
    ports
        .iter()
        .filter(|port| touches(dp, host, port.no))
        .map(|port| Unit::Port(port.no))
        .collect(alloc)
}

/// Of a host: itself, where it is there, and the ports that have to look at it.
fn host_units(
    alloc: Global,
    conf: &Conf,
    dp: &Dp,
    hosts: &Hosts,
    host: &HostEffect,
) -> Result<Items<Unit>, NoMemory>
    ensures { IfOk result (λ made. made ≡ own_unit conf.now dp.now hosts.now host.now ++ touched_ports conf.now dp.now hosts.now host.now) }
{
    let mut made = Items::new(alloc);
    if host.is_ours && is_held(conf, dp, hosts, host.vid, host.mac) {
        made.push(Unit::Host(host.vid, host.mac))?;
    }
    let ports = ports_by(alloc, dp.ports.as_slice(), dp, host)?;
    made.append(ports.as_slice())?;
    Ok(made)
}

/// Each VLAN, and each host of the datapath's group.
fn linked_units(alloc: Global, conf: &Conf, dp: &Dp, hosts: &Hosts) -> Result<Items<Unit>, NoMemory>
    ensures { IfOk result (λ made. made ≡ linked_units conf.now dp.now hosts.now) }
{
    let ours = hosts_in(alloc, conf, hosts, conf.group_number(dp.id))?;
    let mut made = Items::new(alloc);
    push_vlans(&mut made, conf.vlans().as_slice())?;
    push_hosts(&mut made, ours.as_slice())?;
    Ok(made)
}

fn routes_by(alloc: Global, conf: &Conf, vlans: &[Vlan], vid: Vid) -> Result<Vec<Unit>, NoMemory>
    ensures { IfOk result (λ made. made.items ≡ map (λ v. unit.Route v.vid) (filter (λ v. is_among (routing_set conf.now v.vid) vid) vlans.now)) }
{
    vlans
        .iter()
        .filter(|vlan| is_routed_with(conf, vlan.vid, vid))
        .map(|vlan| Unit::Route(vlan.vid))
        .collect(alloc)
}

fn units_by(
    alloc: Global,
    conf: &Conf,
    dp: &Dp,
    hosts: &Hosts,
    effect: &Effect,
) -> Result<Items<Unit>, NoMemory>
    ensures { IfOk result (λ made. made ≡ units_by conf.now dp.now hosts.now effect.now) }
{
    match effect {
        Effect::Nothing => Ok(Items::new(alloc)),
        Effect::Host(host) => host_units(alloc, conf, dp, hosts, host),
        Effect::Stack => linked_units(alloc, conf, dp, hosts),
        Effect::Routes(vid) => {
            let routes = routes_by(alloc, conf, conf.vlans().as_slice(), *vid)?;
            Ok(Items::from(routes))
        }
    }
}

fn all_units_by(
    alloc: Global,
    conf: &Conf,
    dp: &Dp,
    hosts: &Hosts,
    effects: &[Effect],
) -> Result<Items<Unit>, NoMemory>
    ensures { IfOk result (λ made. made ≡ all_units_by conf.now dp.now hosts.now effects.now) }
{
    let mut made = Items::new(alloc);
    for effect in effects {
        let more = units_by(alloc, conf, dp, hosts, effect)?;
        made.append(more.as_slice())?;
    }
    Ok(made)
}

/// The unit of a host of the datapath's group that a change names, be it there or not.
fn push_named(out: &mut Items<Unit>, effect: &Effect) -> Result<(), NoMemory>
    ensures { OnOk result (out.new ≡ out.old ++ named_unit effect.now) }
{
    if let Effect::Host(host) = effect {
        if host.is_ours {
            out.push(Unit::Host(host.vid, host.mac))?;
        }
    }
    Ok(())
}

/// The units of the hosts of the datapath's group that changes name.
pub(crate) fn named_units(alloc: Global, effects: &[Effect]) -> Result<Items<Unit>, NoMemory>
    ensures { IfOk result (λ made. made ≡ named_units effects.now) }
{
    let mut made = Items::new(alloc);
    for effect in effects {
        push_named(&mut made, effect)?;
    }
    Ok(made)
}

fn set_of(alloc: Global, units: &[Unit]) -> Result<BTreeSet<Unit>, NoMemory>
    ensures { IfOk result (IsFromIterResult unit_cmp units.now) }
{
    units.iter().copied().collect(alloc)
}

fn members(alloc: Global, set: &BTreeSet<Unit>) -> Result<Vec<Unit>, NoMemory>
    ensures { IfOk result (λ made. made.items ≡ set.now.keys) }
{
    set.iter().copied().collect(alloc)
}

/// These units, each once.
fn once(alloc: Global, units: &[Unit]) -> Result<Vec<Unit>, NoMemory>
    ensures { IfOk result (λ made. AreOnce made.items units.now) }
{
    let set = set_of(alloc, units)?;
    members(alloc, &set)
}

/// The units of a datapath in a state with these hosts that are reached, each once.
pub(crate) fn reached(
    alloc: Global,
    conf: &Conf,
    dp: &Dp,
    hosts: &Hosts,
    effects: &[Effect],
) -> Result<Vec<Unit>, NoMemory>
    ensures { IfOk result (λ made. AreOnce made.items (all_units_by conf.now dp.now hosts.now effects.now)) }
{
    let all = all_units_by(alloc, conf, dp, hosts, effects)?;
    once(alloc, all.as_slice())
}
