//! Whether what a packet tells differs from what was known.

ghost use Rattle.std.specs.Prelude.{◌≡◌, None, Option};
ghost use Rattle.std.specs.Option.{option_eq};
ghost use Rattle.conf_types.specs.Changes.{mac_of_neighbour};
ghost use Rattle.ctl_core.specs.declared.compared.Standing.{Standing};
ghost use Rattle.ctl_core.specs.declared.found.Found.TheVariants.{Heard, One};
ghost use Rattle.ctl_core.specs.Told.{address_of, exactly_by, is_same_place, place, place_at, place_of};
ghost use Rattle.ctl_settle.specs.Names.{is_other};
ghost use Rattle.law_names.specs.Differing.{is_one_address};

use crate::before::{is_same, mac_of};
use crate::found::Found;
use conf_types::{Change, Conf, HostRec};
use ctl_settle::Touched;
use ctl_world::World;
use net_base::{DpId, Mac, Moment, PortNo};
use std::alloc::Global;

/// Where a host stands, and whether it is fresh.
#[derive(Clone, Copy, Debug)]
pub(crate) struct Standing {
    pub dp: DpId,
    pub port: PortNo,
    pub is_fresh: bool,
}

fn place(conf: &Conf, moment: Moment, host: &HostRec) -> Standing
    ensures { result ≡ place conf.now moment.0 host.now }
{
    Standing {
        dp: host.dp,
        port: host.port,
        is_fresh: conf.is_fresh(moment, host),
    }
}

/// The place of the host that was heard, where it is known.
fn place_at(world: &World, heard: &HostRec) -> Option<Standing>
    ensures { result ≡ place_at world.now heard.now }
{
    match world.hosts.get(&world.conf, heard.dp, heard.vid, heard.mac) {
        Some(known) => Some(place(&world.conf, world.moment, known)),
        None => None,
    }
}

/// What is known of the place of a host that a packet tells of.
pub(crate) fn place_of(world: &World, found: &Found) -> Option<Standing>
    ensures { result ≡ place_of world.now found.now }
{
    match found {
        Found::Heard(host) => place_at(world, host),
        _ => None,
    }
}

/// What is known of the Ethernet address of a neighbour that a packet tells of.
pub(crate) fn address_of(world: &World, found: &Found) -> Option<Mac>
    ensures { result ≡ address_of world.now found.now }
{
    match found {
        Found::One(Change::Neighbour { group, vid, ip }) => {
            mac_of(world.neighbours.list(), *group, *vid, *ip)
        }
        _ => None,
    }
}

fn is_other(a: bool, b: bool) -> bool
    ensures { result ≡ is_other a b }
{
    a != b
}

fn is_same_place(a: Standing, b: Standing) -> bool
    ensures { result ≡ is_same_place a b }
{
    a.dp == b.dp && a.port.get() == b.port.get() && !is_other(a.is_fresh, b.is_fresh)
}

fn are_same_places(a: Option<Standing>, b: Option<Standing>) -> bool
    ensures { result ≡ option_eq is_same_place a b }
{
    match (a, b) {
        (Some(a), Some(b)) => is_same_place(a, b),
        (None, None) => true,
        _ => false,
    }
}

fn are_same_addresses(a: Option<Mac>, b: Option<Mac>) -> bool
    ensures { result ≡ option_eq is_one_address a b }
{
    match (a, b) {
        (Some(a), Some(b)) => is_same(a, b),
        (None, None) => true,
        _ => false,
    }
}

/// What differs of a host that was heard, where its place was known before.
fn by_place(alloc: Global, world: &World, host: HostRec, place: Option<Standing>) -> Found
    ensures { result ≡ exactly_by place None world.now (Heard host) }
{
    if are_same_places(place, place_at(world, &host)) {
        Found::Named(Touched::nothing(alloc))
    } else {
        Found::Heard(host)
    }
}

/// What differs of a part of the state, where the address was known of it before, if it is a neighbour.
fn by_address(world: &World, change: Change, address: Option<Mac>) -> Found
    ensures { (was : Option Standing) → result ≡ exactly_by was address world.now (One change) }
{
    match change {
        Change::Neighbour { group, vid, ip } => {
            if are_same_addresses(address, mac_of(world.neighbours.list(), group, vid, ip)) {
                Found::Due
            } else {
                Found::One(change)
            }
        }
        Change::Host { .. } | Change::Port { .. } | Change::Dp(_) => Found::One(change),
    }
}

/// What differs of what a packet told, where this was known of it.
pub(crate) fn exactly(
    alloc: Global,
    world: &World,
    found: Found,
    place: Option<Standing>,
    address: Option<Mac>,
) -> Found
    ensures { result ≡ exactly_by place address world.now found }
{
    match found {
        Found::Heard(host) => by_place(alloc, world, host, place),
        Found::One(change) => by_address(world, change, address),
        other => other,
    }
}
