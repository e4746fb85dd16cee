//! The hosts in the order of learning, with what is kept to look them up.

ghost use Rattle.std.specs.Prelude.{◌≡◌, ◌<◌, ◌≤◌, ◌+◌, ◌^◌, ◌++◌, ◌∷◌, [], ◌==◌, ◌&&◌, true, None, Some, count_by, length, slice_get, slice_index_or, filter, sum_by, IfOk, OnOk, OnErr};
ghost use Rattle.std.specs.BTreeMap.{is_at};
ghost use Rattle.std.specs.Map.{lookup};
ghost use Rattle.std.specs.Option.{option_copied};
ghost use Rattle.std.specs.Ordering.{nat_cmp};
ghost use Rattle.std.specs.List.{AllByRecursion};
ghost use Rattle.conf_types.specs.declared.datapath.Dp.{Dp};
ghost use Rattle.conf_types.specs.Groups.{IsDp};
ghost use Rattle.conf_types.specs.State.{is_host_at, is_host_in, is_to_forget};
ghost use Rattle.indexmap.specs.IndexMap.{spare};
ghost use Rattle.host_list.specs.Addresses.{address_of, has_address, heard_at, off_place};
ghost use Rattle.host_list.specs.Counts.{at_spot};
ghost use Rattle.host_list.specs.Leaving.{from_place, leaves};
ghost use Rattle.host_list.specs.Order.{AreRising, AreShelves, both_spot, first_place, hosts_of, port_spot, share, vlan_part, vlan_spot};
ghost use Rattle.host_list.specs.Passed.{earlier, least_until};
ghost use Rattle.host_list.specs.Shelves.{is_shelved};

use crate::addresses::{Address, Addresses, Entry, entries, put, refresh, take};
use crate::ageing::Passed;
use crate::counts::{Counts, Spot, count, lower, raise};
use crate::shelves::{Shelf, hear, note, tighten};
use conf_types::{Conf, HostRec};
use indexmap::IndexMap;
use net_base::{DpId, Mac, Moment, NoMemory, PortNo, Vid};
use std::alloc::{AllocError, Global};
use std::collections::BTreeMap;
use std::collections::btree_map::Values;
use std::marker::Model;

/// The hosts in the order of learning, each with a place that only grows. Contracts see the hosts with
/// their places.
#[derive(Debug, Drop)]
pub(crate) struct Order {
    alloc: Global,
    next: u64,
    hosts: BTreeMap<u64, HostRec>,
    addresses: Addresses,
    counts: Counts,
    shelves: Vec<Shelf>,
}

/// The hosts that leave.
#[derive(Clone, Copy)]
pub(crate) enum Leaving {
    /// Those at a port.
    Port(DpId, PortNo),
    /// Those of a datapath.
    Datapath(DpId),
}

impl Leaving {
    fn has(&self, host: &HostRec) -> bool
        ensures { result ≡ leaves self.now host.now }
    {
        match *self {
            Leaving::Port(dp, port) => host.is_at(dp, port),
            Leaving::Datapath(dp) => host.dp == dp,
        }
    }
}

impl Model for Order {
    ghost use Rattle.std.specs.Prelude.{List};
    ghost use Rattle.host_list.specs.Addresses.{Entry};
    ghost use Rattle.host_list.specs.Leaving.{from_place, leaves};
    ghost use Rattle.host_list.specs.Order.{IsIndexed};

    ghost Value = { List Entry };

    ghost view = { λ o. o.hosts.entries };

    ghost invariant = { λ o. IsIndexed o.next o.hosts.entries o.addresses o.counts o.shelves.items };
}

pub(crate) fn key_address(vid: Vid, mac: Mac) -> Address
    ensures { result ≡ record { vid = vid; mac = mac } }
{
    Address {
        vid: vid.get(),
        mac,
    }
}

pub(crate) fn address_of(host: &HostRec) -> Address
    ensures { result ≡ address_of host.now }
{
    Address {
        vid: host.vid.get(),
        mac: host.mac,
    }
}

fn port_spot(host: &HostRec) -> Spot
    ensures { result ≡ port_spot host.now }
{
    Spot {
        dp: host.dp,
        port: Some(host.port.get()),
        vid: None,
    }
}

fn vlan_spot(host: &HostRec) -> Spot
    ensures { result ≡ vlan_spot host.now }
{
    Spot {
        dp: host.dp,
        port: None,
        vid: Some(host.vid.get()),
    }
}

fn both_spot(host: &HostRec) -> Spot
    ensures { result ≡ both_spot host.now }
{
    Spot {
        dp: host.dp,
        port: Some(host.port.get()),
        vid: Some(host.vid.get()),
    }
}

fn earlier(a: Moment, b: Moment) -> Moment
    ensures { result ≡ earlier a b }
{
    if b.0 < a.0 { b } else { a }
}

fn count_in(counts: &mut Counts, host: &HostRec)
    requires room { 3 ≤ spare counts.old }
    requires small { (q : Spot) → at_spot counts.old q < 2 ^ 40 }
    ensures { (q : Spot) → at_spot counts.new q ≡ at_spot counts.old q + share q host.now }
{
    raise(counts, port_spot(host));
    raise(counts, vlan_spot(host));
    raise(counts, both_spot(host));
}

fn count_out(counts: &mut Counts, host: &HostRec)
    requires { (q : Spot) → share q host.now ≤ at_spot counts.old q }
    ensures { (q : Spot) → at_spot counts.new q + share q host.now ≡ at_spot counts.old q }
{
    lower(counts, port_spot(host));
    lower(counts, vlan_spot(host));
    lower(counts, both_spot(host));
}

fn at_port(dp: DpId, port: PortNo) -> Spot
    ensures { result ≡ record { dp = dp; port = Some port; vid = None } }
{
    Spot {
        dp,
        port: Some(port.get()),
        vid: None,
    }
}

fn at_both(dp: DpId, port: PortNo, vid: Vid) -> Spot
    ensures { result ≡ record { dp = dp; port = Some port; vid = Some vid } }
{
    Spot {
        dp,
        port: Some(port.get()),
        vid: Some(vid.get()),
    }
}

/// How many hosts stand at a port.
pub(crate) fn port_count(order: &Order, dp: DpId, port: PortNo) -> usize
    ensures { result ≡ count_by (is_host_at dp port) (hosts_of order.now) }
{
    order.count(&at_port(dp, port))
}

/// How many hosts of a VLAN stand at a port.
pub(crate) fn vlan_at_count(order: &Order, dp: DpId, port: PortNo, vid: Vid) -> usize
    ensures { result ≡ count_by (λ h. is_host_at dp port h && h.vid == vid) (hosts_of order.now) }
{
    order.count(&at_both(dp, port, vid))
}

fn at_vlan(dp: DpId, vid: Vid) -> Spot
    ensures { result ≡ record { dp = dp; port = None; vid = Some vid } }
{
    Spot {
        dp,
        port: None,
        vid: Some(vid.get()),
    }
}

fn vlan_part(conf: &Conf, order: &Order, group: DpId, vid: Vid, at: usize) -> usize
    requires { at < length conf.now.dps }
    ensures { (d : Dp) → result ≡ vlan_part conf.now order.now group vid (slice_index_or conf.now.dps at d) }
{
    if conf.group_of_place(at) == group {
        let dps = conf.dps().as_slice();
        order.count(&at_vlan(dps[at].id, vid))
    } else {
        0
    }
}

/// How many hosts of a VLAN stand on the datapaths of a group of the configuration.
fn group_count(conf: &Conf, order: &Order, group: DpId, vid: Vid) -> usize
    requires few { length order.now ≤ 2 ^ 32 }
    requires known { IsDp conf.now group }
    ensures { result ≡ count_by (is_host_in conf.now group vid) (hosts_of order.now) }
{
    let mut count = 0;
    for at in 0..conf.dps().as_slice().len() {
        count += vlan_part(conf, order, group, vid, at);
    }
    count
}

/// How many hosts of a VLAN stand in the group with this number, which is a datapath alone where the configuration
/// has none with this identifier.
pub(crate) fn vlan_count(conf: &Conf, order: &Order, group: DpId, vid: Vid) -> usize
    requires { length order.now ≤ 2 ^ 32 }
    ensures { result ≡ count_by (is_host_in conf.now group vid) (hosts_of order.now) }
{
    match conf.group(group) {
        Some(_) => group_count(conf, order, group, vid),
        None => order.count(&at_vlan(group, vid)),
    }
}

impl Order {
    pub(crate) fn new(alloc: Global) -> Order
        ensures { result ≡ [] }
    {
        Order {
            alloc,
            next: 0,
            hosts: BTreeMap::new(alloc),
            addresses: IndexMap::new(alloc),
            counts: IndexMap::new(alloc),
            shelves: Vec::new(alloc),
        }
    }

    pub(crate) fn len(&self) -> usize
        ensures { result ≡ length self.now }
    {
        self.hosts.len()
    }

    /// The host at a place in the order, counted from 0.
    pub(crate) fn nth(&self, nth: usize) -> Option<&HostRec>
        ensures { option_copied result ≡ slice_get (hosts_of self.now) nth }
    {
        self.hosts.values().nth(nth)
    }

    /// The hosts alone, in order, one after another.
    pub(crate) fn iter(&self) -> Values<'_, u64, HostRec>
        ensures { result ≡ hosts_of self.now }
    {
        self.hosts.values()
    }

    /// The hosts alone, in order.
    pub(crate) fn hosts(&self, alloc: Global) -> Result<Vec<HostRec>, NoMemory>
        ensures { IfOk result (λ hosts. hosts.items ≡ hosts_of self.now) }
    {
        self.hosts.values().copied().collect(alloc)
    }

    /// The hosts of an address, in order, with their places.
    pub(crate) fn entries(&self, address: &Address) -> &[Entry]
        ensures value { result.now ≡ filter (has_address address.now) self.now }
        ensures rising { AreRising self.now }
    {
        entries(&self.addresses, address)
    }

    pub(crate) fn count(&self, spot: &Spot) -> usize
        ensures { result ≡ sum_by (λ e. share spot.now e.1) self.now }
    {
        count(&self.counts, spot)
    }

    /// The datapaths of the hosts.
    pub(crate) fn shelves(&self) -> &[Shelf]
        ensures each { AllByRecursion (λ e. is_shelved result.now e.1 ≡ true) self.now }
        ensures apart { AreShelves result.now }
    {
        self.shelves.as_slice()
    }

    /// Takes out the host at a place.
    pub(crate) fn remove(&mut self, place: u64) -> Option<HostRec>
        ensures found { result ≡ lookup (is_at (nat_cmp place)) self.old }
        ensures left { self.new ≡ off_place place self.old }
    {
        let Some(host) = self.hosts.remove(&place) else {
            return None;
        };
        take(&mut self.addresses, &address_of(&host), place);
        count_out(&mut self.counts, &host);
        Some(host)
    }

    /// Puts a host last, and answers its place.
    pub(crate) fn push(&mut self, host: &HostRec) -> Result<u64, NoMemory>
        requires { length self.old < 2 ^ 32 }
        ensures last { IfOk result (λ place. AllByRecursion (λ e. e.0 < place) self.old) }
        ensures ok { IfOk result (λ place. self.new ≡ self.old ++ (place, host.now) ∷ []) }
        ensures err { OnErr result (self.new ≡ self.old) }
    {
        let place = self.next;
        let Some(next) = place.checked_add(1) else {
            return Err(AllocError);
        };
        self.counts.reserve(3)?;
        note(&mut self.shelves, host.dp, host.learned)?;
        self.hosts.insert(place, *host)?;
        if let Err(refused) = put(
            self.alloc,
            &mut self.addresses,
            address_of(host),
            (place, *host),
        ) {
            self.hosts.remove(&place);
            return Err(refused);
        }
        count_in(&mut self.counts, host);
        self.next = next;
        Ok(place)
    }

    /// Gives the host at a place another moment.
    pub(crate) fn refresh(&mut self, place: u64, moment: Moment)
        ensures { self.new ≡ heard_at place moment self.old }
    {
        let Some(host) = self.hosts.get_mut(&place) else {
            return;
        };
        host.learned = moment;
        let address = address_of(host);
        let dp = host.dp;
        refresh(&mut self.addresses, &address, place, moment);
        hear(&mut self.shelves, dp, moment);
    }

    /// Gives each datapath the least moment of its hosts, where one of them may be to be forgotten.
    pub(crate) fn tighten(&mut self, conf: &Conf, now: Moment)
        ensures { self.new ≡ self.old }
    {
        tighten(conf, now, &self.hosts, &mut self.shelves);
    }

    /// Where the first host stands that is to be forgotten, behind those that were passed; and a moment
    /// before which neither these nor those before that place were heard.
    pub(crate) fn next_due(
        &self,
        passed: &Passed,
        conf: &Conf,
        now: Moment,
    ) -> (Option<u64>, Moment)
        ensures place { result.0 ≡ first_place (is_to_forget conf.now now.0) (from_place passed.now.front self.now) }
        ensures least { result.1 ≡ least_until (is_to_forget conf.now now.0) passed.now.least (from_place passed.now.front self.now) }
        ensures rising { AreRising self.now }
    {
        let mut least = passed.least;
        for (place, host) in self.hosts.range(passed.front..) {
            if conf.is_to_forget(now, host) {
                return (Some(*place), least);
            }
            least = earlier(least, host.learned);
        }
        (None, least)
    }

    /// Where the first host stands that leaves, from a place on.
    pub(crate) fn first_leaving(&self, from: u64, leaving: &Leaving) -> Option<u64>
        ensures value { result ≡ first_place (leaves leaving.now) (from_place from self.now) }
        ensures rising { AreRising self.now }
    {
        for (place, host) in self.hosts.range(from..) {
            if leaving.has(host) {
                return Some(*place);
            }
        }
        None
    }
}
