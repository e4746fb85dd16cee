//! What is kept of the hosts of a state, for what a change to the next one reaches.

ghost use Rattle.std.specs.Prelude.{◌≡◌, ◌++◌, IfOk, OnOk};
ghost use Rattle.std.specs.BTreeMap.{get};
ghost use Rattle.std.specs.BTreeSet.{contains};
ghost use Rattle.conf_types.specs.Changes.{AreNamed};
ghost use Rattle.conf_types.specs.State.{State, is_table_full};
ghost use Rattle.plan_units.specs.declared.unit.Unit.TheVariants as unit;
ghost use Rattle.plan_units.specs.Order.{unit_cmp};
ghost use Rattle.packet_way.specs.Present.{state_of};
ghost use Rattle.warm_plan.specs.Kept.{ArePlaces, IsSound};
ghost use Rattle.warm_plan.specs.Places.{kept_places, no_places, places_of, port_on, port_in, is_full_in, renewed, all_renewed, moved_units, all_moved};
ghost use Rattle.warm_plan.specs.Units.{put};

use crate::units::units_of;
use conf_types::{Change, Conf, Dp, HostRec, MOST_HOSTS};
use host_list::{CountsHosts, Hosts};
use net_base::{DpId, Items, Mac, NoMemory, PortNo, Vid};
use packet_way::Now;
use plan_units::Unit;
use std::alloc::Global;
use std::collections::{BTreeMap, BTreeSet};

/// Where hosts of a datapath's group stood on the datapath, and what was full.
#[derive(Debug, Drop)]
pub(crate) struct Stood {
    /// The ports, by the hosts' units.
    pub(crate) ports: BTreeMap<Unit, PortNo>,
    /// The units of the VLANs that had as many hosts as they may in the group.
    pub(crate) full: BTreeSet<Unit>,
    /// All hosts together were as many as may be.
    pub(crate) is_table_full: bool,
}

fn port_on(dp: &Dp, host: &HostRec) -> Option<PortNo>
    ensures { result ≡ port_on dp.now host.now }
{
    if host.dp == dp.id {
        Some(host.port)
    } else {
        None
    }
}

/// The port of the datapath at which a host of its group stands.
pub(crate) fn port_in(conf: &Conf, dp: &Dp, hosts: &Hosts, vid: Vid, mac: Mac) -> Option<PortNo>
    ensures { result ≡ port_in conf.now dp.now hosts.now vid mac }
{
    match hosts.get(conf, dp.id, vid, mac) {
        Some(host) => port_on(dp, host),
        None => None,
    }
}

/// Whether a VLAN has as many hosts as it may in the datapath's group.
pub(crate) fn is_full_in(conf: &Conf, dp: &Dp, hosts: &Hosts, vid: Vid) -> bool
    ensures { result ≡ is_full_in conf.now dp.now hosts.now vid }
{
    match conf.vlan(vid) {
        Some(vlan) => {
            let group = conf.group_number(dp.id);
            vlan.max_hosts as usize <= hosts.in_vlan(conf, group, vlan.vid)
        }
        None => false,
    }
}

pub(crate) fn is_table_full(hosts: &Hosts) -> bool
    ensures { result ≡ is_table_full hosts.now }
{
    MOST_HOSTS <= hosts.len()
}

fn set_port(
    ports: &mut BTreeMap<Unit, PortNo>,
    unit: Unit,
    port: Option<PortNo>,
) -> Result<(), NoMemory>
    ensures { OnOk result ((u : Unit) → get unit_cmp ports.new u ≡ put (get unit_cmp ports.old) unit port u) }
{
    match port {
        Some(port) => {
            ports.insert(unit, port)?;
        }
        None => {
            ports.remove(&unit);
        }
    }
    Ok(())
}

fn set_full(full: &mut BTreeSet<Unit>, unit: Unit, is_full: bool) -> Result<(), NoMemory>
    ensures { OnOk result ((u : Unit) → contains unit_cmp full.new u ≡ put (contains unit_cmp full.old) unit is_full u) }
{
    if is_full {
        full.insert(unit)?;
    } else {
        full.remove(&unit);
    }
    Ok(())
}

/// The units of the hosts that changes name, and of their VLANs.
fn all_moved(alloc: Global, changes: &[Change]) -> Result<Items<Unit>, NoMemory>
    ensures { IfOk result (λ made. made ≡ all_moved changes.now) }
{
    let mut made = Items::new(alloc);
    for change in changes {
        push_moved(&mut made, change)?;
    }
    Ok(made)
}

fn push_moved(out: &mut Items<Unit>, change: &Change) -> Result<(), NoMemory>
    ensures { OnOk result (out.new ≡ out.old ++ moved_units change.now) }
{
    if let Change::Host { vid, mac, .. } = change {
        out.push(Unit::Host(*vid, *mac))?;
        out.push(Unit::Vlan(*vid))?;
    }
    Ok(())
}

impl Stood {
    /// Of no host.
    fn new(alloc: Global) -> Stood
        ensures { kept_places result ≡ no_places }
    {
        Stood {
            ports: BTreeMap::new(alloc),
            full: BTreeSet::new(alloc),
            is_table_full: false,
        }
    }

    /// Of the hosts of a state.
    pub(crate) fn of(alloc: Global, conf: &Conf, now: &Now, dp: DpId) -> Result<Stood, NoMemory>
        ensures { IfOk result (λ made. ArePlaces conf.now (state_of now.now) dp (kept_places made)) }
    {
        let mut stood = Stood::new(alloc);
        let Some(dp) = conf.dp(dp) else {
            return Ok(stood);
        };
        let all = units_of(alloc, conf, now, dp)?;
        stood.renew_all(conf, now.hosts, dp, all.as_slice())?;
        Ok(stood)
    }

    /// The port of the datapath at which a host of its group stood.
    pub(crate) fn port(&self, vid: Vid, mac: Mac) -> Option<PortNo>
        ensures { result ≡ (kept_places self.now).port (unit.Host vid mac) }
    {
        self.ports.get(&Unit::Host(vid, mac)).copied()
    }

    /// Whether a VLAN had as many hosts as it may in the datapath's group.
    pub(crate) fn is_full(&self, vid: Vid) -> bool
        ensures { result ≡ (kept_places self.now).is_full (unit.Vlan vid) }
    {
        self.full.contains(&Unit::Vlan(vid))
    }

    fn renew_port(
        &mut self,
        conf: &Conf,
        hosts: &Hosts,
        dp: &Dp,
        vid: Vid,
        mac: Mac,
    ) -> Result<(), NoMemory>
        ensures { OnOk result (kept_places self.new ≡ renewed conf.now dp.now hosts.now (unit.Host vid mac) (kept_places self.old)) }
    {
        let port = port_in(conf, dp, hosts, vid, mac);
        set_port(&mut self.ports, Unit::Host(vid, mac), port)?;
        Ok(())
    }

    fn renew_full(&mut self, conf: &Conf, hosts: &Hosts, dp: &Dp, vid: Vid) -> Result<(), NoMemory>
        ensures { OnOk result (kept_places self.new ≡ renewed conf.now dp.now hosts.now (unit.Vlan vid) (kept_places self.old)) }
    {
        let is_full = is_full_in(conf, dp, hosts, vid);
        set_full(&mut self.full, Unit::Vlan(vid), is_full)?;
        Ok(())
    }

    /// Looks at a host or at a VLAN again.
    fn renew(&mut self, conf: &Conf, hosts: &Hosts, dp: &Dp, of: &Unit) -> Result<(), NoMemory>
        ensures { OnOk result (kept_places self.new ≡ renewed conf.now dp.now hosts.now of.now (kept_places self.old)) }
    {
        match of {
            Unit::Host(vid, mac) => self.renew_port(conf, hosts, dp, *vid, *mac),
            Unit::Vlan(vid) => self.renew_full(conf, hosts, dp, *vid),
            Unit::Dp => Ok(()),
            Unit::Port(_) => Ok(()),
            Unit::Route(_) => Ok(()),
        }
    }

    /// Looks at these, and at whether all hosts are as many as may be.
    fn renew_all(
        &mut self,
        conf: &Conf,
        hosts: &Hosts,
        dp: &Dp,
        units: &[Unit],
    ) -> Result<(), NoMemory>
        ensures { OnOk result (kept_places self.new ≡ record (all_renewed conf.now dp.now hosts.now units.now (kept_places self.old)) { is_table_full = is_table_full hosts.now }) }
    {
        for unit in units {
            self.renew(conf, hosts, dp, unit)?;
        }
        self.is_table_full = is_table_full(hosts);
        Ok(())
    }

    /// Takes the hosts of the next state, which differ at most in what changes name.
    pub(crate) fn follow(
        &mut self,
        alloc: Global,
        conf: &Conf,
        now: &Now,
        dp: DpId,
        changes: &[Change],
    ) -> Result<(), NoMemory>
        ensures { OnOk result ((before : State) → IsSound conf.now before → IsSound conf.now (state_of now.now) → AreNamed conf.now before (state_of now.now) changes.now
            → ArePlaces conf.now before dp (kept_places self.old) → ArePlaces conf.now (state_of now.now) dp (kept_places self.new)) }
    {
        let Some(dp) = conf.dp(dp) else {
            return Ok(());
        };
        let moved = all_moved(alloc, changes)?;
        self.renew_all(conf, now.hosts, dp, moved.as_slice())?;
        Ok(())
    }
}
