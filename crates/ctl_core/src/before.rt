//! What was known before a step, and what differs behind it.

ghost use Rattle.std.specs.Prelude.{◌≡◌, ◌==◌, ◌&&◌, ◌++◌, Some, IfOk, OnOk};
ghost use Rattle.std.specs.List.{find};
ghost use Rattle.std.specs.Option.{option_copied, option_map};
ghost use Rattle.conf_types.specs.Changes.{mac_of_neighbour};
ghost use Rattle.conf_types.specs.Families.{is_same_ip};
ghost use Rattle.conf_types.specs.Lists.{is_same};
ghost use Rattle.conf_types.specs.State.{is_running};
ghost use Rattle.ctl_world.specs.World.{now};
ghost use Rattle.ctl_core.specs.Behind.{behind, dps_left, hosts_left, is_still, is_unlike, learned_behind, neighbours_left, ports_left};
ghost use Rattle.ctl_settle.specs.Names.{host, is_other};

use conf_types::{
    Change, Conf, DpIds, HostRec, HostRecs, Ip, NeighRec, NeighRecs, UpRec, UpRecs, is_up,
};
use ctl_settle::Touched;
use ctl_world::World;
use host_learn::HostTable;
use net_base::{DpId, Mac, Moment, NoMemory, Vid};
use std::alloc::Global;
use std::marker::Model;

/// What was known before a step: the state by which flow entries are made.
#[derive(Drop)]
pub(crate) struct Before {
    moment: Moment,
    running: DpIds,
    ups: UpRecs,
    hosts: HostRecs,
    neighbours: NeighRecs,
}

impl Model for Before {
    ghost use Rattle.conf_types.specs.State.{State};

    ghost Value = { State };

    ghost view = { λ b. record { moment = b.moment.0; running = b.running; ups = b.ups; hosts = b.hosts; neighbours = b.neighbours } };
}

fn is_running(running: &[DpId], dp: DpId) -> bool
    ensures { result ≡ is_running running.now dp }
{
    running.iter().any(|other| *other == dp)
}

/// The datapaths of one list that another hasn't.
fn dps_left(alloc: Global, from: &[DpId], to: &[DpId]) -> Result<Vec<Change>, NoMemory>
    ensures { IfOk result (λ made. made.items ≡ dps_left from.now to.now) }
{
    from.iter()
        .filter(|dp| !is_running(to, **dp))
        .map(|dp| Change::Dp(*dp))
        .collect(alloc)
}

/// The interfaces.
fn ports_left(alloc: Global, from: &[UpRec], to: &[UpRec]) -> Result<Vec<Change>, NoMemory>
    ensures { IfOk result (λ made. made.items ≡ ports_left from.now to.now) }
{
    from.iter()
        .filter(|up| !is_up(to, up.dp, up.port))
        .map(|up| Change::Port {
            dp: up.dp,
            port: up.port,
        })
        .collect(alloc)
}

fn is_neighbour(neighbour: &NeighRec, group: DpId, vid: Vid, ip: Ip) -> bool
    ensures { result ≡ (neighbour.now.group.0 == group.0 && neighbour.now.vid == vid && is_same_ip neighbour.now.ip ip) }
{
    neighbour.group == group && neighbour.vid.get() == vid.get() && neighbour.ip.is_same(ip)
}

fn find_neighbour(neighbours: &[NeighRec], group: DpId, vid: Vid, ip: Ip) -> Option<&NeighRec>
    ensures { option_copied result ≡ find (λ n. n.group.0 == group.0 && n.vid == vid && is_same_ip n.ip ip) neighbours.now }
{
    neighbours
        .iter()
        .find(|neighbour| is_neighbour(neighbour, group, vid, ip))
}

/// The Ethernet address that a list tells of a neighbour.
pub(crate) fn mac_of(neighbours: &[NeighRec], group: DpId, vid: Vid, ip: Ip) -> Option<Mac>
    ensures { result ≡ mac_of_neighbour neighbours.now group vid ip }
{
    match find_neighbour(neighbours, group, vid, ip) {
        Some(neighbour) => neighbour.mac,
        None => None,
    }
}

pub(crate) fn is_same(a: Mac, b: Mac) -> bool
    ensures { result ≡ is_same a.0 b.0 }
{
    a == b
}

/// Whether the Ethernet address of a neighbour is known, and a list tells none or another.
fn is_unlike(to: &[NeighRec], neighbour: &NeighRec) -> bool
    ensures { result ≡ is_unlike to.now neighbour.now }
{
    let Some(mac) = neighbour.mac else {
        return false;
    };
    match mac_of(to, neighbour.group, neighbour.vid, neighbour.ip) {
        Some(other) => !is_same(mac, other),
        None => true,
    }
}

/// The neighbours of one list whose Ethernet address another doesn't tell.
fn neighbours_left(
    alloc: Global,
    from: &[NeighRec],
    to: &[NeighRec],
) -> Result<Vec<Change>, NoMemory>
    ensures { IfOk result (λ made. made.items ≡ neighbours_left from.now to.now) }
{
    from.iter()
        .filter(|neighbour| is_unlike(to, neighbour))
        .map(|neighbour| Change::Neighbour {
            group: neighbour.group,
            vid: neighbour.vid,
            ip: neighbour.ip,
        })
        .collect(alloc)
}

fn is_other(a: bool, b: bool) -> bool
    ensures { result ≡ is_other a b }
{
    a != b
}

/// Whether a host stands in a table where it stood, as fresh at a moment as at an earlier one.
fn is_still(conf: &Conf, hosts: &HostTable, before: Moment, moment: Moment, host: &HostRec) -> bool
    ensures { result ≡ is_still conf.now before.0 moment.0 hosts.now.hosts host.now }
{
    match hosts.get(conf, host.dp, host.vid, host.mac) {
        Some(found) => {
            host.dp == found.dp
                && host.port.get() == found.port.get()
                && !is_other(conf.is_fresh(before, host), conf.is_fresh(moment, found))
        }
        None => false,
    }
}

fn change_of(conf: &Conf, one: &HostRec) -> Change
    ensures { result ≡ host conf.now one.now }
{
    Change::Host {
        group: conf.group_number(one.dp),
        vid: one.vid,
        mac: one.mac,
    }
}

/// Names the hosts that don't.
fn push_hosts(
    touched: &mut Touched,
    conf: &Conf,
    hosts: &HostTable,
    before: Moment,
    moment: Moment,
    from: &[HostRec],
) -> Result<(), NoMemory>
    ensures { OnOk result (touched.new ≡ option_map (λ named. named ++ hosts_left conf.now before.0 moment.0 from.now hosts.now.hosts) touched.old) }
{
    for host in from {
        if !is_still(conf, hosts, before, moment, host) {
            touched.push(change_of(conf, host))?;
        }
    }
    Ok(())
}

fn push_all(touched: &mut Touched, changes: &[Change]) -> Result<(), NoMemory>
    ensures { OnOk result (touched.new ≡ option_map (λ named. named ++ changes.now) touched.old) }
{
    for change in changes {
        touched.push(*change)?;
    }
    Ok(())
}

impl Before {
    /// What is known.
    pub(crate) fn of(alloc: Global, world: &World) -> Result<Before, NoMemory>
        ensures { IfOk result (λ made. made ≡ now world.now) }
    {
        let running = world.running(alloc)?;
        let ups = world.ups(alloc)?;
        let hosts = world.hosts.as_hosts().to_list(alloc)?;
        let neighbours = NeighRecs::from_slice(alloc, world.neighbours.list())?;
        Ok(Before {
            moment: world.moment,
            running,
            ups,
            hosts,
            neighbours,
        })
    }

    /// The hosts and neighbours that differ.
    fn learned_behind(&self, alloc: Global, world: &World) -> Result<Touched, NoMemory>
        ensures { IfOk result (λ made. made ≡ Some (learned_behind world.now.conf self.now (now world.now))) }
    {
        let was = self.neighbours.as_slice();
        let is = world.neighbours.list();
        let mut touched = Touched::nothing(alloc);
        push_hosts(
            &mut touched,
            &world.conf,
            &world.hosts,
            self.moment,
            world.moment,
            self.hosts.as_slice(),
        )?;
        let gone = neighbours_left(alloc, was, is)?;
        push_all(&mut touched, gone.as_slice())?;
        let come = neighbours_left(alloc, is, was)?;
        push_all(&mut touched, come.as_slice())?;
        Ok(touched)
    }

    /// What differs behind a step that made no host known.
    pub(crate) fn behind(&self, alloc: Global, world: &World) -> Result<Touched, NoMemory>
        ensures { IfOk result (λ made. made ≡ Some (behind world.now.conf self.now (now world.now))) }
    {
        let running = world.running(alloc)?;
        let ups = world.ups(alloc)?;
        let mut touched = self.learned_behind(alloc, world)?;
        let gone = dps_left(alloc, self.running.as_slice(), running.as_slice())?;
        push_all(&mut touched, gone.as_slice())?;
        let come = dps_left(alloc, running.as_slice(), self.running.as_slice())?;
        push_all(&mut touched, come.as_slice())?;
        let down = ports_left(alloc, self.ups.as_slice(), ups.as_slice())?;
        push_all(&mut touched, down.as_slice())?;
        let up = ports_left(alloc, ups.as_slice(), self.ups.as_slice())?;
        push_all(&mut touched, up.as_slice())?;
        Ok(touched)
    }
}
