//! The table of hosts as a plain list, with no index: each call goes over the hosts one by one, as its
//! definition does. The contracts are those of the table.

ghost use Rattle.std.specs.Prelude.{◌≡◌, ◌==◌, ◌&&◌, ◌<◌, [], filter, length, position, IfOk, IfSome, OnOk, OnErr};
ghost use Rattle.std.specs.List.{find};
ghost use Rattle.std.specs.Option.{option_copied};
ghost use Rattle.conf_types.specs.State.{is_host_at, is_to_forget};
ghost use Rattle.host_learn.specs.Kept.{finds_room, kept, last_of_each, may_stay, with_room};
ghost use Rattle.host_learn.specs.Learning.{hosts_after, is_full, is_full_at, is_full_in, is_heard, is_host, is_in_place, is_kept_off, is_known, is_occupied, learned, moved, outcome, refreshed, stands_there, takes_in};
ghost use Rattle.host_learn.specs.Table.{first_due, has_key, host_of, off_datapath, off_due, off_port, without_first};

use conf_types::{Conf, HostRec, UpRec, is_up};
use host_learn::Learn;
use net_base::{DpId, Mac, Moment, NoMemory, PortNo, Vid};
use std::alloc::Global;
use std::marker::Model;

/// The hosts in the order of learning, and how many there are at most.
#[derive(Drop)]
pub struct Plain {
    alloc: Global,
    limit: u32,
    hosts: Vec<HostRec>,
}

impl Model for Plain {
    ghost use Rattle.host_learn.specs.Table.{Table};

    ghost Value = { Table };

    ghost view = { λ t. record { limit = t.limit; hosts = t.hosts.items } };
}

/// Whether a host is the one that is heard, wherever it stands.
fn is_heard(conf: &Conf, heard: &HostRec, host: &HostRec) -> bool
    ensures { result ≡ is_heard conf.now heard.now host.now }
{
    conf.is_host_in(conf.group_number(heard.dp), heard.vid, host) && host.has_mac(heard.mac)
}

/// Whether a host of the VLAN stands where this one is heard.
fn is_beside(heard: &HostRec, host: &HostRec) -> bool
    ensures { result ≡ (is_host_at heard.now.dp heard.now.port host.now && host.now.vid == heard.now.vid) }
{
    let HostRec { dp, port, vid, .. } = *heard;
    host.vid.get() == vid.get() && host.is_at(dp, port)
}

fn is_in_place(heard: &HostRec, host: &HostRec) -> bool
    ensures { result ≡ is_in_place heard.now host.now }
{
    is_beside(heard, host) && host.has_mac(heard.mac)
}

fn stands_there(hosts: &[HostRec], heard: &HostRec) -> bool
    ensures { result ≡ stands_there hosts.now heard.now }
{
    match hosts {
        [] => false,
        [host, more @ ..] => is_in_place(heard, host) || stands_there(more, heard),
    }
}

fn is_known(conf: &Conf, hosts: &[HostRec], heard: &HostRec) -> bool
    ensures { result ≡ is_known conf.now hosts.now heard.now }
{
    match hosts {
        [] => false,
        [host, more @ ..] => is_heard(conf, heard, host) || is_known(conf, more, heard),
    }
}

fn is_occupied(hosts: &[HostRec], heard: &HostRec) -> bool
    ensures { result ≡ is_occupied hosts.now heard.now }
{
    match hosts {
        [] => false,
        [host, more @ ..] => is_beside(heard, host) || is_occupied(more, heard),
    }
}

fn takes_in(conf: &Conf, heard: &HostRec) -> bool
    ensures { result ≡ takes_in conf.now heard.now }
{
    let Some(port) = conf.port(heard.dp, heard.port) else {
        return false;
    };
    port.is_accepting() && port.is_edge_member(heard.vid)
}

fn is_host(conf: &Conf, heard: &HostRec) -> bool
    ensures { result ≡ is_host conf.now heard.now }
{
    let is_station = !heard.mac.is_group() && !conf.is_gateway_address(heard.mac);
    takes_in(conf, heard) && is_station
}

fn is_kept_off(conf: &Conf, hosts: &[HostRec], heard: &HostRec) -> bool
    ensures { result ≡ is_kept_off conf.now hosts.now heard.now }
{
    let Some(port) = conf.port(heard.dp, heard.port) else {
        return false;
    };
    conf.is_barred(hosts, heard.dp, port, heard.vid, heard.mac)
}

fn is_full_at(conf: &Conf, hosts: &[HostRec], host: &HostRec) -> bool
    ensures { result ≡ is_full_at conf.now hosts.now host.now }
{
    let Some(port) = conf.port(host.dp, host.port) else {
        return false;
    };
    port.is_full(hosts, host.dp)
}

fn is_full_in(conf: &Conf, hosts: &[HostRec], host: &HostRec) -> bool
    ensures { result ≡ is_full_in conf.now hosts.now host.now }
{
    let group = conf.group_number(host.dp);
    match conf.vlan(host.vid) {
        Some(vlan) => conf.is_vlan_full(hosts, group, vlan),
        None => false,
    }
}

fn is_full(conf: &Conf, limit: u32, hosts: &[HostRec], heard: &HostRec) -> bool
    ensures { result ≡ is_full conf.now (record { limit = limit; hosts = hosts.now }) heard.now }
{
    if is_full_at(conf, hosts, heard) && !stands_there(hosts, heard) {
        return true;
    }
    let no_room = hosts.len() >= limit as usize || is_full_in(conf, hosts, heard);
    no_room && !is_known(conf, hosts, heard)
}

fn outcome(conf: &Conf, limit: u32, hosts: &[HostRec], heard: &HostRec) -> Learn
    ensures { result ≡ outcome conf.now (record { limit = limit; hosts = hosts.now }) heard.now }
{
    if is_kept_off(conf, hosts, heard) || !is_host(conf, heard) {
        return Learn::NotLearnable;
    }
    if is_full(conf, limit, hosts, heard) {
        return Learn::Full;
    }
    match (stands_there(hosts, heard), is_known(conf, hosts, heard)) {
        (true, _) => Learn::Refreshed,
        (false, true) => Learn::Moved,
        (false, false) => Learn::Learned,
    }
}

fn refresh(hosts: &mut [HostRec], heard: &HostRec)
    ensures { hosts.new ≡ refreshed heard.now hosts.old }
{
    for host in hosts.iter_mut() {
        if is_in_place(heard, host) {
            *host = HostRec {
                learned: heard.learned,
                ..*host
            };
        }
    }
}

/// Takes a host out and puts it last. The room comes first, so that nothing changes without memory.
fn move_last(conf: &Conf, hosts: &mut Vec<HostRec>, heard: HostRec) -> Result<(), NoMemory>
    ensures ok { OnOk result (hosts.new.items ≡ moved conf.now heard hosts.old.items) }
    ensures err { OnErr result (hosts.new.items ≡ hosts.old.items) }
{
    hosts.reserve(1)?;
    hosts.retain(|host| !is_heard(conf, &heard, host));
    hosts.push(heard)?;
    Ok(())
}

/// Changes the hosts by what becomes of the one that is heard.
fn take_in(
    conf: &Conf,
    hosts: &mut Vec<HostRec>,
    heard: HostRec,
    outcome: Learn,
) -> Result<(), NoMemory>
    ensures ok { OnOk result (hosts.new.items ≡ hosts_after conf.now heard hosts.old.items outcome) }
    ensures err { OnErr result (hosts.new.items ≡ hosts.old.items) }
{
    match outcome {
        Learn::Full | Learn::NotLearnable => {}
        Learn::Refreshed => refresh(hosts.as_mut_slice(), &heard),
        Learn::Moved => move_last(conf, hosts, heard)?,
        Learn::Learned => hosts.push(heard)?,
    }
    Ok(())
}

/// The first host of a group with an address in a VLAN.
fn host_in<'a>(
    conf: &Conf,
    hosts: &'a [HostRec],
    group: DpId,
    vid: Vid,
    mac: Mac,
) -> Option<&'a HostRec>
    ensures { option_copied result ≡ find (has_key conf.now group vid mac.0) hosts.now }
{
    hosts.iter().find(|host| conf.is_host_in(group, vid, host) && host.has_mac(mac))
}

/// Where the first host stands that is to be forgotten.
fn due_place(hosts: &[HostRec], conf: &Conf, now: Moment) -> Option<usize>
    ensures place { result ≡ position (is_to_forget conf.now now.0) hosts.now }
    ensures within { IfSome result (λ at. at < length hosts.now) }
{
    hosts.iter().position(|host| conf.is_to_forget(now, host))
}

/// Takes out the first host that is to be forgotten.
fn take_due(hosts: &mut Vec<HostRec>, conf: &Conf, now: Moment) -> Option<HostRec>
    ensures found { result ≡ first_due conf.now now.0 hosts.old.items }
    ensures left { hosts.new.items ≡ without_first (is_to_forget conf.now now.0) hosts.old.items }
{
    match due_place(hosts.as_slice(), conf, now) {
        Some(at) => Some(hosts.remove(at)),
        None => None,
    }
}

fn leave_due(hosts: &mut Vec<HostRec>, conf: &Conf, now: Moment)
    ensures { hosts.new.items ≡ off_due conf.now now.0 hosts.old.items }
{
    hosts.retain(|host| !conf.is_to_forget(now, host));
}

fn leave_port(hosts: &mut Vec<HostRec>, dp: DpId, port: PortNo)
    ensures { hosts.new.items ≡ off_port dp port hosts.old.items }
{
    hosts.retain(|host| !host.is_at(dp, port));
}

fn leave_datapath(hosts: &mut Vec<HostRec>, dp: DpId)
    ensures { hosts.new.items ≡ off_datapath dp hosts.old.items }
{
    hosts.retain(|host| host.dp != dp);
}

fn may_stay(conf: &Conf, ups: &[UpRec], now: Moment, host: &HostRec) -> bool
    ensures { result ≡ may_stay conf.now ups.now now.0 host.now }
{
    if !is_up(ups, host.dp, host.port) || conf.is_to_forget(now, host) {
        return false;
    }
    is_host(conf, host)
}

/// First, the hosts that may stay.
fn staying(
    alloc: Global,
    hosts: &[HostRec],
    conf: &Conf,
    ups: &[UpRec],
    now: Moment,
) -> Result<Vec<HostRec>, NoMemory>
    ensures { IfOk result (λ v. v.items ≡ filter (may_stay conf.now ups.now now.0) hosts.now) }
{
    let [host, more @ ..] = hosts else {
        return Ok(Vec::new(alloc));
    };
    let mut rest = staying(alloc, more, conf, ups, now)?;
    if may_stay(conf, ups, now, host) {
        rest.insert(0, *host)?;
    }
    Ok(rest)
}

/// Second, of several hosts with one key the last.
fn last_of_each(alloc: Global, conf: &Conf, hosts: &[HostRec]) -> Result<Vec<HostRec>, NoMemory>
    ensures { IfOk result (λ v. v.items ≡ last_of_each conf.now hosts.now) }
{
    let [host, more @ ..] = hosts else {
        return Ok(Vec::new(alloc));
    };
    let mut last = last_of_each(alloc, conf, more)?;
    if !is_known(conf, more, host) {
        last.insert(0, *host)?;
    }
    Ok(last)
}

fn finds_room(conf: &Conf, limit: u32, kept: &[HostRec], host: &HostRec) -> bool
    ensures { result ≡ finds_room conf.now limit kept.now host.now }
{
    let is_full = is_full_at(conf, kept, host) || is_full_in(conf, kept, host);
    let is_taken = is_occupied(kept, host) && conf.is_permanent(host);
    !is_full && !is_taken && kept.len() < limit as usize
}

/// Third, in order, the hosts that find room beside those that are kept already.
fn with_room(
    conf: &Conf,
    limit: u32,
    mut kept: Vec<HostRec>,
    hosts: &[HostRec],
) -> Result<Vec<HostRec>, NoMemory>
    ensures { IfOk result (λ v. v.items ≡ with_room conf.now limit kept.items hosts.now) }
{
    let [host, more @ ..] = hosts else {
        return Ok(kept);
    };
    if finds_room(conf, limit, kept.as_slice(), host) {
        kept.push(*host)?;
    }
    with_room(conf, limit, kept, more)
}

impl Plain {
    /// An empty list that holds at most so many hosts.
    pub fn new(alloc: Global, limit: u32) -> Plain
        ensures { result ≡ record { limit = limit; hosts = [] } }
    {
        Plain {
            alloc,
            limit,
            hosts: Vec::new(alloc),
        }
    }

    /// The hosts in the order of learning.
    pub fn hosts(&self) -> &[HostRec]
        ensures { result.now ≡ self.now.hosts }
    {
        self.hosts.as_slice()
    }

    /// What `HostTable::learn` does with this host.
    pub fn learn(&mut self, conf: &Conf, heard: HostRec) -> Result<Learn, NoMemory>
        ensures outcome { IfOk result (λ told. told ≡ outcome conf.now self.old heard) }
        ensures list { IfOk result (λ _. self.new ≡ learned conf.now self.old heard) }
        ensures err { OnErr result (self.new ≡ self.old) }
    {
        let told = outcome(conf, self.limit, self.hosts.as_slice(), &heard);
        take_in(conf, &mut self.hosts, heard, told)?;
        Ok(told)
    }

    /// Takes out the first host that is to be forgotten at a moment.
    pub fn age(&mut self, conf: &Conf, now: Moment) -> Option<HostRec>
        ensures found { result ≡ first_due conf.now now.0 self.old.hosts }
        ensures list { self.new ≡ record self.old { hosts = without_first (is_to_forget conf.now now.0) self.old.hosts } }
    {
        take_due(&mut self.hosts, conf, now)
    }

    /// Takes out the hosts that are to be forgotten at a moment.
    pub fn forget_due(&mut self, conf: &Conf, now: Moment)
        ensures { self.new ≡ record self.old { hosts = off_due conf.now now.0 self.old.hosts } }
    {
        leave_due(&mut self.hosts, conf, now);
    }

    /// Takes out the hosts at a port.
    pub fn forget_port(&mut self, dp: DpId, port: PortNo)
        ensures { self.new ≡ record self.old { hosts = off_port dp port self.old.hosts } }
    {
        leave_port(&mut self.hosts, dp, port);
    }

    /// Takes out the hosts of a datapath.
    pub fn forget_dp(&mut self, dp: DpId)
        ensures { self.new ≡ record self.old { hosts = off_datapath dp self.old.hosts } }
    {
        leave_datapath(&mut self.hosts, dp);
    }

    /// The host with this address in the VLAN, in the group of the datapath.
    pub fn get(&self, conf: &Conf, dp: DpId, vid: Vid, mac: Mac) -> Option<&HostRec>
        ensures { option_copied result ≡ host_of conf.now self.now.hosts dp vid mac.0 }
    {
        host_in(conf, self.hosts.as_slice(), conf.group_number(dp), vid, mac)
    }

    /// What is kept under a configuration, with these ports up.
    pub fn kept(&self, conf: &Conf, ups: &[UpRec], now: Moment) -> Result<Plain, NoMemory>
        ensures { IfOk result (λ table. table ≡ kept conf.now ups.now now.0 self.now) }
    {
        let fit = staying(self.alloc, self.hosts.as_slice(), conf, ups, now)?;
        let last = last_of_each(self.alloc, conf, fit.as_slice())?;
        let none = Vec::new(self.alloc);
        let hosts = with_room(conf, self.limit, none, last.as_slice())?;
        Ok(Plain { hosts, ..*self })
    }
}
