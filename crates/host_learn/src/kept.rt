//! What is kept of a table under a new configuration.

ghost use Rattle.std.specs.Prelude.{◌≡◌, [], filter, IfOk};
ghost use Rattle.host_learn.specs.Learning.{is_full_at, is_full_in, is_known, is_occupied};
ghost use Rattle.host_learn.specs.Kept.{finds_room, kept_hosts, last_of_each, may_stay, with_room};

use crate::host::is_host;
use conf_types::{Conf, HostRec, UpRec, is_up};
use host_list::has_key;
use net_base::{Moment, NoMemory};
use std::alloc::Global;

fn is_known(conf: &Conf, hosts: &[HostRec], heard: &HostRec) -> bool
    ensures { result ≡ is_known conf.now hosts.now heard.now }
{
    let group = conf.group_number(heard.dp);
    hosts
        .iter()
        .any(|host| has_key(conf, host, group, heard.vid, heard.mac))
}

/// Whether a host of the VLAN stands at the port where this one is heard.
fn is_occupied(hosts: &[HostRec], heard: &HostRec) -> bool
    ensures { result ≡ is_occupied hosts.now heard.now }
{
    hosts.iter().any(|host| host.is_at(heard.dp, heard.port) && host.vid.get() == heard.vid.get())
}

/// Whether the port where a host stands has as many hosts as it may.
fn is_port_full(conf: &Conf, hosts: &[HostRec], host: &HostRec) -> bool
    ensures { result ≡ is_full_at conf.now hosts.now host.now }
{
    match conf.port(host.dp, host.port) {
        Some(port) => port.is_full(hosts, host.dp),
        None => false,
    }
}

/// Whether a host's VLAN has as many hosts in its group as it may.
fn is_vlan_full(conf: &Conf, hosts: &[HostRec], host: &HostRec) -> bool
    ensures { result ≡ is_full_in conf.now hosts.now host.now }
{
    match conf.vlan(host.vid) {
        Some(vlan) => conf.is_vlan_full(hosts, conf.group_number(host.dp), vlan),
        None => false,
    }
}

/// Whether a host may be learned where it stands, and isn't to be forgotten.
fn may_stay(conf: &Conf, ups: &[UpRec], now: Moment, host: &HostRec) -> bool
    ensures { result ≡ may_stay conf.now ups.now now.0 host.now }
{
    is_host(conf, host) && is_up(ups, host.dp, host.port) && !conf.is_to_forget(now, host)
}

fn staying(
    alloc: Global,
    conf: &Conf,
    ups: &[UpRec],
    now: Moment,
    hosts: &[HostRec],
) -> Result<Vec<HostRec>, NoMemory>
    ensures { IfOk result (λ v. v.items ≡ filter (may_stay conf.now ups.now now.0) hosts.now) }
{
    hosts
        .iter()
        .copied()
        .filter(|host| may_stay(conf, ups, now, host))
        .collect(alloc)
}

/// Of several hosts with one key the last.
fn last_of_each(alloc: Global, conf: &Conf, hosts: &[HostRec]) -> Result<Vec<HostRec>, NoMemory>
    ensures { IfOk result (λ v. v.items ≡ last_of_each conf.now hosts.now) }
{
    let mut last = Vec::new(alloc);
    for (at, host) in hosts.iter().enumerate() {
        if !is_known(conf, &hosts[at + 1..], host) {
            last.push(*host)?;
        }
    }
    Ok(last)
}

/// Whether a host finds room beside those that are kept.
fn finds_room(conf: &Conf, limit: u32, kept: &[HostRec], host: &HostRec) -> bool
    ensures { result ≡ finds_room conf.now limit kept.now host.now }
{
    !is_port_full(conf, kept, host)
        && !is_vlan_full(conf, kept, host)
        && kept.len() < limit as usize
        && !(conf.is_permanent(host) && is_occupied(kept, host))
}

/// The hosts, in order, that find room among those kept before.
fn with_room(
    alloc: Global,
    conf: &Conf,
    limit: u32,
    hosts: &[HostRec],
) -> Result<Vec<HostRec>, NoMemory>
    ensures { IfOk result (λ v. v.items ≡ with_room conf.now limit [] hosts.now) }
{
    let mut kept = Vec::new(alloc);
    for host in hosts {
        if finds_room(conf, limit, kept.as_slice(), host) {
            kept.push(*host)?;
        }
    }
    Ok(kept)
}

/// The hosts that are kept under a configuration, with these ports up.
pub(crate) fn kept_hosts(
    alloc: Global,
    conf: &Conf,
    ups: &[UpRec],
    now: Moment,
    limit: u32,
    hosts: &[HostRec],
) -> Result<Vec<HostRec>, NoMemory>
    ensures { IfOk result (λ v. v.items ≡ kept_hosts conf.now ups.now now.0 (record { limit = limit; hosts = hosts.now })) }
{
    let staying = staying(alloc, conf, ups, now, hosts)?;
    let last = last_of_each(alloc, conf, staying.as_slice())?;
    with_room(alloc, conf, limit, last.as_slice())
}
