ghost use Rattle.std.specs.Prelude.{◌≡◌, ◌<◌, ◌^◌, length, OnOk, OnErr};
ghost use Rattle.host_learn.specs.Learning.{hosts_after, is_full, is_full_at, is_full_in, is_kept_off, is_occupied, outcome};

use crate::host::is_host;
use conf_types::{Conf, HostRec};
use host_list::{CountsHosts, Hosts};
use net_base::NoMemory;

/// What became of a host that was heard.
#[derive(Clone, Copy, Debug, PartialEq, Eq)]
pub enum Learn {
    /// It is new, and stands last.
    Learned,
    /// It stood elsewhere in its group, and stands last.
    Moved,
    /// It stands where it was; its moment is the new one, its place in the list stays.
    Refreshed,
    /// The port, the VLAN or the table has as many hosts as it may.
    Full,
    /// No host may be learned there with this address.
    NotLearnable,
}

/// Whether a host of the VLAN stands at the port where this one is heard.
fn is_occupied(hosts: &Hosts, heard: &HostRec) -> bool
    ensures { result ≡ is_occupied hosts.now heard.now }
{
    hosts.in_vlan_at(heard.dp, heard.port, heard.vid) > 0
}

/// Whether the port where a host is heard may not have it.
fn is_kept_off(conf: &Conf, hosts: &Hosts, heard: &HostRec) -> bool
    ensures { result ≡ is_kept_off conf.now hosts.now heard.now }
{
    match conf.port(heard.dp, heard.port) {
        Some(port) => {
            let here = HostRec {
                port: port.no,
                ..*heard
            };
            !hosts.stands_there(&here)
                && (hosts.is_staying(conf, &here)
                    || (port.permanent_learn && is_occupied(hosts, &here)))
        }
        None => false,
    }
}

/// Whether the port where a host stands has as many hosts as it may.
fn is_port_full(conf: &Conf, hosts: &Hosts, host: &HostRec) -> bool
    ensures { result ≡ is_full_at conf.now hosts.now host.now }
{
    match conf.port(host.dp, host.port) {
        Some(port) => port.max_hosts as usize <= hosts.at_port(host.dp, port.no),
        None => false,
    }
}

/// Whether a host's VLAN has as many hosts in its group as it may.
fn is_vlan_full(conf: &Conf, hosts: &Hosts, host: &HostRec) -> bool
    ensures { result ≡ is_full_in conf.now hosts.now host.now }
{
    match conf.vlan(host.vid) {
        Some(vlan) => {
            let group = conf.group_number(host.dp);
            vlan.max_hosts as usize <= hosts.in_vlan(conf, group, vlan.vid)
        }
        None => false,
    }
}

fn is_full(conf: &Conf, limit: u32, hosts: &Hosts, heard: &HostRec) -> bool
    ensures { result ≡ is_full conf.now (record { limit = limit; hosts = hosts.now }) heard.now }
{
    if !hosts.stands_there(heard) && is_port_full(conf, hosts, heard) {
        return true;
    }
    !hosts.is_known(conf, heard)
        && (is_vlan_full(conf, hosts, heard) || hosts.len() >= limit as usize)
}

/// What becomes of a host that is heard.
pub(crate) fn outcome(conf: &Conf, limit: u32, hosts: &Hosts, heard: &HostRec) -> Learn
    ensures { result ≡ outcome conf.now (record { limit = limit; hosts = hosts.now }) heard.now }
{
    if !is_host(conf, heard) || is_kept_off(conf, hosts, heard) {
        Learn::NotLearnable
    } else if is_full(conf, limit, hosts, heard) {
        Learn::Full
    } else if hosts.stands_there(heard) {
        Learn::Refreshed
    } else if hosts.is_known(conf, heard) {
        Learn::Moved
    } else {
        Learn::Learned
    }
}

/// Changes the hosts by what becomes of the one that is heard.
pub(crate) fn take_in(
    conf: &Conf,
    hosts: &mut Hosts,
    heard: &HostRec,
    outcome: Learn,
) -> Result<(), NoMemory>
    requires { length hosts.old < 2 ^ 32 }
    ensures ok { OnOk result (hosts.new ≡ hosts_after conf.now heard.now hosts.old outcome) }
    ensures err { OnErr result (hosts.new ≡ hosts.old) }
{
    match outcome {
        Learn::Learned => hosts.insert(heard),
        Learn::Moved => hosts.move_last(conf, heard),
        Learn::Refreshed => {
            hosts.refresh(heard);
            Ok(())
        }
        Learn::Full | Learn::NotLearnable => Ok(()),
    }
}
