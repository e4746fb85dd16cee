//! What holds of the hosts of a valid state.

ghost use Rattle.std.specs.Prelude.{◌≡◌, ◌↔◌, ◌≤◌, ◌&&◌, true, IsTrue, IsSomeAnd, count_by};
ghost use Rattle.std.specs.List.{AllByRecursion};
ghost use Rattle.conf_types.specs.Configuration.{port_at};
ghost use Rattle.conf_types.specs.Groups.{group_of};
ghost use Rattle.conf_types.specs.Lists.{EachBefore};
ghost use Rattle.conf_types.specs.Membership.{is_accepting, is_edge_member};
ghost use Rattle.conf_types.specs.State.{IsHost, IsSameHost, is_running, is_permanent, is_host_at, is_host_in};
ghost use Rattle.packet_way.specs.Present.{state_of};

use conf_types::{Conf, Dp, HostRec, Port, Vlan, is_up};
use net_base::{DpId, PortNo};
use packet_way::Now;

/// Whether a datapath runs.
fn is_running(running: &[DpId], dp: DpId) -> bool
    ensures { result ≡ is_running running.now dp }
{
    running.iter().any(|other| other.0 == dp.0)
}

/// Whether hosts are learned where the host stands.
fn is_placed(conf: &Conf, host: &HostRec) -> bool
    ensures { (result ≡ true) ↔ IsSomeAnd (port_at conf.now host.now.dp host.now.port) (λ p. IsTrue (is_accepting p && is_edge_member p host.now.vid)) }
{
    match conf.port(host.dp, host.port) {
        Some(port) => port.is_accepting() && port.is_edge_member(host.vid),
        None => false,
    }
}

fn is_host(conf: &Conf, now: &Now, host: &HostRec) -> bool
    ensures { (result ≡ true) ↔ IsHost conf.now (state_of now.now) host.now }
{
    is_running(now.running.as_slice(), host.dp)
        && is_up(now.ups.as_slice(), host.dp, host.port)
        && is_placed(conf, host)
        && !host.mac.is_group()
        && !conf.is_gateway_address(host.mac)
}

pub(crate) fn are_hosts(conf: &Conf, now: &Now, hosts: &[HostRec]) -> bool
    ensures { (result ≡ true) ↔ AllByRecursion (IsHost conf.now (state_of now.now)) hosts.now }
{
    match hosts {
        [] => true,
        [host, more @ ..] => is_host(conf, now, host) && are_hosts(conf, now, more),
    }
}

/// Whether two hosts have one key.
fn is_same_host(conf: &Conf, a: &HostRec, b: &HostRec) -> bool
    ensures { (result ≡ true) ↔ IsSameHost conf.now a.now b.now }
{
    conf.group_number(a.dp).0 == conf.group_number(b.dp).0
        && a.vid.get() == b.vid.get()
        && a.mac == b.mac
}

/// Whether no other host has the key of this one.
fn has_own_key(conf: &Conf, host: &HostRec, others: &[HostRec]) -> bool
    ensures { (result ≡ true) ↔ AllByRecursion (λ other. IsSameHost conf.now host.now other → ⊥) others.now }
{
    match others {
        [] => true,
        [other, more @ ..] => !is_same_host(conf, host, other) && has_own_key(conf, host, more),
    }
}

/// Whether no two hosts have one key.
pub(crate) fn have_own_keys(conf: &Conf, hosts: &[HostRec]) -> bool
    ensures { (result ≡ true) ↔ EachBefore (λ a b. IsSameHost conf.now a b → ⊥) hosts.now }
{
    match hosts {
        [] => true,
        [host, more @ ..] => has_own_key(conf, host, more) && have_own_keys(conf, more),
    }
}

/// Whether the first of two hosts would have to stay alone at its port in its VLAN, and doesn't.
fn are_crowded(conf: &Conf, a: &HostRec, b: &HostRec) -> bool
    ensures { (result ≡ true) ↔ ((is_permanent conf.now a.now ≡ true) × (is_host_at a.now.dp a.now.port b.now ≡ true) × (a.now.vid ≡ b.now.vid)) }
{
    conf.is_permanent(a) && b.is_at(a.dp, a.port) && a.vid.get() == b.vid.get()
}

fn stays_alone(conf: &Conf, host: &HostRec, others: &[HostRec]) -> bool
    ensures { (result ≡ true) ↔ AllByRecursion (λ other. is_permanent conf.now host.now ≡ true → is_host_at host.now.dp host.now.port other ≡ true → host.now.vid ≡ other.vid → ⊥) others.now }
{
    match others {
        [] => true,
        [other, more @ ..] => !are_crowded(conf, host, other) && stays_alone(conf, host, more),
    }
}

/// Whether each port whose first host stays has at most one in a VLAN.
pub(crate) fn stay_alone(conf: &Conf, hosts: &[HostRec]) -> bool
    ensures { (result ≡ true) ↔ EachBefore (λ a b. is_permanent conf.now a ≡ true → is_host_at a.dp a.port b ≡ true → a.vid ≡ b.vid → ⊥) hosts.now }
{
    match hosts {
        [] => true,
        [host, more @ ..] => stays_alone(conf, host, more) && stay_alone(conf, more),
    }
}

/// Whether a port has no more hosts than it may.
fn fits_port(hosts: &[HostRec], dp: DpId, port: &Port) -> bool
    ensures { (result ≡ true) ↔ (count_by (is_host_at dp port.now.no) hosts.now ≤ port.now.max_hosts) }
{
    let no = port.no;
    let count = hosts.iter().filter(|host| host.is_at(dp, no)).count();
    count <= port.max_hosts as usize
}

/// Whether no port of a datapath has more hosts than it may.
fn fit_ports(hosts: &[HostRec], dp: DpId, ports: &[Port]) -> bool
    ensures { (result ≡ true) ↔ AllByRecursion (λ p. count_by (is_host_at dp p.no) hosts.now ≤ p.max_hosts) ports.now }
{
    match ports {
        [] => true,
        [port, more @ ..] => fits_port(hosts, dp, port) && fit_ports(hosts, dp, more),
    }
}

pub(crate) fn fit_all_ports(hosts: &[HostRec], dps: &[Dp]) -> bool
    ensures { (result ≡ true) ↔ AllByRecursion (λ d. AllByRecursion (λ p. count_by (is_host_at d.id p.no) hosts.now ≤ p.max_hosts) d.ports) dps.now }
{
    match dps {
        [] => true,
        [dp, more @ ..] => fit_ports(hosts, dp.id, dp.ports.as_slice())
            && fit_all_ports(hosts, more),
    }
}

/// Whether a VLAN has no more hosts in a group than it may.
fn fits_vlan(conf: &Conf, hosts: &[HostRec], group: DpId, vlan: &Vlan) -> bool
    ensures { (result ≡ true) ↔ (count_by (is_host_in conf.now group vlan.now.vid) hosts.now ≤ vlan.now.max_hosts) }
{
    let vid = vlan.vid;
    let count = hosts
        .iter()
        .filter(|host| conf.is_host_in(group, vid, host))
        .count();
    count <= vlan.max_hosts as usize
}

fn fit_vlans(conf: &Conf, hosts: &[HostRec], group: DpId, vlans: &[Vlan]) -> bool
    ensures { (result ≡ true) ↔ AllByRecursion (λ v. count_by (is_host_in conf.now group v.vid) hosts.now ≤ v.max_hosts) vlans.now }
{
    match vlans {
        [] => true,
        [vlan, more @ ..] => fits_vlan(conf, hosts, group, vlan)
            && fit_vlans(conf, hosts, group, more),
    }
}

/// Whether no VLAN has more hosts in the group of a datapath than it may.
pub(crate) fn fit_all_vlans(conf: &Conf, hosts: &[HostRec], dps: &[Dp]) -> bool
    ensures { (result ≡ true) ↔ AllByRecursion (λ d. AllByRecursion (λ v. count_by (is_host_in conf.now (group_of conf.now d.id) v.vid) hosts.now ≤ v.max_hosts) conf.now.vlans) dps.now }
{
    match dps {
        [] => true,
        [dp, more @ ..] => {
            let group = conf.group_number(dp.id);
            fit_vlans(conf, hosts, group, conf.vlans().as_slice())
                && fit_all_vlans(conf, hosts, more)
        }
    }
}
