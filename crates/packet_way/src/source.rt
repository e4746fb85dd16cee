ghost use Rattle.std.specs.Prelude.{◌≡◌, ◌==◌, ◌&&◌};
ghost use Rattle.std.specs.List.{list_any};
ghost use Rattle.std.specs.Option.{option_copied};
ghost use Rattle.conf_types.specs.Groups.{group_of};
ghost use Rattle.conf_types.specs.Lists.{is_same};
ghost use Rattle.conf_types.specs.State.{is_barred, is_host_at, is_port_full, is_vlan_full};
ghost use Rattle.packet_way.specs.Present.{state_of};
ghost use Rattle.packet_way.specs.Source.{host_here, is_full, heard_again, heard_anew, heard};

use crate::now::Now;
use conf_types::{Conf, Dp, HostRec, MOST_HOSTS, Port, Vlan};
use host_list::{CountsHosts, Hosts};
use net_base::{DpId, Mac, Moment, PortNo, Vid};

/// What becomes of a packet by its source.
pub enum Heard {
    GoesOn,
    /// It goes on, and the controller gets a copy.
    IsCopied,
    Ends,
}

/// Whether it is the host with this address that was learned in the VLAN at this port.
fn is_own(host: &HostRec, dp: DpId, port: PortNo, vid: Vid, mac: Mac) -> bool
    ensures { result ≡ (is_host_at dp port host.now && host.now.vid == vid && is_same host.now.mac.0 mac.0) }
{
    host.is_at(dp, port) && host.vid.get() == vid.get() && host.has_mac(mac)
}

fn host_here(hosts: &Hosts, dp: DpId, port: PortNo, vid: Vid, mac: Mac) -> Option<&HostRec>
    ensures { option_copied result ≡ host_here hosts.now dp port vid mac }
{
    hosts.iter().find(|host| is_own(host, dp, port, vid, mac))
}

/// Whether a host of the VLAN stands at a port.
fn has_host(hosts: &Hosts, dp: &Dp, port: &Port, vid: Vid) -> bool
    ensures { result ≡ list_any (λ h. is_host_at dp.now.id port.now.no h && h.vid == vid) hosts.now }
{
    0 < hosts.in_vlan_at(dp.id, port.no, vid)
}

/// Whether an address may not come to a port in a VLAN.
fn is_barred(conf: &Conf, hosts: &Hosts, dp: &Dp, port: &Port, vid: Vid, mac: Mac) -> bool
    ensures { result ≡ is_barred conf.now hosts.now dp.now.id port.now vid mac.0 }
{
    let heard = HostRec {
        dp: dp.id,
        port: port.no,
        vid,
        mac,
        learned: Moment(0),
    };
    !hosts.stands_there(&heard)
        && (hosts.is_staying(conf, &heard)
            || (port.permanent_learn && has_host(hosts, dp, port, vid)))
}

/// Whether the port has as many hosts as it may.
fn is_port_full(hosts: &Hosts, dp: &Dp, port: &Port) -> bool
    ensures { result ≡ is_port_full hosts.now dp.now.id port.now }
{
    port.max_hosts as usize <= hosts.at_port(dp.id, port.no)
}

/// Whether the VLAN has as many hosts as it may in the group of a datapath.
fn is_vlan_full(conf: &Conf, hosts: &Hosts, dp: &Dp, vlan: &Vlan) -> bool
    ensures { result ≡ is_vlan_full conf.now hosts.now (group_of conf.now dp.now.id) vlan.now }
{
    let group = conf.group_number(dp.id);
    vlan.max_hosts as usize <= hosts.in_vlan(conf, group, vlan.vid)
}

/// Whether no further host may be learned at the port, in the VLAN of the group, or at all.
fn is_full(conf: &Conf, hosts: &Hosts, dp: &Dp, port: &Port, vlan: &Vlan) -> bool
    ensures { result ≡ is_full conf.now hosts.now dp.now port.now vlan.now }
{
    is_port_full(hosts, dp, port)
        || is_vlan_full(conf, hosts, dp, vlan)
        || MOST_HOSTS <= hosts.in_all()
}

fn heard_again(conf: &Conf, moment: Moment, host: &HostRec) -> Heard
    ensures { result ≡ heard_again conf.now moment.0 host.now }
{
    if conf.is_fresh(moment, host) {
        Heard::GoesOn
    } else {
        Heard::IsCopied
    }
}

fn heard_anew(conf: &Conf, hosts: &Hosts, dp: &Dp, port: &Port, vlan: &Vlan, mac: Mac) -> Heard
    ensures { result ≡ heard_anew conf.now hosts.now dp.now port.now vlan.now mac }
{
    if is_barred(conf, hosts, dp, port, vlan.vid, mac) {
        Heard::Ends
    } else if is_full(conf, hosts, dp, port, vlan) {
        Heard::GoesOn
    } else {
        Heard::IsCopied
    }
}

/// What becomes of a packet by its source, in a VLAN where it came in by an edge port.
#[tactic(auto, unfolding(crate::specs::Source::heard))]
pub(crate) fn hear(conf: &Conf, now: &Now, dp: &Dp, port: &Port, vlan: &Vlan, mac: Mac) -> Heard
    ensures { result ≡ heard conf.now (state_of now.now) dp.now port.now vlan.now mac }
{
    if mac.is_group() {
        return Heard::GoesOn;
    }
    let hosts = now.hosts;
    match host_here(hosts, dp.id, port.no, vlan.vid, mac) {
        Some(host) => heard_again(conf, now.moment, host),
        None => heard_anew(conf, hosts, dp, port, vlan, mac),
    }
}
