//! What is asked of hosts.

ghost use Rattle.std.specs.Prelude.{◌≡◌, ◌==◌, ◌&&◌};
ghost use Rattle.std.specs.List.{list_any};
ghost use Rattle.conf_types.specs.Groups.{group_of};
ghost use Rattle.conf_types.specs.Lists.{is_same};
ghost use Rattle.conf_types.specs.State.{is_host_at, is_host_in, is_permanent, is_gateway_address, is_barred, is_port_full, is_vlan_full, is_table_full};

use crate::conf::Conf;
use crate::datapath::Port;
use crate::state::HostRec;
use crate::vlan::Vlan;
use net_base::{DpId, Mac, PortNo, Vid};

/// At most so many hosts are learned.
pub const MOST_HOSTS: usize = 16_384;

/// Whether two addresses have the same bytes.
fn is_same_mac(a: Mac, b: Mac) -> bool
    ensures { result ≡ is_same a.0 b.0 }
{
    a == b
}

impl HostRec {
    /// Whether it stands at this port.
    pub fn is_at(&self, dp: DpId, port: PortNo) -> bool
        ensures { result ≡ is_host_at dp port self.now }
    {
        self.dp == dp && self.port.get() == port.get()
    }

    /// Whether it has this address.
    pub fn has_mac(&self, mac: Mac) -> bool
        ensures { result ≡ is_same self.now.mac.0 mac.0 }
    {
        is_same_mac(self.mac, mac)
    }

    /// Whether it is a host of the VLAN at this port.
    fn is_in_at(&self, dp: DpId, port: PortNo, vid: Vid) -> bool
        ensures { result ≡ (is_host_at dp port self.now && self.now.vid == vid) }
    {
        self.is_at(dp, port) && self.vid.get() == vid.get()
    }

    /// Whether it is the host of the VLAN with this address at this port.
    fn is_own(&self, dp: DpId, port: PortNo, vid: Vid, mac: Mac) -> bool
        ensures { result ≡ (is_host_at dp port self.now && self.now.vid == vid && is_same self.now.mac.0 mac.0) }
    {
        self.is_at(dp, port) && self.vid.get() == vid.get() && self.has_mac(mac)
    }
}

fn has_own(hosts: &[HostRec], dp: DpId, port: PortNo, vid: Vid, mac: Mac) -> bool
    ensures { result ≡ list_any (λ h. is_host_at dp port h && h.vid == vid && is_same h.mac.0 mac.0) hosts.now }
{
    hosts.iter().any(|host| host.is_own(dp, port, vid, mac))
}

fn holds_host(hosts: &[HostRec], dp: DpId, port: PortNo, vid: Vid) -> bool
    ensures { result ≡ list_any (λ h. is_host_at dp port h && h.vid == vid) hosts.now }
{
    hosts.iter().any(|host| host.is_in_at(dp, port, vid))
}

/// Whether it is the host of the group with this address, and stays where it is.
fn stays(conf: &Conf, host: &HostRec, group: DpId, vid: Vid, mac: Mac) -> bool
    ensures { result ≡ (is_host_in conf.now group vid host.now && is_same host.now.mac.0 mac.0 && is_permanent conf.now host.now) }
{
    conf.is_host_in(group, vid, host) && host.has_mac(mac) && conf.is_permanent(host)
}

fn has_staying(conf: &Conf, hosts: &[HostRec], group: DpId, vid: Vid, mac: Mac) -> bool
    ensures { result ≡ list_any (λ h. is_host_in conf.now group vid h && is_same h.mac.0 mac.0 && is_permanent conf.now h) hosts.now }
{
    hosts.iter().any(|host| stays(conf, host, group, vid, mac))
}

impl Conf {
    /// The number of a datapath's group: the least identifier among those of the datapaths that stack
    /// links join to it. What is no datapath of the configuration is a group of its own.
    pub fn group_number(&self, dp: DpId) -> DpId
        ensures { result ≡ group_of self.now dp }
    {
        match self.group(dp) {
            Some(number) => number,
            None => dp,
        }
    }

    /// Whether a host is one of the VLAN in the group with this number.
    pub fn is_host_in(&self, group: DpId, vid: Vid, host: &HostRec) -> bool
        ensures { result ≡ is_host_in self.now group vid host.now }
    {
        host.vid.get() == vid.get() && self.group_number(host.dp) == group
    }

    /// Whether a host stands on a port whose first host stays.
    pub fn is_permanent(&self, host: &HostRec) -> bool
        ensures { result ≡ is_permanent self.now host.now }
    {
        match self.port(host.dp, host.port) {
            Some(port) => port.permanent_learn,
            None => false,
        }
    }

    /// Whether it is the address of a VLAN's gateway.
    pub fn is_gateway_address(&self, mac: Mac) -> bool
        ensures { result ≡ is_gateway_address self.now mac.0 }
    {
        self.vlans()
            .as_slice()
            .iter()
            .any(|vlan| is_same_mac(vlan.mac, mac))
    }

    /// Whether an address may not come to a port in a VLAN: it is that of a host that stays on a port
    /// elsewhere in the group, or the port keeps the host that it has there.
    pub fn is_barred(&self, hosts: &[HostRec], dp: DpId, port: &Port, vid: Vid, mac: Mac) -> bool
        ensures { result ≡ is_barred self.now hosts.now dp port.now vid mac.0 }
    {
        let group = self.group_number(dp);
        !has_own(hosts, dp, port.no, vid, mac)
            && (has_staying(self, hosts, group, vid, mac)
                || (port.permanent_learn && holds_host(hosts, dp, port.no, vid)))
    }

    /// Whether a VLAN has as many hosts as it may in the group with this number; stale ones count.
    pub fn is_vlan_full(&self, hosts: &[HostRec], group: DpId, vlan: &Vlan) -> bool
        ensures { result ≡ is_vlan_full self.now hosts.now group vlan.now }
    {
        let vid = vlan.vid;
        let count = hosts
            .iter()
            .filter(|host| self.is_host_in(group, vid, host))
            .count();
        vlan.max_hosts as usize <= count
    }
}

impl Port {
    /// Whether it has as many hosts on a datapath as it may; stale ones count.
    pub fn is_full(&self, hosts: &[HostRec], dp: DpId) -> bool
        ensures { result ≡ is_port_full hosts.now dp self.now }
    {
        let no = self.no;
        let count = hosts.iter().filter(|host| host.is_at(dp, no)).count();
        self.max_hosts as usize <= count
    }
}

/// Whether there are as many hosts as a controller learns.
pub fn is_table_full(hosts: &[HostRec]) -> bool
    ensures { result ≡ is_table_full hosts.now }
{
    MOST_HOSTS <= hosts.len()
}
