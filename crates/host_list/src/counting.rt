//! How many hosts stand where.

ghost use Rattle.std.specs.Prelude.{◌≡◌, ◌==◌, ◌&&◌, List, count_by, length};
ghost use Rattle.conf_types.specs.declared.state.HostRec.{HostRec};
ghost use Rattle.conf_types.specs.State.{is_host_at, is_host_in};

use conf_types::{Conf, HostRec};
use net_base::{DpId, PortNo, Vid};
use std::marker::Model;

/// Hosts that are counted by where they stand. Stale ones count.
pub trait CountsHosts {
    /// The hosts, in the order of learning.
    ghost hosts: { Self → List HostRec };

    /// How many stand at a port of a datapath.
    fn at_port(&self, dp: DpId, port: PortNo) -> usize
        ensures { result ≡ count_by (is_host_at dp port) (hosts self.now) };

    /// How many of a VLAN stand at a port of a datapath.
    fn in_vlan_at(&self, dp: DpId, port: PortNo, vid: Vid) -> usize
        ensures { result ≡ count_by (λ h. is_host_at dp port h && h.vid == vid) (hosts self.now) };

    /// How many of a VLAN stand in the group with this number.
    fn in_vlan(&self, conf: &Conf, group: DpId, vid: Vid) -> usize
        ensures { result ≡ count_by (is_host_in conf.now group vid) (hosts self.now) };

    /// How many there are.
    fn in_all(&self) -> usize
        ensures { result ≡ length (hosts self.now) };
}

/// Hosts that stand in a slice, which is what contracts see. Each count goes over them all.
#[derive(Debug, Drop)]
pub struct Listed<'a> {
    hosts: &'a [HostRec],
}

impl<'a> Model for Listed<'a> {
    ghost use Rattle.std.specs.Prelude.{List};
    ghost use Rattle.conf_types.specs.declared.state.HostRec.{HostRec};

    ghost Value = { List HostRec };

    ghost view = { λ l. l.hosts.now };
}

fn is_in_vlan_at(host: &HostRec, dp: DpId, port: PortNo, vid: Vid) -> bool
    ensures { result ≡ (is_host_at dp port host.now && host.now.vid == vid) }
{
    host.is_at(dp, port) && host.vid.get() == vid.get()
}

impl<'a> Listed<'a> {
    /// The hosts of a slice.
    pub fn new(hosts: &'a [HostRec]) -> Listed<'a>
        ensures { result ≡ hosts.now }
    {
        Listed { hosts }
    }
}

impl<'a> CountsHosts for Listed<'a> {
    ghost hosts = { λ hosts. hosts };

    fn at_port(&self, dp: DpId, port: PortNo) -> usize {
        self.hosts
            .iter()
            .filter(|host| host.is_at(dp, port))
            .count()
    }

    fn in_vlan_at(&self, dp: DpId, port: PortNo, vid: Vid) -> usize {
        self.hosts
            .iter()
            .filter(|host| is_in_vlan_at(host, dp, port, vid))
            .count()
    }

    fn in_vlan(&self, conf: &Conf, group: DpId, vid: Vid) -> usize {
        self.hosts
            .iter()
            .filter(|host| conf.is_host_in(group, vid, host))
            .count()
    }

    fn in_all(&self) -> usize {
        self.hosts.len()
    }
}
