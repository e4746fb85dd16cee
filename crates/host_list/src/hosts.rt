ghost use Rattle.std.specs.Prelude.{◌≡◌, ◌==◌, ◌<◌, ◌≤◌, ◌^◌, ◌++◌, ◌∷◌, [], length, slice_get, IfOk, OnOk, OnErr, OnSome};
ghost use Rattle.std.specs.Option.{option_copied};
ghost use Rattle.net_base.specs.Address.{IsSixBytes};
ghost use Rattle.conf_types.specs.State.{is_to_forget};
ghost use Rattle.host_list.specs.Hosts.{AreHosts, first_due, host_of, hosts_at, is_known, is_staying, moved, off_datapath, off_due, off_port, refreshed, stands_there, without_first};
ghost use Rattle.host_list.specs.Order.{hosts_of};

use crate::ageing::{Passed, leave_any_due, take_due};
use crate::counting::CountsHosts;
use crate::forgetting::leave;
use crate::order::{Leaving, Order, key_address, port_count, vlan_at_count, vlan_count};
use crate::seen::{HostsAt, HostsIter};
use crate::{known, moving};
use conf_types::{Conf, HostRec, HostRecs};
use net_base::{DpId, Mac, Moment, NoMemory, PortNo, Vid};
use std::alloc::Global;
use std::marker::Model;

/// The hosts that were learned, in the order of learning, which is what contracts see: looked up by
/// address and counted by where they stand, without going over them. There are at most 2^32.
#[derive(Debug, Drop)]
pub struct Hosts {
    order: Order,
    passed: Passed,
}

impl Model for Hosts {
    ghost use Rattle.std.specs.Prelude.{List};
    ghost use Rattle.conf_types.specs.declared.state.HostRec.{HostRec};
    ghost use Rattle.host_list.specs.Hosts.{AreHosts};
    ghost use Rattle.host_list.specs.Order.{hosts_of};
    ghost use Rattle.host_list.specs.Passed.{ArePassed};

    ghost Value = { List HostRec };

    ghost view = { λ h. hosts_of h.order };

    ghost invariant = { λ h. ArePassed h.passed h.order × AreHosts (hosts_of h.order) };
}

// What is read of the bytes tells how many they are.
fn first_byte(mac: Mac) -> u8
    ensures { IsSixBytes mac.0 }
{
    let bytes = mac.0;
    let slice = &bytes[..];
    slice[0]
}

impl Hosts {
    /// No hosts. It takes no memory yet.
    pub fn new(alloc: Global) -> Hosts
        ensures { result ≡ [] }
    {
        Hosts {
            order: Order::new(alloc),
            passed: Passed::none(),
        }
    }

    /// The hosts of a list, in its order.
    pub fn from_slice(alloc: Global, list: &[HostRec]) -> Result<Hosts, NoMemory>
        requires { length list.now < 2 ^ 32 }
        ensures { IfOk result (λ hosts. hosts ≡ list.now) }
    {
        let mut hosts = Hosts::new(alloc);
        for host in list {
            hosts.insert(host)?;
        }
        Ok(hosts)
    }

    /// How many hosts there are.
    pub fn len(&self) -> usize
        ensures { result ≡ length self.now }
    {
        self.order.len()
    }

    /// Whether there is no host.
    pub fn is_empty(&self) -> bool
        ensures { result ≡ (length self.now == 0) }
    {
        self.order.len() == 0
    }

    /// Nothing is done: the hosts can be counted, and their addresses have six bytes.
    pub fn are_sound(&self)
        ensures { AreHosts self.now }
    {
        let _order = &self.order;
    }

    /// The host at a place in the order, counted from 0; `None` exactly where the place isn't below the
    /// length.
    pub fn nth(&self, place: usize) -> Option<&HostRec>
        ensures value { option_copied result ≡ slice_get self.now place }
        ensures within { OnSome result (place < length self.now) }
    {
        self.order.nth(place)
    }

    /// The hosts in order, one after another.
    pub fn iter(&self) -> HostsIter<'_>
        ensures { result ≡ self.now }
    {
        HostsIter {
            rest: self.order.iter(),
        }
    }

    /// The hosts in order, as a list of their own.
    pub fn to_list(&self, alloc: Global) -> Result<HostRecs, NoMemory>
        ensures { IfOk result (λ list. list ≡ self.now) }
    {
        let hosts = self.order.hosts(alloc)?;
        Ok(HostRecs::from(hosts))
    }

    /// The host with this address in the VLAN, in the group of the datapath: the first one; `None`
    /// exactly where there is none.
    pub fn get(&self, conf: &Conf, dp: DpId, vid: Vid, mac: Mac) -> Option<&HostRec>
        ensures { option_copied result ≡ host_of conf.now self.now dp vid mac.0 }
    {
        let address = key_address(vid, mac);
        let group = conf.group_number(dp);
        known::find_host(self.order.entries(&address), conf, group, vid, mac)
    }

    /// The hosts at a port, in order, one after another.
    pub fn at(&self, dp: DpId, port: PortNo) -> HostsAt<'_>
        ensures { result ≡ hosts_at self.now dp port }
    {
        HostsAt {
            dp,
            port,
            rest: self.order.iter(),
        }
    }

    /// Whether the host that is heard stands where it is heard.
    pub fn stands_there(&self, heard: &HostRec) -> bool
        ensures { result ≡ stands_there self.now heard.now }
    {
        known::stands_there(&self.order, heard)
    }

    /// Whether the host that is heard stands anywhere in the group of its datapath.
    pub fn is_known(&self, conf: &Conf, heard: &HostRec) -> bool
        ensures { result ≡ is_known conf.now self.now heard.now }
    {
        known::is_known(conf, &self.order, heard)
    }

    /// Whether the host that is heard stays for good somewhere in the group of its datapath.
    pub fn is_staying(&self, conf: &Conf, heard: &HostRec) -> bool
        ensures { result ≡ is_staying conf.now self.now heard.now }
    {
        known::is_staying(conf, &self.order, heard)
    }

    /// Puts a host last. After `NoMemory` the list is as it was.
    pub fn insert(&mut self, host: &HostRec) -> Result<(), NoMemory>
        requires { length self.old < 2 ^ 32 }
        ensures ok { OnOk result (self.new ≡ self.old ++ host.now ∷ []) }
        ensures err { OnErr result (self.new ≡ self.old) }
    {
        let _first = first_byte(host.mac);
        self.passed = Passed::none();
        self.order.push(host)?;
        Ok(())
    }

    /// Gives the host that is heard its new moment, where it stands there; its place stays.
    pub fn refresh(&mut self, heard: &HostRec)
        ensures { self.new ≡ refreshed heard.now self.old }
    {
        self.passed = Passed::none();
        moving::refresh(&mut self.order, heard);
    }

    /// Takes the host that is heard out, wherever it stands in the group of its datapath, and puts it
    /// last. After `NoMemory` the list is as it was.
    pub fn move_last(&mut self, conf: &Conf, heard: &HostRec) -> Result<(), NoMemory>
        requires { length self.old < 2 ^ 32 }
        ensures ok { OnOk result (self.new ≡ moved conf.now heard.now self.old) }
        ensures err { OnErr result (self.new ≡ self.old) }
    {
        let _first = first_byte(heard.mac);
        self.passed = Passed::none();
        moving::move_last(conf, &mut self.order, heard)?;
        Ok(())
    }

    /// Takes out the first host that is to be forgotten at a moment; `None` exactly where there is
    /// none.
    pub fn age(&mut self, conf: &Conf, now: Moment) -> Option<HostRec>
        ensures found { result ≡ first_due conf.now now.0 self.old }
        ensures list { self.new ≡ without_first (is_to_forget conf.now now.0) self.old }
    {
        take_due(&mut self.order, &mut self.passed, conf, now)
    }

    /// Takes out the hosts that are to be forgotten at a moment, as `age` does one after another.
    pub fn forget_due(&mut self, conf: &Conf, now: Moment)
        ensures { self.new ≡ off_due conf.now now.0 self.old }
    {
        self.passed = Passed::none();
        leave_any_due(&mut self.order, conf, now);
    }

    /// Takes out the hosts at a port.
    pub fn forget_port(&mut self, dp: DpId, port: PortNo)
        ensures { self.new ≡ off_port dp port self.old }
    {
        self.passed = Passed::none();
        leave(&mut self.order, &Leaving::Port(dp, port));
    }

    /// Takes out the hosts of a datapath.
    pub fn forget_dp(&mut self, dp: DpId)
        ensures { self.new ≡ off_datapath dp self.old }
    {
        self.passed = Passed::none();
        leave(&mut self.order, &Leaving::Datapath(dp));
    }
}

impl CountsHosts for Hosts {
    ghost hosts = { λ hosts. hosts };

    fn at_port(&self, dp: DpId, port: PortNo) -> usize {
        port_count(&self.order, dp, port)
    }

    fn in_vlan_at(&self, dp: DpId, port: PortNo, vid: Vid) -> usize {
        vlan_at_count(&self.order, dp, port, vid)
    }

    fn in_vlan(&self, conf: &Conf, group: DpId, vid: Vid) -> usize {
        vlan_count(conf, &self.order, group, vid)
    }

    fn in_all(&self) -> usize {
        self.order.len()
    }
}
