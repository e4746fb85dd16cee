ghost use Rattle.std.specs.Prelude.{◌≡◌, ◌==◌, ◌<◌, ◌≤◌, [], length, slice_get, IfOk, OnErr, OnSome};
ghost use Rattle.std.specs.Option.{option_copied};
ghost use Rattle.conf_types.specs.State.{is_to_forget};
ghost use Rattle.host_learn.specs.Kept.{kept};
ghost use Rattle.host_learn.specs.Learning.{learned, outcome};
ghost use Rattle.host_learn.specs.Table.{first_due, host_of, off_datapath, off_due, off_port, without_first};

use crate::kept::kept_hosts;
use crate::learn::{Learn, outcome, take_in};
use conf_types::{Conf, HostRec, UpRec};
use host_list::{Hosts, HostsIter};
use net_base::{DpId, Mac, Moment, NoMemory, PortNo, Vid};
use std::alloc::Global;
use std::marker::Model;

/// The hosts that were learned, in the order of learning, and how many there are at most. Contracts
/// see a `Table`.
#[derive(Debug, Drop)]
pub struct HostTable {
    alloc: Global,
    limit: u32,
    hosts: Hosts,
}

impl Model for HostTable {
    ghost use Rattle.std.specs.Prelude.{◌≤◌, length};
    ghost use Rattle.host_learn.specs.Table.{Table};

    ghost Value = { Table };

    ghost view = { λ t. record { limit = t.limit; hosts = t.hosts } };

    ghost invariant = { λ t. length t.hosts ≤ t.limit };
}

impl HostTable {
    /// An empty table that holds at most so many hosts.
    pub fn new(alloc: Global, limit: u32) -> Result<HostTable, NoMemory>
        ensures { IfOk result (λ table. table ≡ record { limit = limit; hosts = [] }) }
    {
        Ok(HostTable {
            alloc,
            limit,
            hosts: Hosts::new(alloc),
        })
    }

    /// How many hosts there are.
    pub fn len(&self) -> usize
        ensures count { result ≡ length self.now.hosts }
        ensures limit { result ≤ self.now.limit }
    {
        self.hosts.len()
    }

    /// Whether there is no host.
    pub fn is_empty(&self) -> bool
        ensures { result ≡ (length self.now.hosts == 0) }
    {
        self.hosts.is_empty()
    }

    /// The host at a place in the order of learning, counted from 0; `None` exactly where the place
    /// isn't below the length.
    pub fn at(&self, place: usize) -> Option<&HostRec>
        ensures value { option_copied result ≡ slice_get self.now.hosts place }
        ensures within { OnSome result (place < length self.now.hosts) }
    {
        self.hosts.nth(place)
    }

    /// The hosts in the order of learning, one after another.
    pub fn iter(&self) -> HostsIter<'_>
        ensures { result ≡ self.now.hosts }
    {
        self.hosts.iter()
    }

    /// The list of the hosts, to be looked up and counted.
    pub fn as_hosts(&self) -> &Hosts
        ensures { result.now ≡ self.now.hosts }
    {
        &self.hosts
    }

    /// Takes in a packet with this source that came by this port in this VLAN, and answers what
    /// became of the host. After `NoMemory` the table is as it was.
    pub fn learn(
        &mut self,
        conf: &Conf,
        dp: DpId,
        port: PortNo,
        vid: Vid,
        mac: Mac,
        now: Moment,
    ) -> Result<Learn, NoMemory>
        ensures outcome { IfOk result (λ told. told ≡ outcome conf.now self.old (record { dp = dp; port = port; vid = vid; mac = mac; learned = now })) }
        ensures list { IfOk result (λ _. self.new ≡ learned conf.now self.old (record { dp = dp; port = port; vid = vid; mac = mac; learned = now })) }
        ensures err { OnErr result (self.new ≡ self.old) }
    {
        let heard = HostRec {
            dp,
            port,
            vid,
            mac,
            learned: now,
        };
        let told = outcome(conf, self.limit, &self.hosts, &heard);
        take_in(conf, &mut self.hosts, &heard, told)?;
        Ok(told)
    }

    /// Takes out the first host that is to be forgotten at a moment; `None` exactly where there is
    /// none.
    pub fn age(&mut self, conf: &Conf, now: Moment) -> Option<HostRec>
        ensures found { result ≡ first_due conf.now now.0 self.old.hosts }
        ensures list { self.new ≡ record self.old { hosts = without_first (is_to_forget conf.now now.0) self.old.hosts } }
    {
        self.hosts.age(conf, now)
    }

    /// Takes out the hosts that are to be forgotten at a moment, as `age` does one after another.
    pub fn forget_due(&mut self, conf: &Conf, now: Moment)
        ensures { self.new ≡ record self.old { hosts = off_due conf.now now.0 self.old.hosts } }
    {
        self.hosts.forget_due(conf, now);
    }

    /// Takes out the hosts at a port.
    pub fn forget_port(&mut self, dp: DpId, port: PortNo)
        ensures { self.new ≡ record self.old { hosts = off_port dp port self.old.hosts } }
    {
        self.hosts.forget_port(dp, port);
    }

    /// Takes out the hosts of a datapath.
    pub fn forget_dp(&mut self, dp: DpId)
        ensures { self.new ≡ record self.old { hosts = off_datapath dp self.old.hosts } }
    {
        self.hosts.forget_dp(dp);
    }

    /// The host with this address in the VLAN, in the group of the datapath; `None` exactly where
    /// there is none.
    pub fn get(&self, conf: &Conf, dp: DpId, vid: Vid, mac: Mac) -> Option<&HostRec>
        ensures { option_copied result ≡ host_of conf.now self.now.hosts dp vid mac.0 }
    {
        self.hosts.get(conf, dp, vid, mac)
    }

    /// The table that is kept under a new configuration, with these ports up: without the hosts
    /// that can't be learned where they stand or are to be forgotten, of several with one key the
    /// last, and of these in order those that find room. The limit is the same.
    pub fn kept(&self, conf: &Conf, ups: &[UpRec], now: Moment) -> Result<HostTable, NoMemory>
        ensures { IfOk result (λ table. table ≡ kept conf.now ups.now now.0 self.now) }
    {
        let hosts = self.hosts.to_list(self.alloc)?;
        let hosts = kept_hosts(self.alloc, conf, ups, now, self.limit, hosts.as_slice())?;
        let hosts = Hosts::from_slice(self.alloc, hosts.as_slice())?;
        Ok(HostTable {
            alloc: self.alloc,
            limit: self.limit,
            hosts,
        })
    }
}
