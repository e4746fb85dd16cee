//! Hosts that are seen one after another.

use conf_types::HostRec;
use net_base::{DpId, PortNo};
use std::collections::btree_map::Values;
use std::marker::Model;

/// The hosts that are left to be seen, in the order of learning, which is what contracts see.
#[derive(Debug, Drop)]
pub struct HostsIter<'a> {
    pub(crate) rest: Values<'a, u64, HostRec>,
}

impl<'a> Model for HostsIter<'a> {
    ghost use Rattle.std.specs.Prelude.{List};
    ghost use Rattle.conf_types.specs.declared.state.HostRec.{HostRec};

    ghost Value = { List HostRec };

    ghost view = { λ it. it.rest };
}

impl<'a> Iterator for HostsIter<'a> {
    ghost use Rattle.std.specs.Iterator.{YieldsFirstRef, item_count};

    type Item = &'a HostRec;

    ghost next_gives = { YieldsFirstRef (λ rest. rest) };

    ghost remaining = { item_count (λ rest. rest) };

    fn next(&mut self) -> Option<&'a HostRec> {
        self.rest.next()
    }
}

/// The hosts at a port that are left to be seen, in the order of learning, which is what contracts see.
#[derive(Debug, Drop)]
pub struct HostsAt<'a> {
    pub(crate) dp: DpId,
    pub(crate) port: PortNo,
    pub(crate) rest: Values<'a, u64, HostRec>,
}

impl<'a> Model for HostsAt<'a> {
    ghost use Rattle.std.specs.Prelude.{List};
    ghost use Rattle.conf_types.specs.declared.state.HostRec.{HostRec};
    ghost use Rattle.host_list.specs.Hosts.{hosts_at};

    ghost Value = { List HostRec };

    ghost view = { λ it. hosts_at it.rest it.dp it.port };
}

impl<'a> Iterator for HostsAt<'a> {
    ghost use Rattle.std.specs.Iterator.{YieldsFirstRef, item_count};

    type Item = &'a HostRec;

    ghost next_gives = { YieldsFirstRef (λ rest. rest) };

    ghost remaining = { item_count (λ rest. rest) };

    fn next(&mut self) -> Option<&'a HostRec> {
        while let Some(host) = self.rest.next() {
            if host.is_at(self.dp, self.port) {
                return Some(host);
            }
        }
        None
    }
}
