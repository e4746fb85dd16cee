//! What was learned, as it stands here.

use conf_types::{DpIds, HostRec, NeighRecs, UpRecs};
use host_list::Hosts;
use net_base::{Moment, NoMemory};
use packet_way::Now;
use std::alloc::AllocError;

/// More hosts than any case has.
const MANY: usize = 0x4000_0000;

/// A state and all that it has.
#[derive(Drop)]
pub struct Learned {
    pub moment: Moment,
    pub running: DpIds,
    pub ups: UpRecs,
    pub hosts: Hosts,
    pub neighbours: NeighRecs,
}

impl Learned {
    /// The state, lent.
    pub fn now(&self) -> Now<'_> {
        Now {
            moment: self.moment,
            running: &self.running,
            ups: &self.ups,
            hosts: &self.hosts,
            neighbours: self.neighbours.as_slice(),
        }
    }

    /// Puts a host last.
    pub fn push_host(&mut self, host: &HostRec) -> Result<(), NoMemory> {
        if MANY <= self.hosts.len() {
            return Err(AllocError);
        }
        self.hosts.insert(host)
    }
}
