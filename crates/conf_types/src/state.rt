use crate::address::Ip;
use net_base::{DpId, Items, Mac, Moment, NoMemory, PortNo, TryCopy, Vid};
use std::alloc::Global;

/// A list of datapaths, by their identifiers.
pub type DpIds = Items<DpId>;

/// A host that was learned: its key is the group of its datapath, the VLAN and the address.
#[derive(Clone, Copy, Debug, PartialEq, Eq)]
pub struct HostRec {
    pub dp: DpId,
    pub port: PortNo,
    pub vid: Vid,
    pub mac: Mac,
    /// When it was last heard.
    pub learned: Moment,
}

/// Hosts, in the order in which they were learned.
pub type HostRecs = Items<HostRec>;

/// A neighbour to be resolved, by ARP (RFC 826) or neighbour discovery (RFC 4861): its key is the group, the VLAN and the address.
#[derive(Clone, Copy, Debug, PartialEq, Eq)]
pub struct NeighRec {
    /// The number of the group of datapaths: the least identifier in it.
    pub group: DpId,
    pub vid: Vid,
    pub ip: Ip,
    /// The neighbour's Ethernet address, once it is known.
    pub mac: Option<Mac>,
    /// How often it was asked without an answer.
    pub tries: u8,
    /// When it is to be asked next.
    pub due: Moment,
}

/// Neighbours, in the order in which they were added.
pub type NeighRecs = Items<NeighRec>;

/// A port that is up.
#[derive(Clone, Copy, Debug, PartialEq, Eq)]
pub struct UpRec {
    pub dp: DpId,
    pub port: PortNo,
}

/// Ports that are up.
pub type UpRecs = Items<UpRec>;

impl TryCopy for HostRec {
    fn copy(&self, _alloc: Global) -> Result<HostRec, NoMemory> {
        Ok(*self)
    }
}

impl TryCopy for NeighRec {
    fn copy(&self, _alloc: Global) -> Result<NeighRec, NoMemory> {
        Ok(*self)
    }
}

impl TryCopy for UpRec {
    fn copy(&self, _alloc: Global) -> Result<UpRec, NoMemory> {
        Ok(*self)
    }
}
