//! The accepted configuration: datapaths with their interfaces, VLANs, ACLs and routers; and the
//! records of what a controller has learned.
#![tactic(auto)]

mod acl;
mod address;
mod change;
mod conf;
mod datapath;
mod family;
mod fresh;
mod group;
mod hosts;
pub mod laws;
mod links;
mod named;
mod peer;
mod state;
mod tally;
mod vlan;

pub use acl::{Acl, Acls, PortRef, PortRefs, Rule, Rules};
pub use address::{Ip, Net};
pub use change::Change;
pub use conf::Conf;
pub use datapath::{Dp, Dps, Member, Port, PortNos, Ports, StackEnd};
pub use family::{Family, IPV4, IPV6};
pub use group::group_at;
pub use hosts::{MOST_HOSTS, is_table_full};
pub use links::is_up;
pub use peer::BgpConf;
pub use state::{DpIds, HostRec, HostRecs, NeighRec, NeighRecs, UpRec, UpRecs};
pub use tally::Tally;
pub use vlan::{Nets, Route, Router, Routers, Routes, Vids, Vlan, Vlans};
