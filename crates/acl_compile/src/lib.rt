//! The flow entries of ACLs: table 0 of a port, and table 2 of a VLAN.
#![tactic(auto)]

pub mod laws;
mod place;
mod rules;
mod slices;
mod targets;
pub mod worked;

pub use place::Place;
pub use slices::{port_acl_entries, vlan_acl_entries};
