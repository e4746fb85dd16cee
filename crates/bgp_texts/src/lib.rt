//! The text of a configuration with the routes of a BGP peer: those that it takes, behind the routes of a VLAN.
#![tactic(auto)]

mod items;
pub mod laws;
mod taking;
mod text;
mod trees;
mod vlan;

pub use taking::Taken;
pub use text::text_with;
pub use vlan::vlan_key;
