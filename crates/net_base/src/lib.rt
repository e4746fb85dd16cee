//! Values that every other crate speaks of: lists and texts, VLAN and port numbers, addresses,
//! and the fields of a flow match.
#![tactic(auto)]

mod address;
mod address6;
mod ascii;
mod ascii6;
mod field;
mod items;
pub mod laws;
mod net4;
mod net6;
mod numbers;
mod stack;
mod text;
mod try_copy;
mod well_formed;

pub use address::{GROUP_BIT, Ip4, Mac};
pub use address6::Ip6;
pub use field::{Field, FieldId, FieldRow, Fields, Prerequisite, all_fields};
pub use items::{Bytes, Items};
pub use net4::Net4;
pub use net6::Net6;
pub use numbers::{DpId, Moment, PortNo, Vid};
pub use stack::{Node, Nodes, StackLink, StackLinks};
pub use text::{Names, Text};
pub use try_copy::{NoMemory, TryCopy};
pub use well_formed::{has_prerequisite, is_well_formed};
