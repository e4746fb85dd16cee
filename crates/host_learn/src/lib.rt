//! The table of hosts: which addresses were heard where, in the order of learning.
#![tactic(auto)]

mod host;
mod kept;
pub mod laws;
mod learn;
mod table;

pub use host_list::HostsIter;
pub use learn::Learn;
pub use table::HostTable;
