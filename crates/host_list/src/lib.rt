//! The hosts of a state in the order of learning: looked up by address, counted by where they stand.
#![tactic(auto)]

mod addresses;
mod ageing;
mod counting;
mod counts;
mod forgetting;
mod hosts;
mod known;
mod moving;
mod order;
mod seen;
mod shelves;

pub use counting::{CountsHosts, Listed};
pub use hosts::Hosts;
pub use known::has_key;
pub use seen::{HostsAt, HostsIter};
