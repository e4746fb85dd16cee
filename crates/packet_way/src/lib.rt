//! The way of a packet by the configuration, with no tables and no entries.
#![tactic(auto)]

mod admission;
pub mod description;
mod drops;
mod flood;
mod known;
pub mod laws;
mod leaving;
mod now;
mod paths;
mod routes;
mod source;
mod verdict;
pub mod worked;

pub use drops::{BRIDGE_GROUP, BROADCAST, PVST_GROUP};
pub use known::{Onward, host_with};
pub use now::Now;
pub use paths::make_paths;
pub use routes::{RouteItem, RouteItems, Routed, Target, route_list};
pub use source::Heard;
