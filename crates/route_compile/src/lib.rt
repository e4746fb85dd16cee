//! The flow entries of routing: where a VLAN's gateway sends packets (table 4 for IPv4, table 5 for
//! IPv6), and what the controller answers for it (table 6).
#![tactic(auto)]

mod gateways;
pub mod laws;
mod routes;
mod vips;
pub mod worked;

pub use routes::fib_entries;
pub use vips::vip_entries;
