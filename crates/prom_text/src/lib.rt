//! Blocks of samples in Prometheus' text exposition format (version 0.0.4): ports' counters and states, and
//! flow entries.
#![tactic(auto)]

mod blocks;
mod counted;
pub mod laws;
mod names;
mod rows;
mod spelling;

pub use blocks::{flow_block, port_block, state_block};
pub use counted::{counted_flows, counted_ports};
pub use names::{flow_name, port_name};
