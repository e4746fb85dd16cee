//! The batch of OpenFlow messages that opens a datapath, and what a switch holds behind it.
#![tactic(auto)]

pub mod laws;
mod messages;
mod opening;

pub use opening::opening_batch;
