//! The cold start of a datapath: every flow entry that the configuration and what was learned ask of it, as
//! tables.
#![tactic(auto)]

mod append;
mod fixed;
mod hosts;
pub mod laws;
mod members;
mod plan;
mod tables;
mod unit;

pub use tables::cold;
pub use unit::{unit_entries, unit_entries_with};
