//! The units of a datapath's plan: what each member of the configuration and of the state adds to the flow
//! tables.
#![tactic(auto)]

pub mod laws;
mod unit;

pub use unit::Unit;
