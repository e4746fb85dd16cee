//! The plan of a datapath that is kept: what its switch was sent, what it is to hold, and the commands
//! that lead from the one to the other.
#![tactic(auto)]

mod again;
mod effect;
pub mod laws;
mod named;
mod plan;
mod reaches;
mod seen;
mod sound;
mod stood;
mod touched;
mod units;
mod warm;

pub use conf_types::Change;
pub use warm::Warm;
