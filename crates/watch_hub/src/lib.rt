//! A hub beside which a configuration file is looked at from time to time, so that a change of it is told
//! as a reload.
#![tactic(auto)]

mod file_watch;
pub mod laws;
mod look;
mod watch;

pub use watch::Watch;
