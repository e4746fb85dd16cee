//! That whole lists of calls of a table of hosts and of a hub return, that what they refuse has its cause and
//! changes nothing, and that they pass no limit.
#![tactic(auto)]

pub mod hosts;
pub mod hubs;
pub mod laws;
