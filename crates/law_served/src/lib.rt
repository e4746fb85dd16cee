//! What serving comes to: on the links of a poller, and in a replay of its recording. The functions are empty but for calls of the laws
//! that they rest on, and their contracts are the laws.
#![tactic(auto)]

pub mod flights;
pub mod links;
