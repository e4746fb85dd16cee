//! What is right of every story of a controller, beside what it plans: the lives of connections, batches, lines, what closes and of which
//! frame, hosts and neighbours over time and over reloads. The functions are empty but for calls of the laws that they rest on, and their
//! contracts are the laws.
#![tactic(auto)]

pub mod batches;
pub mod bytes;
pub mod hosts;
pub mod lines;
pub mod neighbours;
pub mod reloads;
pub mod sessions;
pub mod spans;
