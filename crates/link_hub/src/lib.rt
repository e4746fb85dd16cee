//! A hub that serves the links of a poller: what comes on them is heard, what is said is written as
//! they can take it, and their ends are told.
#![tactic(auto)]

mod hub;
pub mod laws;
mod live;
mod queue;
mod table;

pub use hub::LinkHub;
