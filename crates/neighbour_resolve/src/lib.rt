//! Neighbours: which addresses are resolved, IPv4 ones by ARP and IPv6 ones by neighbour discovery, when
//! they are asked and given up, what is sent to ask, and what a VLAN's gateway answers.
#![tactic(auto)]

mod answers;
mod asks;
mod counted;
mod discovery;
mod hearing;
mod kept;
pub mod laws;
mod neighbour;
mod passed;
mod table;
pub mod worked;

pub use answers::{Reply, answer};
pub use asks::{Outgoing, ask, send_back};
pub use counted::counted_vid;
pub use hearing::{Sender, heard_sender};
pub use neighbour::{Due, Want};
pub use table::Neighbours;
