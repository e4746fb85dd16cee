//! What a packet does that a switch sent to the controller: its host is learned, the neighbour that it
//! looks for is wanted, that which it tells of is known, or it is answered.
#![tactic(auto)]

mod arrival;
mod gleaning;
mod hearing;
pub mod laws;
mod learning;
mod packet;
mod reply;

pub use gleaning::is_route_table;
pub use packet::packet_in;
