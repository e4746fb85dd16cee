//! All that a controller knows: its configuration, the open connections, what it has learned, and what
//! it says.
#![tactic(auto)]

mod conns;
mod ends;
mod firsts;
mod frames;
pub mod laws;
mod now;
mod said;
mod saying;
mod sent;
mod up_ports;
mod world;

pub use conns::{Conn, Conns};
pub use frames::Front;
pub use said::{Said, Saids};
pub use saying::packet_out;
pub use sent::Sent;
pub use world::World;
