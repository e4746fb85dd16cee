//! Lines of packets that leave a switch.
#![tactic(auto)]

mod lines;
pub mod worked;

pub use lines::put_sent;
