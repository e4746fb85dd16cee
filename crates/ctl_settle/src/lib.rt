//! What is said where a turn settles: the asks for neighbours that are due, and to each datapath what leads
//! from the entries that it has to those that it is to have.
#![tactic(auto)]

mod asking;
mod batch;
pub mod laws;
mod order;
mod plans;
mod resting;
mod settling;
mod touched;

pub use order::in_order;
pub use plans::{Held, Plans};
pub use resting::{host_until, rests_at_least, rests_until};
pub use settling::settle;
pub use touched::Touched;
