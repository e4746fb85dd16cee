//! A controller measured by a story: a switch with 48 ports opens its connection, then hosts come one by one; what the
//! controller says of it is counted.
#![tactic(auto)]

mod counted;
pub mod laws;
mod measuring;
mod run;
mod setup;
mod switch;

pub use counted::Counts;
pub use measuring::{Measured, measure};
pub use run::Run;
