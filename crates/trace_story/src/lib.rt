//! What becomes of a frame behind what a recording tells: what the datapath sends of it that it comes in at, and
//! where that arrives.
#![tactic(auto)]

mod entry;
mod following;
mod lines;
mod ready;
mod showing;

pub use entry::{Missing, missing_in};
pub use following::{Followed, follow};
pub use showing::{How, Shown};
