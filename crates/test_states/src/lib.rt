//! What the cases of plans and of walks have in common: what their lines tell, a configuration and what is
//! learned under it; the frame that a case hands in, and packets as they are shown; units of work, counted. What
//! is read and printed here is compared with stored texts, and no contract speaks of it.
#![tactic(auto)]

mod bench;
mod frames;
mod learned;
mod state;
mod told;
mod units;

pub use bench::{Asked, print_told};
pub use frames::{frame_in, put_packet};
pub use learned::Learned;
pub use told::{NO_STATE, Told};
pub use units::Units;
