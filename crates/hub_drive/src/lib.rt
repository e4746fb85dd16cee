//! A machine driven by a hub, turn by turn: what it says goes out, what it closes is closed, and its lines are
//! written. A run over a recording is such a run; one in silence is for what is known behind it.
#![tactic(auto)]

pub mod drive;
pub mod laws;
pub mod machine;
pub mod replay;
mod sayings;
pub mod still;
mod turn;

pub use drive::Drove;
pub use machine::{Machine, Taken};
pub use replay::Replayed;
pub use sayings::Outlet;
