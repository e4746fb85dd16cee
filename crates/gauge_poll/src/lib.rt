//! Gauge: it polls the counters of switches' ports and flow entries, and gives lines and blocks of what they
//! tell.
#![tactic(auto)]

mod blocks;
mod gauge;
mod hearing;
mod known;
pub mod laws;
mod lines;
mod newest;
mod parts;
mod poll;
mod polling;
mod report;
mod setup;
mod telling;
mod turns;

pub use gauge::{Gauge, GaugeTurn};
pub use parts::Waiting;
pub use poll::Poll;
pub use telling::Telling;
