//! That whole lists of turns of a controller and of a Gauge return, that a reload which is refused changes nothing of
//! what comes, that a Gauge passes every reload over, and why it closes connections.
#![tactic(auto)]

pub mod laws;
pub mod stories;
