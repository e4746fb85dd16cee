//! What holds of each entry of a plan and of a cold start: it isn't too long for a message, hands the controller
//! whole packets, and can be done where it stands. Proofs alone.
#![tactic(auto)]

pub mod doable;
pub mod lengths;
