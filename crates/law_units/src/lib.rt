//! What tells the units of a datapath's plan apart, whose a flow entry is by its key alone (`laws`); and which
//! units a difference of two states reaches (`reach`). Proofs alone.
#![tactic(auto)]

pub mod laws;
pub mod reach;
