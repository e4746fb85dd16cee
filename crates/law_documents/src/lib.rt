//! That the order in which the entries of maps are written doesn't matter, and that the path of a fault leads to
//! what is written. Proofs alone.
#![tactic(auto)]

pub mod order;
pub mod paths;
