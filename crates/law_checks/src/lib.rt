//! What the shape of a document says of its raw configuration, and that a raw configuration which breaks no rule
//! stands for a valid one. Proofs alone.
#![tactic(auto)]

pub mod ranges;
pub mod valid;
