//! The law of a whole plan, from those of its tables, and of a cold start: both send every packet as the
//! configuration describes. Proofs alone.
#![tactic(auto)]

pub mod cold;
pub mod plan;
