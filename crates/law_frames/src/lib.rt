//! That what a frame is decoded to is what it spells by the standard's structures alone, and frames that are worked out
//! by hand. Proofs alone.
#![tactic(auto)]

pub mod frames;
pub mod worked;
