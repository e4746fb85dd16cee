//! That what a controller hears is what frames spell, what a text has by its grammar, and what files give. Proofs alone.
#![tactic(auto)]

pub mod frames;
pub mod looks;
pub mod reloads;
