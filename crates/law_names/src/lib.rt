//! Which changes name all that a step of a controller may make differ in the state (`steps`), and how such names
//! are joined (`laws`). Proofs alone.
#![tactic(auto)]

pub mod laws;
pub mod steps;
