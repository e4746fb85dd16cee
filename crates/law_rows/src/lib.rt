//! Rows of the flow tables and numbers of match fields, worked out by hand with the numbers of the standards; and
//! which prefix is the longest. Proofs alone.
#![tactic(auto)]

pub mod numbers;
pub mod prefixes;
pub mod rows;
