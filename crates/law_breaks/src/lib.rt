//! That what is found at the path of each fault of a rule breaks that rule. Proofs alone.
#![tactic(auto)]

pub mod breaks;
