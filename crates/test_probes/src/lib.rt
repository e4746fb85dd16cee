//! Tests of a hub on which links are probed: what its user gets and what its hub is told, turn by turn.
#![tactic(auto)]

#[cfg(test)]
mod probe_tests;
#[cfg(test)]
mod script;
pub mod words;
