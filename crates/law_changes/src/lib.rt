//! Which hosts, neighbours, ports and datapaths a turn of the controller changes, by the steps that it takes
//! (`steps`), and that all that differs is named (`laws`). Proofs alone.
#![tactic(auto)]

pub mod laws;
pub mod steps;
