//! Runs of packets through flow tables, whichever of several best entries a switch takes: what decides in a
//! table, and what a whole run then sends.
#![tactic(auto)]

pub mod laws;
