//! The laws of whole networks: where packets arrive that one datapath takes in, by the cold starts of all
//! datapaths and the stack links that are up. Proofs alone.
#![tactic(auto)]

pub mod laws;
