//! Next hops and trees of a stack, followed from datapath to datapath, with no word of packets: the way along
//! next hops ends at its target, and a flood along tree ports comes to each datapath of its part once. Proofs
//! alone.
#![tactic(auto)]

pub mod laws;
