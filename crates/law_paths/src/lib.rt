//! What a change of some links leaves as it was: distances, next hops and tree ports of a stack depend on the
//! links of their own part alone. Proofs alone.
#![tactic(auto)]

pub mod laws;
