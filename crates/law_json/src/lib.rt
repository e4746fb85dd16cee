//! That equal JSON texts are those of configurations that agree in all that is shown, and under which names the text of
//! a configuration shows what. Proofs alone.
#![tactic(auto)]

pub mod laws;
pub mod names;
