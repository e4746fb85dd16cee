//! What a trace and a walk behind a story rest on.
#![tactic(auto)]

pub mod laws;
