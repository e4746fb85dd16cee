//! What the rules of a configuration say, each by itself: what each limit counts, which field each match key
//! gives, and where a rule is broken nowhere. Proofs alone.
#![tactic(auto)]

pub mod keys;
pub mod limits;
pub mod rules;
