//! A grammar of keys, one line a key: that a document has no fault of its shape exactly where it is right by it, that
//! the fault which is told is exactly the first by it, and what a document gives by it. Proofs alone.
#![tactic(auto)]

pub mod documents;
pub mod keys;
