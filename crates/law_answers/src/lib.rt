//! What is right of the answers of `replay` and `serve`: that what a replay writes is of the one answer to its recording, and all laws of
//! stories in one place.
#![tactic(auto)]

pub mod replays;
pub mod whole;
