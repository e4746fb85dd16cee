//! The turns of test programs: what happens, by the words of a line, and what is said, a line each. What is read
//! and printed here is compared with stored texts, and no contract speaks of it.
#![tactic(auto)]

mod happenings;
mod sayings;

pub use happenings::happening;
pub use sayings::put_saying;
