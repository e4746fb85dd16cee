//! The difference of two plans: the least list of commands that leads from the one to the other.
#![tactic(auto)]

pub mod laws;
mod merge;
mod rest;
#[cfg(test)]
mod tests;
mod told;

pub use merge::difference;
pub use told::difference_at;
