//! Roots, trees, distances and next hops of a stack of datapaths.
#![tactic(auto)]

mod choice;
mod hops;
pub mod laws;
mod paths;
mod roots;
mod search;
mod stack;
mod tree;
mod ways;

pub use paths::Paths;
pub use stack::is_stack;
