//! The configuration of a file with all that it includes.
#![tactic(auto)]

pub mod laws;
mod loading;

pub use loading::{check_tree, load, load_with_text};
