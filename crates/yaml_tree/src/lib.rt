//! Trees of texts, numbers, lists and maps, as a document of a configuration is one.
#![tactic(auto)]

mod tree;

pub use tree::{Key, Pair, Pairs, Tree, Trees};
