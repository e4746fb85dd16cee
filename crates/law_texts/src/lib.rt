//! That what the YAML reader gives is what a text has by its grammar alone: of whole texts, of the parts of a line, of
//! scalars and of keys. Proofs alone.
#![tactic(auto)]

pub mod blocks;
pub mod characters;
pub mod keys;
pub mod lines;
pub mod scalars;
pub mod texts;
