//! The YAML subset: the tree that a text has, or what is wrong with it, and the canonical text of a tree.
#![tactic(auto)]

mod blocks;
mod characters;
mod entries;
mod fault;
mod fault_names;
mod flow;
pub mod laws;
mod lines;
mod numbers;
mod plain;
mod print;
mod quoted;
mod reading;
mod scalars;
mod stack;

pub use fault::{YamlCause, YamlFault, YamlForm, YamlRefused};
pub use print::print_yaml;
pub use reading::read_yaml;
