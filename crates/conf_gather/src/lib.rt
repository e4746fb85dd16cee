//! A configuration file with the files that it includes, as one tree.
#![tactic(auto)]

mod again;
mod extend;
mod gathering;
mod grown;
mod include;
mod key_set;
mod keys;
pub mod laws;
mod names;
mod reached;
mod refused;
mod sections;
mod take;
mod wrong;

pub use gathering::gather;
pub use include::{Include, Role};
pub use names::whole_name;
pub use refused::LoadRefused;
pub use take::read_tree;
