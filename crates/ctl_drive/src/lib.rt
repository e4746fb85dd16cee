//! The controller as a hub drives it.
#![tactic(auto)]

mod steered;

pub use steered::Steered;
