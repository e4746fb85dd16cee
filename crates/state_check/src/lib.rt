//! Whether a state is valid for a configuration, as a program: what tests ask before they hand a state of
//! their own to calls that have this as their condition.
#![tactic(auto)]

mod hosts;
mod neighbours;
mod valid;

pub use valid::is_valid;
