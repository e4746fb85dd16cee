//! The BGP speaker of a router of a configuration: what it says to its peer, and the text of the configuration with
//! the routes that it has, where that changes.
#![tactic(auto)]

pub mod laws;
mod same;
mod speaker;
mod texts;

pub use speaker::{Speaker, Spoken};
pub use texts::Texts;
