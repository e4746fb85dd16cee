//! A BGP speaker as a hub drives it.
#![tactic(auto)]

mod driven;
mod lines;
mod records;

pub use driven::DrivenSpeaker;
