//! The BGP peer of a router, as the configuration of a file says it.
#![tactic(auto)]

mod found;
pub mod laws;
mod loading;

pub use found::{FoundPeer, LoadedPeer, PeerLacks};
pub use loading::load_peer;
