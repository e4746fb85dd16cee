//! A BGP-4 speaker (RFC 4271) for one peer that connects: what it says and closes of all that happens, and
//! the routes that it has then.
#![tactic(auto)]

mod bgp;
mod hearing;
mod known;
pub mod laws;
mod peer;
mod saying;

pub use bgp::Bgp;
pub use peer::Peering;
pub use saying::{BgpClosing, BgpSaying, BgpSayings};
