//! The routes that a BGP peer's UPDATEs lead to (RFC 4271): withdrawn ones go, announced ones are set to
//! their next hop.
#![tactic(auto)]

pub mod laws;
mod networks;
mod routes;
mod set;

pub use routes::{BgpRoute, MOST, Routes, RoutesRefused};
