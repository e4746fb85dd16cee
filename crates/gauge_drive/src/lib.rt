//! Gauge as a hub drives it.
#![tactic(auto)]

mod driven;
pub mod laws;

pub use driven::DrivenGauge;
