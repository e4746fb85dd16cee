//! Probes of stack links: LLDP frames that tell which port of which datapath they were sent from.
#![tactic(auto)]

mod frame;
pub mod laws;

pub use frame::{Probe, probe_frame, probe_read};
