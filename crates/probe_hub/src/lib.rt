//! A hub on which the links of a stack are probed: probes are said between what its user says, and where none
//! comes from the other end for too long, the port is told down in the stream of its switch.
#![tactic(auto)]

mod conn;
mod conns;
mod frames;
mod known;
pub mod laws;
mod links;
mod marks;
mod notices;
mod peer;
mod probe_hub;
mod probing;
mod reader;

pub use links::{LinkEnd, LinkEnds, LinkWatch, Links};
pub use probe_hub::ProbeHub;
pub use reader::ReadsLinks;
