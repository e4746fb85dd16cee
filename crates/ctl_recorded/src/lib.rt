//! A controller that serves the switches of a hub, follows its configuration file, and writes a recording of what
//! happens to it.
#![tactic(auto)]

mod run;

pub use run::{RecordedEnd, RecordedService, serve_recorded};
