//! Gauge's configuration of a file, with the configuration of the switches that the file names.
#![tactic(auto)]

mod loading;

pub use loading::load_gauge;
