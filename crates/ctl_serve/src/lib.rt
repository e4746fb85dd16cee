//! A controller that serves the switches of a hub, and follows its configuration file.
#![tactic(auto)]

mod run;

pub use run::serve;
