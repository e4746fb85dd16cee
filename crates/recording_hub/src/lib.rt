//! A hub all of whose happenings are written down as a recording, so that what it told can be told again.
#![tactic(auto)]

pub mod laws;
mod recorder;
mod recording_hub;

pub use recording_hub::RecordingHub;
