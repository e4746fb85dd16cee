//! The words of a command line: the words behind a command, parted into plain words and options, and
//! what the whole asks the program to do.
#![tactic(auto)]

mod frames;
pub mod laws;
mod meaning;
mod parts;
mod recorded;
mod values;
pub mod worked;

pub use meaning::{Job, read_words};
pub use parts::{CommandOption, CommandOptions, Parts, part_words};
pub use recorded::{RecordedServe, read_recorded_words};
pub use values::Listen;
