//! The life of connections, for whoever takes in what switches tell: what opens, its frames and its messages, its
//! silence and its end, and what is said as it goes out.
#![tactic(auto)]

mod hearing;
mod saying;
mod setup;
mod silence;

pub use hearing::{answer_echo, read_message, turn_away};
pub use saying::{Saying, Sayings, make_sayings};
pub use setup::{closing_for, open, replace, take_dp};
pub use silence::look_after;
