//! Matches, actions and instructions of OpenFlow 1.3 as bytes, both ways.
#![tactic(auto)]

mod actions;
mod fault;
mod instructions;
pub mod laws;
mod matches;
mod number;
pub mod order_laws;
mod reading;

pub use actions::{actions_len, get_actions, put_actions, read_actions};
pub use fault::{PartCause, PartFault, PartRefused};
pub use instructions::{get_instrs, get_instrs_at, put_instrs};
pub use matches::{get_match, get_match_at, get_match_seen, get_match_seen_at, put_match};
pub use number::{number_at, put_number, put_zeros, u8_at, u16_at, u32_at, u64_at};
pub use reading::{past_end, refused, take_padding, up_to_8};
