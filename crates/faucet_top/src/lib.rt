//! The commands of `faucet`, from their words to what they write.
#![tactic(auto)]

mod asked;
mod bench;
mod bgp;
mod check;
mod deliver;
mod follow;
mod gauge;
pub mod laws;
mod plan;
mod replay;
mod serve;
mod top;
mod units;

pub use deliver::{Status, deliver_out_of_memory, deliver_refusal, deliver_served, end_with_line};
pub use top::{faucet, local, refuse_for_memory};
pub use units::Units;
