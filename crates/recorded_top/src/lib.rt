//! What `faucet_recorded` does: `serve`, and a recording of it.
#![tactic(auto)]

mod deliver;
mod serve;
mod top;

pub use top::faucet_recorded;
