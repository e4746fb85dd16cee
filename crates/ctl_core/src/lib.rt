//! The controller: what happens, turn by turn, and what is said of it.
#![tactic(auto)]

mod before;
mod compared;
mod controller;
mod ends;
mod found;
mod gateways;
mod hearing;
mod known;
pub mod laws;
mod reloading;
mod setup;
mod turned;
mod turns;
mod waits;

pub use controller::Controller;
