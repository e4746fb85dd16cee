//! The session with one BGP peer that connects (RFC 4271, 8): its states, what each message and each
//! moment leads to, the hold time and the KEEPALIVEs.
#![tactic(auto)]

pub mod laws;
mod session;
mod step;

pub use session::{HOLD_TIME, Session, State};
pub use step::Step;
