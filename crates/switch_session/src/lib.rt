//! One connection to a switch: the frames of its byte stream, and what its messages do to it.
#![tactic(auto)]

mod closing;
pub mod laws;
mod pieces;
mod ports;
mod quiet;
mod session;
mod state;
mod staying;
mod stream;

pub use closing::Closing;
pub use pieces::{Split, frames_of};
pub use ports::{PortTold, is_up};
pub use quiet::Quiet;
pub use session::Session;
pub use state::{Stage, Step};
pub use stream::{Frame, Got, Stream};
