//! Links over TCP, and the poller that listens for them and tells what happens on them, over `mio`.
#![tactic(auto)]

mod mio_link;
mod mio_poller;
mod port;
mod sources;
#[cfg(test)]
mod tests;
mod ticks;

pub use mio_link::MioLink;
pub use mio_poller::MioPoller;
