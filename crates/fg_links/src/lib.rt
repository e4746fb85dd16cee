//! Links to switches, the poller that tells what happens on them, and hubs in memory, as traits with
//! what they tell and their forms in memory.
#![tactic(auto)]

pub mod laws;
mod link;
mod mem_hub;
mod mem_link;
mod mem_poller;
mod next;
mod poller;
mod story;
mod told;

pub use link::{Gave, Link, Took};
pub use mem_hub::{HubInMemory, MemHub, SureHub};
pub use mem_link::{LinkInMemory, MemLink, SureLink};
pub use mem_poller::{MemPoller, PollerInMemory, SurePoller};
pub use next::{MemNext, MemNexts, Next};
pub use poller::Poller;
pub use story::StoryStep;
pub use told::Told;
