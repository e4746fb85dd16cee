//! Where a packet arrives that one datapath takes in: its walk through the cold starts of the datapaths, over
//! the stack links that are up.
#![tactic(auto)]

mod arrival;
mod kept;
mod links;
mod walking;

pub use arrival::{Arrival, Arrivals};
pub use walking::{MOST_IN_A_ROW, walk};
