//! The JSON text of an accepted configuration, as the command `check` prints it.
#![tactic(auto)]

mod conf;
mod datapath;
mod lists;
mod port;
mod value;
mod vlan;
pub mod worked;

pub use conf::json;
