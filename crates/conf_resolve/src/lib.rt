//! A raw configuration in the order in which it is checked, and what its names stand for.
#![tactic(auto)]

mod by_name;
mod collected;
mod made;
mod named_dps;
mod named_ports;
mod numbers;
mod order;
mod ordered;
mod ordering;
mod ports;
mod ranks;
mod resolved;
mod resolving;
mod rules;
mod seen;
mod vlans;

pub use named_dps::NamedDps;
pub use named_ports::NamedPorts;
pub use ordered::{OrderedConf, PlacedVlan, PlacedVlans};
pub use ordering::arrange;
pub use resolved::Resolved;
pub use resolving::resolve;
pub use seen::see_number;
