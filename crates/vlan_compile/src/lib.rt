//! The flow entries of tables 1, 3, 7 and 8 that an interface, a host or a VLAN has: admission, sources,
//! destinations and floods.
#![tactic(auto)]

mod admissions;
mod counted;
mod destinations;
mod flood;
mod floods;
pub mod laws;
mod learned;
mod misses;
mod sources;
mod targets;
mod vlans;

pub use admissions::admit_entries;
pub use counted::counted_miss_entries;
pub use destinations::dst_entries;
pub use flood::{Flood, Ingress};
pub use floods::flood_entries;
pub use misses::miss_entries;
pub use sources::src_entries;
