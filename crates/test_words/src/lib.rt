//! The texts of test programs: words of a case that stand for values, and flow entries in one line; and numbers
//! by chance. What is read and printed here is compared with stored texts, and no contract speaks of it.
#![tactic(auto)]

mod draws;
mod entries;
mod fields;
mod words;

pub use draws::draw;
pub use entries::{put_actions, put_command, put_entry};
pub use fields::{put_ip4, put_ip6, put_mac};
pub use words::{dp_id, mac, moment, number, port_no, vid};
