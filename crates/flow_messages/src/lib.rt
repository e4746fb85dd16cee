//! The messages that change flow tables (FLOW_MOD; OpenFlow 1.3, 7.3.4.1).
#![tactic(auto)]

mod messages;

pub use messages::{COOKIE, make_add, make_command, make_delete_all};
