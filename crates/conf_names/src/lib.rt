//! Rules 1 to 11 of a configuration, on its names and ports: the first place where one is broken.
#![tactic(auto)]

mod attached;
mod dp_tables;
mod ends;
mod names;
mod numbered_ports;
mod ports;
mod rules;
mod targets;
mod unknown;

pub use rules::{find_name_fault, find_port_fault};
