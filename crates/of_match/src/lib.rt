//! The switch's side of OpenFlow 1.3: packets, matches, actions, instructions and flow tables.
#![tactic(auto)]

mod action;
mod entry;
pub mod ether_type;
mod hit;
mod ingress;
pub mod laws;
mod lead;
mod matching;
mod order;
mod packet;
mod perform;
mod pipeline;
mod tables;

pub use action::{Action, Actions, CONTROLLER, IN_PORT, Instr, Instrs};
pub use entry::{Command, Commands, Entries, Entry, Key};
pub use hit::{hits, value_of};
pub use ingress::in_port;
pub use matching::Match;
pub use order::is_masked;
pub use packet::{Acted, L4, Packet, Sent, Sents, Tag, Tags, Upper};
pub use perform::act;
pub use pipeline::run;
pub use tables::{Tables, TablesIter, apply};
