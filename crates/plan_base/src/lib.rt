//! The words that every flow entry is made of: tables, fields of matches, actions, instructions and
//! entries, with what a switch accepts of them.
#![tactic(auto)]

mod actions;
mod entries;
mod fields;
pub mod laws;
mod sending;
mod table;

pub use actions::{
    dec_ttl, out, pop_tag, push_tag, set_eth_dst, set_eth_src, set_vid, to_controller, to_ingress,
};
pub use entries::{leads_to, make_entry};
pub use fields::{
    arp_tpa, eth_dst, eth_src, eth_type, group_dst, group_src, icmpv4_type, icmpv6_type, in_port,
    ip_dst, ip_proto, nd_target, untagged, vid_field,
};
pub use sending::{push_copied, push_mirrored, push_sent};
pub use table::Table;
