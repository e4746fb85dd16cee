//! The sixteen rules of a configuration, each the list of the places where it is broken, and what
//! looks for such places: places as they are told, and tables of what was seen.
#![tactic(auto)]

mod acl_names;
mod edges;
mod places;
mod seen;
mod vids;

pub use acl_names::AclNames;
pub use edges::{AllEdges, Edges};
pub use places::{
    Found, acl_site, broken, dp_site, name_site, nth, port_site, router_site, under, under_port,
};
pub use seen::{different_len, see_name};
pub use vids::{count_vids, see_all, see_some, see_vid, seen_once};
