//! Rules 12 to 16 of a configuration, on its networks and its size: the first place where one is
//! broken.
#![tactic(auto)]

mod acl_sizes;
mod limits;
mod members;
mod met_routes;
mod met_vips;
mod mirrored;
mod numbered;
mod port_places;
mod routed;
mod routing;
mod sizes;

pub use limits::find_passed_limit;
pub use routing::find_routing_fault;
