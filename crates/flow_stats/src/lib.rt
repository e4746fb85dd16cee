//! Flow statistics of OpenFlow 1.3: the request for them, and the parts of a reply.
#![tactic(auto)]

mod flow;
pub mod laws;
mod part;
mod request;

pub use flow::{Flow, FlowPart, Flows};
pub use part::flow_part;
pub use request::flow_request;
