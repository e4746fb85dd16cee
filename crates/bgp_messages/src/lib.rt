//! The messages of BGP-4 (RFC 4271) as bytes: those that are said, in their one spelling, those that are
//! heard, and what is wrong with bytes that are none.
#![tactic(auto)]

mod attribute;
mod fault;
mod head;
mod kind;
pub mod laws;
mod message;
mod number;
mod opening;
mod parameters;
mod path;
mod prefixes;
mod said;
mod update;

pub use attribute::{Attribute, Attributes};
pub use fault::{Fault, Refused};
pub use head::{Front, HEADER, Head, LONGEST, front_of};
pub use kind::Kind;
pub use message::{Message, Notification, Open, Update, read_body};
pub use path::Numbers;
pub use prefixes::Prefixes;
pub use said::{Said, put_said};
