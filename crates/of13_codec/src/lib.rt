//! Messages of OpenFlow 1.3 as bytes, both ways.
#![tactic(auto)]

mod codec;
mod features;
mod flow_mod;
mod hello;
pub mod laws;
mod message;
mod multipart;
mod packet_in;
mod packet_out;
mod ports;
mod refused;
mod sizes;

pub use codec::{FrameHead, decode, encode, header};
pub use features::FeaturesReply;
pub use flow_mod::FlowMod;
pub use message::Message;
pub use packet_in::PacketIn;
pub use packet_out::PacketOut;
pub use ports::{PortDesc, PortDescs, PortStats, PortStatsList};
pub use refused::WireRefused;
