//! Ethernet frames: the packet that a frame shows, the Internet checksum, and the frames that ask
//! for an address and that answer ARP and echo requests, of IPv4 and of IPv6.
#![tactic(auto)]

mod arp;
mod bytes;
mod echo;
mod echo6;
mod frame;
mod icmp6;
pub mod laws;
mod neighbour;
mod packet;
mod sum;

pub use arp::{arp_reply, arp_request};
pub use bytes::{ip4_at, ip6_at, u16_at};
pub use echo::echo_reply;
pub use frame::{FrameView, UpperView, view};
pub use neighbour::{nd_advert, nd_solicit};
pub use packet::packet_of;
pub use sum::checksum;
