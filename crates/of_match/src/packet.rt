ghost use Rattle.std.specs.Prelude.{◌≡◌, IfOk};

use net_base::{Bytes, Ip4, Ip6, Items, Mac, NoMemory, TryCopy};
use std::alloc::Global;

/// A VLAN tag (IEEE 802.1Q, 9.3).
#[derive(Clone, Copy, Debug, PartialEq, Eq)]
pub struct Tag {
    /// The EtherType that shows the tag, that of a VLAN tag or of a provider's.
    pub tpid: u16,
    /// The priority, 0 to 7.
    pub pcp: u8,
    /// Whether the frame may be dropped first.
    pub dei: bool,
    /// The VLAN identifier, 0 to 4095.
    pub vid: u16,
}

/// Tags, the outermost first.
pub type Tags = Items<Tag>;

impl TryCopy for Tag {
    fn copy(&self, _alloc: Global) -> Result<Tag, NoMemory> {
        Ok(*self)
    }
}

/// What of a packet's transport header can be matched.
#[derive(Clone, Copy, Debug, PartialEq, Eq)]
pub enum L4 {
    /// Nothing, as in a later fragment.
    None,
    /// The ports of TCP (RFC 9293, 3.1).
    Tcp {
        src: u16,
        dst: u16,
    },
    /// The ports of UDP (RFC 768).
    Udp {
        src: u16,
        dst: u16,
    },
    /// The type and the code of ICMP (RFC 792).
    Icmp {
        kind: u8,
        code: u8,
    },
    /// The type and the code of ICMPv6 (RFC 4443, 2.1), and the target of a message that solicits a
    /// neighbour or advertises one (RFC 4861, 4.3 and 4.4).
    Icmp6 {
        kind: u8,
        code: u8,
        target: Option<Ip6>,
    },
}

/// What of a packet's headers behind the EtherType can be matched.
#[derive(Clone, Copy, Debug, PartialEq, Eq)]
pub enum Upper {
    /// Nothing.
    None,
    /// ARP for IPv4 over Ethernet (RFC 826).
    Arp {
        op: u16,
        spa: Ip4,
        tpa: Ip4,
    },
    /// IPv4 (RFC 791, 3.1).
    V4 {
        src: Ip4,
        dst: Ip4,
        proto: u8,
        ttl: u8,
        l4: L4,
    },
    /// IPv6 (RFC 8200, 3), its protocol being the type of the header that follows.
    V6 {
        src: Ip6,
        dst: Ip6,
        proto: u8,
        hops: u8,
        l4: L4,
    },
}

/// An Ethernet frame by its parts.
#[derive(Debug, Drop)]
pub struct Packet {
    pub dst: Mac,
    pub src: Mac,
    pub tags: Tags,
    /// The first type behind the tags.
    pub eth_type: u16,
    pub upper: Upper,
    /// All bytes behind the EtherType that no part above holds, in order.
    pub rest: Bytes,
}

impl TryCopy for Packet {
    fn copy(&self, alloc: Global) -> Result<Packet, NoMemory> {
        let tags = self.tags.copy(alloc)?;
        let rest = self.rest.copy(alloc)?;
        Ok(Packet {
            dst: self.dst,
            src: self.src,
            tags,
            eth_type: self.eth_type,
            upper: self.upper,
            rest,
        })
    }
}

/// A packet that leaves by a port: a switch's port, or the controller.
#[derive(Debug, Drop)]
pub struct Sent {
    pub port: u32,
    pub packet: Packet,
}

/// Packets that leave, in order. What goes back to where it came from has that port's number.
pub type Sents = Items<Sent>;

impl TryCopy for Sent {
    fn copy(&self, alloc: Global) -> Result<Sent, NoMemory> {
        Ok(Sent {
            port: self.port,
            packet: self.packet.copy(alloc)?,
        })
    }
}

/// What became of a packet under a list of actions.
#[derive(Debug, Drop)]
pub struct Acted {
    pub sents: Sents,
    /// The packet that is left; `None` where an action ended it.
    pub left: Option<Packet>,
}
