//! The EtherTypes that are known here: what a frame carries, or that a tag stands there.

/// IPv4 (RFC 894).
pub const IPV4: u16 = 0x0800;

/// ARP (RFC 826).
pub const ARP: u16 = 0x0806;

/// IPv6 (RFC 2464, 3).
pub const IPV6: u16 = 0x86dd;

/// A VLAN tag (IEEE 802.1Q, 9.5).
pub const VLAN_TAG: u16 = 0x8100;

/// LLDP (IEEE 802.1AB, 7.3).
pub const LLDP: u16 = 0x88cc;

/// A provider's VLAN tag (IEEE 802.1Q, 9.5).
pub const SERVICE_TAG: u16 = 0x88a8;
