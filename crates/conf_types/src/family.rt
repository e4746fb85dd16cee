use net_base::FieldId;

/// A family of IP addresses: what is said of addresses and networks is said of its row.
#[derive(Clone, Copy, Debug, PartialEq, Eq)]
pub struct Family {
    /// How many bits an address has, which tells the families apart.
    pub width: u8,
    /// The greatest length of a VIP's prefix: a longer one leaves no room for neighbours.
    pub most_vip_len: u8,
    /// The EtherType of packets.
    pub ether_type: u16,
    /// The field of a match for the address that a packet comes from.
    pub source: FieldId,
    /// The field of a match for the address that a packet goes to.
    pub destination: FieldId,
}

/// IPv4 (RFC 791).
pub const IPV4: Family = Family {
    width: 32,
    most_vip_len: 31,
    ether_type: 0x0800,
    source: FieldId::Ipv4Src,
    destination: FieldId::Ipv4Dst,
};

/// IPv6 (RFC 8200).
pub const IPV6: Family = Family {
    width: 128,
    most_vip_len: 127,
    ether_type: 0x86dd,
    source: FieldId::Ipv6Src,
    destination: FieldId::Ipv6Dst,
};
