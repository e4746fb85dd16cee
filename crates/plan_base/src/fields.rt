ghost use Rattle.std.specs.Prelude.{◌≡◌};
ghost use Rattle.net_base.specs.Field.{prefix_in};
ghost use Rattle.conf_types.specs.Families.{family_of, ip_value, address_of, len_of};
ghost use Rattle.plan_base.specs.Fields.{in_port, eth_dst, eth_src, group_dst, group_src, eth_type, vid_field, untagged, ip_proto, icmpv4_type, arp_tpa, icmpv6_type, nd_target, ip_dst};

use conf_types::Net;
use net_base::{Field, FieldId, GROUP_BIT, Ip4, Ip6, Mac, PortNo, Vid};

/// The port that a packet came in by.
pub fn in_port(port: PortNo) -> Field
    ensures { result ≡ in_port port }
{
    Field::exact(FieldId::InPort, u128::from(port.get()))
}

/// The destination's Ethernet address.
pub fn eth_dst(mac: Mac) -> Field
    ensures { result ≡ eth_dst mac }
{
    Field::exact(FieldId::EthDst, mac.value())
}

/// The source's Ethernet address.
pub fn eth_src(mac: Mac) -> Field
    ensures { result ≡ eth_src mac }
{
    Field::exact(FieldId::EthSrc, mac.value())
}

/// Any group address as the destination: the group bit alone counts (IEEE 802, 8.2.2).
pub fn group_dst() -> Field
    ensures { result ≡ group_dst }
{
    Field::bits(FieldId::EthDst, GROUP_BIT)
}

/// Any group address as the source: the group bit alone counts (IEEE 802, 8.2.2).
pub fn group_src() -> Field
    ensures { result ≡ group_src }
{
    Field::bits(FieldId::EthSrc, GROUP_BIT)
}

/// The EtherType behind all tags.
pub fn eth_type(number: u16) -> Field
    ensures { result ≡ eth_type number }
{
    Field::exact(FieldId::EthType, u128::from(number))
}

/// An outermost tag of this VLAN; the bit 0x1000 says that a tag is there (OpenFlow 1.3, 7.2.3.7).
pub fn vid_field(vid: Vid) -> Field
    ensures { result ≡ vid_field vid }
{
    Field::exact(FieldId::VlanVid, 0x1000 + u128::from(vid.get()))
}

/// No tag at all.
pub fn untagged() -> Field
    ensures { result ≡ untagged }
{
    Field::exact(FieldId::VlanVid, 0)
}

/// The protocol above IP. It asks for the EtherType of IPv4 or IPv6 before it.
pub fn ip_proto(number: u8) -> Field
    ensures { result ≡ ip_proto number }
{
    Field::exact(FieldId::IpProto, u128::from(number))
}

/// The type of an ICMP message. It asks for protocol 1 before it.
pub fn icmpv4_type(number: u8) -> Field
    ensures { result ≡ icmpv4_type number }
{
    Field::exact(FieldId::Icmpv4Type, u128::from(number))
}

/// The target's protocol address in ARP. It asks for the EtherType of ARP before it.
pub fn arp_tpa(ip: Ip4) -> Field
    ensures { result ≡ arp_tpa ip.0 }
{
    Field::exact(FieldId::ArpTpa, u128::from(ip.0))
}

/// The type of an ICMPv6 message. It asks for protocol 58 of IPv6 before it.
pub fn icmpv6_type(number: u8) -> Field
    ensures { result ≡ icmpv6_type number }
{
    Field::exact(FieldId::Icmpv6Type, u128::from(number))
}

/// The target of a message of neighbour discovery. It asks for ICMPv6's type 135 or 136 before it.
pub fn nd_target(ip: Ip6) -> Field
    ensures { result ≡ nd_target ip.0 }
{
    Field::exact(FieldId::Ipv6NdTarget, ip.0)
}

fn prefix_of(net: &Net) -> Field
    ensures { result ≡ prefix_in (family_of (address_of net.now)).width (family_of (address_of net.now)).destination (ip_value (address_of net.now)) (len_of net.now) }
{
    match net {
        Net::V4(net) => Field::prefix(FieldId::Ipv4Dst, *net),
        Net::V6(net) => Field::prefix6(FieldId::Ipv6Dst, *net),
    }
}

/// The destination's IP address in a network of its family: `None` where the prefix has no bits, so
/// that every address is of the network. It asks for the family's EtherType before it.
pub fn ip_dst(net: &Net) -> Option<Field>
    ensures { result ≡ ip_dst (family_of (address_of net.now)) (ip_value (address_of net.now)) (len_of net.now) }
{
    if net.len() == 0 {
        None
    } else {
        Some(prefix_of(net))
    }
}
