ghost use Rattle.std.specs.Prelude.{◌≡◌};
ghost use Rattle.of_match.specs.Hit.{vid_value, pcp_value, target_value, l4_value, upper_value, value_of, agrees, hits};

use crate::packet::{L4, Packet, Tag, Upper};
use net_base::{Field, FieldId, Ip6, PortNo};

// 0x1000 and the identifier of the outermost tag, or 0.
fn vid_value(tags: &[Tag]) -> u128
    ensures { result ≡ vid_value tags.now }
{
    match tags {
        [] => 0,
        [tag, ..] => 0x1000 + u128::from(tag.vid),
    }
}

// The priority of the outermost tag.
fn pcp_value(tags: &[Tag]) -> Option<u128>
    ensures { result ≡ pcp_value tags.now }
{
    match tags {
        [] => None,
        [tag, ..] => Some(u128::from(tag.pcp)),
    }
}

// The address of a target, where there is one.
fn target_value(target: Option<Ip6>) -> Option<u128>
    ensures { result ≡ target_value target }
{
    match target {
        Some(ip) => Some(ip.0),
        None => None,
    }
}

// What a transport header has of a field.
fn l4_value(id: FieldId, l4: L4) -> Option<u128>
    ensures { result ≡ l4_value id l4 }
{
    match (id, l4) {
        (FieldId::TcpSrc, L4::Tcp { src, .. }) => Some(u128::from(src)),
        (FieldId::TcpDst, L4::Tcp { dst, .. }) => Some(u128::from(dst)),
        (FieldId::UdpSrc, L4::Udp { src, .. }) => Some(u128::from(src)),
        (FieldId::UdpDst, L4::Udp { dst, .. }) => Some(u128::from(dst)),
        (FieldId::Icmpv4Type, L4::Icmp { kind, .. }) => Some(u128::from(kind)),
        (FieldId::Icmpv4Code, L4::Icmp { code, .. }) => Some(u128::from(code)),
        (FieldId::Icmpv6Type, L4::Icmp6 { kind, .. }) => Some(u128::from(kind)),
        (FieldId::Icmpv6Code, L4::Icmp6 { code, .. }) => Some(u128::from(code)),
        (FieldId::Ipv6NdTarget, L4::Icmp6 { target, .. }) => target_value(target),
        _ => None,
    }
}

// What the headers behind the EtherType have of a field.
fn upper_value(id: FieldId, upper: Upper) -> Option<u128>
    ensures { result ≡ upper_value id upper }
{
    match upper {
        Upper::None => None,
        Upper::Arp { op, spa, tpa } => match id {
            FieldId::ArpOp => Some(u128::from(op)),
            FieldId::ArpSpa => Some(u128::from(spa.0)),
            FieldId::ArpTpa => Some(u128::from(tpa.0)),
            _ => None,
        },
        Upper::V4 {
            src,
            dst,
            proto,
            l4,
            ..
        } => match id {
            FieldId::IpProto => Some(u128::from(proto)),
            FieldId::Ipv4Src => Some(u128::from(src.0)),
            FieldId::Ipv4Dst => Some(u128::from(dst.0)),
            _ => l4_value(id, l4),
        },
        Upper::V6 {
            src,
            dst,
            proto,
            l4,
            ..
        } => match id {
            FieldId::IpProto => Some(u128::from(proto)),
            FieldId::Ipv6Src => Some(src.0),
            FieldId::Ipv6Dst => Some(dst.0),
            _ => l4_value(id, l4),
        },
    }
}

/// What a packet that came in by a port has of a field; `None` exactly where it lacks the field.
pub fn value_of(id: FieldId, port: PortNo, packet: &Packet) -> Option<u128>
    ensures { result ≡ value_of id port packet.now }
{
    match id {
        FieldId::InPort => Some(u128::from(port.get())),
        FieldId::EthDst => Some(packet.dst.value()),
        FieldId::EthSrc => Some(packet.src.value()),
        FieldId::EthType => Some(u128::from(packet.eth_type)),
        FieldId::VlanVid => Some(vid_value(packet.tags.as_slice())),
        FieldId::VlanPcp => pcp_value(packet.tags.as_slice()),
        _ => upper_value(id, packet.upper),
    }
}

// Whether a packet's value agrees with the field in each bit of its mask.
fn agrees(field: &Field, value: Option<u128>) -> bool
    ensures { result ≡ agrees field.now value }
{
    match value {
        None => false,
        Some(value) => value & field.mask == field.value & field.mask,
    }
}

/// Whether a match takes a packet that came in by a port: each field agrees with it in all bits
/// of the mask, and a field that the packet lacks never does (OpenFlow 1.3, 5.3).
pub fn hits(fields: &[Field], port: PortNo, packet: &Packet) -> bool
    ensures { result ≡ hits fields.now port packet.now }
{
    fields
        .iter()
        .all(|field| agrees(field, value_of(field.id, port, packet)))
}
