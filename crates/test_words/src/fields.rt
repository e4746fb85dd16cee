//! A field of a match: its name, its value, and its mask where it has one.

use net_base::{Field, FieldId, Ip4, Ip6, Mac, NoMemory, Text};
use std::alloc::Global;
use std::fmt::Write;

/// The name in the standard (OpenFlow 1.3, 7.2.3.7).
fn name_of(id: FieldId) -> &'static str {
    match id {
        FieldId::InPort => "in_port",
        FieldId::EthDst => "eth_dst",
        FieldId::EthSrc => "eth_src",
        FieldId::EthType => "eth_type",
        FieldId::VlanVid => "vlan_vid",
        FieldId::VlanPcp => "vlan_pcp",
        FieldId::IpProto => "ip_proto",
        FieldId::Ipv4Src => "ipv4_src",
        FieldId::Ipv4Dst => "ipv4_dst",
        FieldId::TcpSrc => "tcp_src",
        FieldId::TcpDst => "tcp_dst",
        FieldId::UdpSrc => "udp_src",
        FieldId::UdpDst => "udp_dst",
        FieldId::Icmpv4Type => "icmpv4_type",
        FieldId::Icmpv4Code => "icmpv4_code",
        FieldId::ArpOp => "arp_op",
        FieldId::ArpSpa => "arp_spa",
        FieldId::ArpTpa => "arp_tpa",
        FieldId::Ipv6Src => "ipv6_src",
        FieldId::Ipv6Dst => "ipv6_dst",
        FieldId::Icmpv6Type => "icmpv6_type",
        FieldId::Icmpv6Code => "icmpv6_code",
        FieldId::Ipv6NdTarget => "ipv6_nd_target",
    }
}

/// An Ethernet address, as it is written.
pub fn put_mac(alloc: Global, out: &mut String, mac: Mac) -> Result<(), NoMemory> {
    let mut text = Text::new(alloc);
    mac.print(&mut text)?;
    out.push_str(text.as_str())
}

/// An IPv4 address, as it is written.
pub fn put_ip4(alloc: Global, out: &mut String, ip: Ip4) -> Result<(), NoMemory> {
    let mut text = Text::new(alloc);
    ip.print(&mut text)?;
    out.push_str(text.as_str())
}

/// An IPv6 address, as it is written.
pub fn put_ip6(alloc: Global, out: &mut String, ip: Ip6) -> Result<(), NoMemory> {
    let mut text = Text::new(alloc);
    ip.print(&mut text)?;
    out.push_str(text.as_str())
}

/// A value as an IPv4 address, or in hexadecimal digits where it is past 32 bits.
fn put_address(alloc: Global, out: &mut String, value: u128) -> Result<(), NoMemory> {
    match u32::try_from(value) {
        Ok(ip) => put_ip4(alloc, out, Ip4(ip)),
        Err(_) => write!(out, "{value:#x}"),
    }
}

/// A VLAN by its number, where the bit that says that a tag is there is set; no tag is 0x0.
fn put_vlan(out: &mut String, value: u128) -> Result<(), NoMemory> {
    match value.checked_sub(0x1000) {
        Some(vid) => write!(out, "{vid}"),
        None => write!(out, "{value:#x}"),
    }
}

fn put_value(alloc: Global, out: &mut String, id: FieldId, value: u128) -> Result<(), NoMemory> {
    match id {
        FieldId::EthDst | FieldId::EthSrc => put_mac(alloc, out, Mac::of_value(value)),
        FieldId::Ipv4Src | FieldId::Ipv4Dst | FieldId::ArpSpa | FieldId::ArpTpa => {
            put_address(alloc, out, value)
        }
        FieldId::Ipv6Src | FieldId::Ipv6Dst | FieldId::Ipv6NdTarget => {
            put_ip6(alloc, out, Ip6(value))
        }
        FieldId::VlanVid => put_vlan(out, value),
        FieldId::EthType => write!(out, "{value:#06x}"),
        _ => write!(out, "{value}"),
    }
}

pub(crate) fn put_field(alloc: Global, out: &mut String, field: &Field) -> Result<(), NoMemory> {
    write!(out, "{}=", name_of(field.id))?;
    put_value(alloc, out, field.id, field.value)?;
    if field.mask != field.id.all_ones() {
        out.push_str("/")?;
        put_value(alloc, out, field.id, field.mask)?;
    }
    Ok(())
}
