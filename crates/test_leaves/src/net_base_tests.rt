//! The calls of net_base.

use net_base::{
    Bytes, Field, FieldId, Ip4, Ip6, Mac, Net4, Net6, NoMemory, Text, TryCopy, has_prerequisite,
    is_well_formed,
};
use std::alloc::Global;
use std::test::Fail;

/// What a text is read as.
enum Form {
    Ethernet,
    Address,
    Network,
    Address6,
    Network6,
}

/// What is printed for what the text spells, or `none`.
fn again(alloc: Global, form: &Form, text: &str) -> Result<Text, NoMemory> {
    let mut out = Text::new(alloc);
    match form {
        Form::Ethernet => match Mac::parse(text) {
            Some(mac) => mac.print(&mut out)?,
            None => out.append("none")?,
        },
        Form::Address => match Ip4::parse(text) {
            Some(ip) => ip.print(&mut out)?,
            None => out.append("none")?,
        },
        Form::Network => match Net4::parse(text) {
            Some(net) => net.print(&mut out)?,
            None => out.append("none")?,
        },
        Form::Address6 => match Ip6::parse(text) {
            Some(ip) => ip.print(&mut out)?,
            None => out.append("none")?,
        },
        Form::Network6 => match Net6::parse(text) {
            Some(net) => net.print(&mut out)?,
            None => out.append("none")?,
        },
    }
    Ok(out)
}

const TEXTS: [(Form, &str, &str); 25] = [
    (Form::Ethernet, "0e:00:00:00:00:01", "0e:00:00:00:00:01"),
    (Form::Ethernet, "0E:Aa:bB:9f:00:FF", "0e:aa:bb:9f:00:ff"),
    (Form::Ethernet, "0e:00:00:00:00", "none"),
    (Form::Ethernet, "0e:00:00:00:00:01:02", "none"),
    (Form::Ethernet, "e:00:00:00:00:01", "none"),
    (Form::Ethernet, "0e-00-00-00-00-01", "none"),
    (Form::Ethernet, "0g:00:00:00:00:01", "none"),
    (Form::Address, "0.0.0.0", "0.0.0.0"),
    (Form::Address, "255.255.255.255", "255.255.255.255"),
    (Form::Address, "10.0.100.254", "10.0.100.254"),
    (Form::Address, "10.0.100", "none"),
    (Form::Address, "10.0.100.254.1", "none"),
    (Form::Address, "10.0.100.256", "none"),
    (Form::Address, "10.00.100.1", "none"),
    (Form::Address, "10.010.100.1", "none"),
    (Form::Address, "10..100.1", "none"),
    (Form::Address, " 10.0.100.1", "none"),
    (Form::Network, "10.0.100.254/24", "10.0.100.254/24"),
    (Form::Network, "0.0.0.0/0", "0.0.0.0/0"),
    (Form::Network, "10.0.0.1/32", "10.0.0.1/32"),
    (Form::Network, "10.0.0.1/33", "none"),
    (Form::Network, "10.0.0.1/032", "none"),
    (Form::Network, "10.0.0.1/", "none"),
    (Form::Network, "10.0.0.1", "none"),
    (Form::Network, "10.0.0/24", "none"),
];

// RFC 4291, 2.2, and RFC 5952, 4 and 5.
const TEXTS_6: [(Form, &str, &str); 53] = [
    (
        Form::Address6,
        "2001:DB8:0:0:8:800:200C:417A",
        "2001:db8::8:800:200c:417a",
    ),
    (Form::Address6, "FF01:0:0:0:0:0:0:101", "ff01::101"),
    (Form::Address6, "0:0:0:0:0:0:0:1", "::1"),
    (Form::Address6, "0:0:0:0:0:0:0:0", "::"),
    (Form::Address6, "::", "::"),
    (Form::Address6, "::1", "::1"),
    (Form::Address6, "1::", "1::"),
    (Form::Address6, "2001:0db8::0001", "2001:db8::1"),
    (Form::Address6, "2001:db8:0:0:0:0:2:1", "2001:db8::2:1"),
    (
        Form::Address6,
        "2001:db8::1:1:1:1:1",
        "2001:db8:0:1:1:1:1:1",
    ),
    (
        Form::Address6,
        "2001:db8:0:1:1:1:1:1",
        "2001:db8:0:1:1:1:1:1",
    ),
    (Form::Address6, "2001:0:0:1:0:0:0:1", "2001:0:0:1::1"),
    (Form::Address6, "2001:db8:0:0:1:0:0:1", "2001:db8::1:0:0:1"),
    (Form::Address6, "0:0:1:0:0:1:0:0", "::1:0:0:1:0:0"),
    (Form::Address6, "1:0:0:0:1:0:0:0", "1::1:0:0:0"),
    (Form::Address6, "0:1:0:1:0:1:0:1", "0:1:0:1:0:1:0:1"),
    (Form::Address6, "1:2:3:4:5:6:0:0", "1:2:3:4:5:6::"),
    (Form::Address6, "1:2:3:4:5:6:7::", "1:2:3:4:5:6:7:0"),
    (Form::Address6, "::2:3:4:5:6:7:8", "0:2:3:4:5:6:7:8"),
    (Form::Address6, "1:2:3::5:6:7:8", "1:2:3:0:5:6:7:8"),
    (Form::Address6, "1:2:3:4:5:6:7:8", "1:2:3:4:5:6:7:8"),
    (
        Form::Address6,
        "ffff:ffff:ffff:ffff:ffff:ffff:ffff:ffff",
        "ffff:ffff:ffff:ffff:ffff:ffff:ffff:ffff",
    ),
    (
        Form::Address6,
        "FFFF:eEeE:0000:0010:0a00:b000:00C0:000d",
        "ffff:eeee:0:10:a00:b000:c0:d",
    ),
    (Form::Address6, "", "none"),
    (Form::Address6, ":", "none"),
    (Form::Address6, ":::", "none"),
    (Form::Address6, "1:::2", "none"),
    (Form::Address6, "1::2::3", "none"),
    (Form::Address6, "1:2:3:4:5:6:7", "none"),
    (Form::Address6, "1:2:3:4:5:6:7:8:9", "none"),
    (Form::Address6, "1:2:3:4:5:6:7:8::", "none"),
    (Form::Address6, "::1:2:3:4:5:6:7:8", "none"),
    (Form::Address6, "1:2:3:4::5:6:7:8", "none"),
    (Form::Address6, ":1:2:3:4:5:6:7", "none"),
    (Form::Address6, "1:2:3:4:5:6:7:", "none"),
    (Form::Address6, "::1:", "none"),
    (Form::Address6, ":1::", "none"),
    (Form::Address6, "00001::", "none"),
    (Form::Address6, "g::", "none"),
    (Form::Address6, "1::-1", "none"),
    (Form::Address6, "::ffff:10.0.0.1", "none"),
    (Form::Address6, "fe80::1%eth0", "none"),
    (Form::Address6, "[::1]", "none"),
    (Form::Address6, " ::1", "none"),
    (Form::Network6, "2001:DB8::1/64", "2001:db8::1/64"),
    (Form::Network6, "::/0", "::/0"),
    (Form::Network6, "fd00::fe/128", "fd00::fe/128"),
    (Form::Network6, "fd00::fe/129", "none"),
    (Form::Network6, "fd00::fe/064", "none"),
    (Form::Network6, "fd00::fe/", "none"),
    (Form::Network6, "fd00::fe", "none"),
    (Form::Network6, "fd00:/64", "none"),
    (Form::Network6, "fd00::fe/64/64", "none"),
];

#[test]
fn texts_of_addresses(rt: HostRuntime) -> Result<(), Fail> {
    for (form, text, printed) in &TEXTS {
        let found = again(rt.alloc(), form, text)?;
        assert!(rt; found.as_str() == *printed, "{text}");
    }
    Ok(())
}

#[test]
fn texts_of_ipv6(rt: HostRuntime) -> Result<(), Fail> {
    for (form, text, printed) in &TEXTS_6 {
        let found = again(rt.alloc(), form, text)?;
        assert!(rt; found.as_str() == *printed, "{text}");
    }
    Ok(())
}

// A network, the field of its prefix, an address that it holds, one that it holds only where it
// holds all, and whether it is the network's own address.
const NETWORKS: [(&str, u128, u128, u32, u32, bool); 4] = [
    (
        "10.0.100.254/24",
        0x0a00_6400,
        0xffff_ff00,
        0x0a00_6401,
        0x0a00_6501,
        false,
    ),
    (
        "10.0.100.254/32",
        0x0a00_64fe,
        0xffff_ffff,
        0x0a00_64fe,
        0x0a00_64ff,
        true,
    ),
    ("0.0.0.0/0", 0, 0, 0xffff_ffff, 0x0a00_6401, true),
    (
        "128.0.0.0/1",
        0x8000_0000,
        0x8000_0000,
        0xffff_ffff,
        0x7fff_ffff,
        true,
    ),
];

#[test]
fn networks_and_their_prefixes(rt: HostRuntime) -> Result<(), Fail> {
    for (text, value, mask, inside, outside, is_network) in NETWORKS {
        let id = FieldId::Ipv4Dst;
        let net = Net4::parse(text).ok_or("a network")?;
        assert!(rt;
            Field::prefix(id, net) == Field { id, value, mask },
            "{text}"
        );
        let found = (
            net.holds(Ip4(inside)),
            net.holds(Ip4(outside)),
            net.is_network(),
        );
        assert!(rt; found == (true, mask == 0, is_network), "{text}");
    }
    Ok(())
}

// The same of IPv6.
const NETWORKS_6: [(&str, u128, u128, &str, &str, bool); 4] = [
    (
        "2001:db8::fe/64",
        0x2001_0db8 << 96,
        0xffff_ffff_ffff_ffff << 64,
        "2001:db8::1:2:3:4",
        "2001:db8:0:1::fe",
        false,
    ),
    (
        "fd00::fe/128",
        0xfd << 120 | 0xfe,
        u128::MAX,
        "fd00::fe",
        "fd00::ff",
        true,
    ),
    ("::/0", 0, 0, "ffff::", "::1", true),
    ("8000::/1", 1 << 127, 1 << 127, "ffff::1", "7fff::1", true),
];

#[test]
fn networks_of_ipv6_and_their_prefixes(rt: HostRuntime) -> Result<(), Fail> {
    for (text, value, mask, inside, outside, is_network) in NETWORKS_6 {
        let id = FieldId::Ipv6Dst;
        let net = Net6::parse(text).ok_or("a network")?;
        assert!(rt;
            Field::prefix6(id, net) == Field { id, value, mask },
            "{text}"
        );
        let found = (
            net.holds(Ip6::parse(inside).ok_or("an address")?),
            net.holds(Ip6::parse(outside).ok_or("an address")?),
            net.is_network(),
        );
        assert!(rt; found == (true, mask == 0, is_network), "{text}");
    }
    Ok(())
}

#[test]
fn addresses_as_numbers(rt: HostRuntime) {
    let mac = Mac([0x0e, 0, 0x12, 0x34, 0x56, 0x78]);
    assert!(rt; (mac.value(), Mac::of_value(0xff_0e00_1234_5678)) == (0x0e00_1234_5678, mac));
    for (first, group) in [(0x01, true), (0xff, true), (0x0e, false), (0, false)] {
        assert!(rt; Mac([first, 0, 0x5e, 0, 0, 1]).is_group() == group);
    }
}

#[test]
fn lists_are_changed_in_place(rt: HostRuntime) -> Result<(), Fail> {
    let mut list = Bytes::from_slice(rt.alloc(), &[1, 2, 3, 4])?;
    let whole = list.copy(rt.alloc())?;
    assert!(rt; list == whole);
    let second = list.remove(1);
    list.set(0, 9);
    list.insert(3, 5)?;
    list.truncate(7);
    assert!(rt; (second, list.as_slice()) == (2, [9, 3, 4, 5].as_slice()));
    list.truncate(1);
    assert!(rt; list.as_slice() == [9].as_slice());
    Ok(())
}

// A field of a match, by its name, its value and its mask.
macro_rules! field {
    ($id:ident, $value:expr, $mask:expr) => {
        Field {
            id: FieldId::$id,
            value: $value,
            mask: $mask,
        }
    };
}

#[test]
fn a_match_has_what_its_fields_ask_for(rt: HostRuntime) {
    let ip = field!(EthType, 0x0800, 0xffff);
    let arp = field!(EthType, 0x0806, 0xffff);
    let some_ip = field!(EthType, 0x0800, 0xff00);
    let tcp = field!(IpProto, 6, 0xff);
    let udp = field!(IpProto, 17, 0xff);
    let to_80 = field!(TcpDst, 80, 0xffff);
    let to_host = field!(Ipv4Dst, 1, 0xffff_ffff);
    let about_host = field!(ArpTpa, 1, 0xffff_ffff);
    let pcp = field!(VlanPcp, 3, 0xff);
    let untagged = field!(VlanVid, 0, 0xffff);
    for (fields, well_formed) in [
        (&[][..], true),
        (&[ip, tcp, to_80][..], true),
        (&[ip, udp, to_80][..], false),
        (&[tcp, to_80][..], false),
        (&[ip, udp, field!(UdpDst, 80, 0xffff)][..], true),
        (
            &[ip, field!(IpProto, 1, 0xff), field!(Icmpv4Type, 8, 0xff)][..],
            true,
        ),
        (&[to_host][..], false),
        (&[arp, to_host][..], false),
        (&[some_ip, to_host][..], false),
        (&[arp, about_host][..], true),
        (&[ip, about_host][..], false),
        (&[field!(VlanVid, 0x1000, 0x1000), pcp][..], true),
        (&[untagged, pcp][..], false),
        (&[pcp][..], false),
        (&[arp, ip][..], false),
        (&[untagged, ip][..], false),
        (&[field!(EthType, 0x1_0000, 0xffff)][..], false),
    ] {
        assert!(rt; is_well_formed(fields) == well_formed, "{fields:?}");
    }
    assert!(rt; has_prerequisite(FieldId::IpProto, &[ip]));
    assert!(rt; !has_prerequisite(FieldId::IpProto, &[arp]));
}

#[test]
fn a_match_has_what_its_fields_of_ipv6_ask_for(rt: HostRuntime) {
    let ip4 = field!(EthType, 0x0800, 0xffff);
    let ip6 = field!(EthType, 0x86dd, 0xffff);
    let icmp = field!(IpProto, 1, 0xff);
    let icmp6 = field!(IpProto, 58, 0xff);
    let solicits = field!(Icmpv6Type, 135, 0xff);
    let advertises = field!(Icmpv6Type, 136, 0xff);
    let asks = field!(Icmpv6Type, 128, 0xff);
    let about = field!(Ipv6NdTarget, 1, u128::MAX);
    let to_host = field!(Ipv6Dst, 1, u128::MAX);
    for (fields, well_formed) in [
        (&[ip6, to_host][..], true),
        (&[ip6, field!(Ipv6Src, 0, 1 << 127)][..], true),
        (&[ip4, to_host][..], false),
        (&[to_host][..], false),
        (&[ip6, field!(Ipv4Dst, 1, 0xffff_ffff)][..], false),
        (
            &[ip6, field!(IpProto, 6, 0xff), field!(TcpDst, 80, 0xffff)][..],
            true,
        ),
        (&[ip6, icmp6, asks][..], true),
        (&[ip6, icmp6, field!(Icmpv6Code, 0, 0xff)][..], true),
        (&[ip4, icmp6, asks][..], false),
        (&[ip6, icmp, asks][..], false),
        (&[ip6, icmp, field!(Icmpv4Type, 8, 0xff)][..], false),
        (&[ip6, icmp6, solicits, about][..], true),
        (&[ip6, icmp6, advertises, about][..], true),
        (&[ip6, icmp6, asks, about][..], false),
        (&[ip6, icmp6, about][..], false),
        (
            &[ip6, icmp6, field!(Icmpv6Type, 134, 0xfe), about][..],
            false,
        ),
    ] {
        assert!(rt; is_well_formed(fields) == well_formed, "{fields:?}");
    }
    assert!(rt; has_prerequisite(FieldId::IpProto, &[ip6]));
}
