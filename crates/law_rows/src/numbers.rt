//! Numbers that are worked out by hand, against the definitions alone. The functions do nothing: their
//! contracts say which numbers there are.

ghost use Rattle.std.specs.Prelude.{◌≡◌, ◌+◌, ℕ, true, false, Some, None, [], ◌∷◌};
ghost use Rattle.net_base.specs.declared.field.FieldId.TheVariants.{InPort, EthDst, EthSrc, EthType, VlanVid, VlanPcp, IpProto, Ipv4Src, Ipv4Dst, TcpSrc, TcpDst, UdpSrc, UdpDst, Icmpv4Type, Icmpv4Code, ArpOp, ArpSpa, ArpTpa, Ipv6Src, Ipv6Dst, Icmpv6Type, Icmpv6Code, Ipv6NdTarget};
ghost use Rattle.net_base.specs.declared.field.Prerequisite.TheVariants.{Tagged, Exactly, Either};
ghost use Rattle.net_base.specs.Field.{exact};
ghost use Rattle.net_base.specs.WellFormed.{has_prerequisite};
ghost use Rattle.of_match.specs.declared.packet.L4.TheVariants as l4;
ghost use Rattle.of_match.specs.declared.packet.Tag.{Tag};
ghost use Rattle.of_match.specs.Hit.{value_of, vid_value};
ghost use Rattle.plan_base.specs.Fields.{vid_field, untagged};
ghost use Rattle.law_rows.specs.Numbers.{HasNumber, Asks, ipv4, ipv6, arp};

/// Each field has the number that the standard gives it, and as many bytes (OpenFlow 1.3, 7.2.3.7,
/// `oxm_ofb_match_fields` and table 12).
pub fn fields_have_the_numbers_of_the_standard()
    ensures port { HasNumber InPort 0 4 }
    ensures ethernet { HasNumber EthDst 3 6 × HasNumber EthSrc 4 6 × HasNumber EthType 5 2 }
    ensures vlan { HasNumber VlanVid 6 2 × HasNumber VlanPcp 7 1 }
    ensures ipv4 { HasNumber IpProto 10 1 × HasNumber Ipv4Src 11 4 × HasNumber Ipv4Dst 12 4 }
    ensures tcp { HasNumber TcpSrc 13 2 × HasNumber TcpDst 14 2 }
    ensures udp { HasNumber UdpSrc 15 2 × HasNumber UdpDst 16 2 }
    ensures icmp { HasNumber Icmpv4Type 19 1 × HasNumber Icmpv4Code 20 1 }
    ensures arp { HasNumber ArpOp 21 2 × HasNumber ArpSpa 22 4 × HasNumber ArpTpa 23 4 }
    ensures ipv6 { HasNumber Ipv6Src 26 16 × HasNumber Ipv6Dst 27 16 × HasNumber Ipv6NdTarget 31 16 }
    ensures icmpv6 { HasNumber Icmpv6Type 29 1 × HasNumber Icmpv6Code 30 1 }
{}

/// A value of each field has as many bits as the standard says, a mask may leave some out where it says so, and the
/// match has what the field asks for (OpenFlow 1.3, 7.2.3.6 and 7.2.3.7, table 12).
pub fn fields_ask_for_what_the_standard_says()
    ensures port { Asks InPort 32 false [] }
    ensures ethernet { Asks EthDst 48 true [] × Asks EthSrc 48 true [] × Asks EthType 16 false [] }
    ensures vlan { Asks VlanVid 13 true [] × Asks VlanPcp 3 false (Tagged ∷ []) }
    ensures ipv4 { Asks IpProto 8 false (Either EthType 0x0800 0x86dd ∷ [])
        × Asks Ipv4Src 32 true (Exactly EthType 0x0800 ∷ []) × Asks Ipv4Dst 32 true (Exactly EthType 0x0800 ∷ []) }
    ensures tcp { Asks TcpSrc 16 false (Exactly IpProto 6 ∷ []) × Asks TcpDst 16 false (Exactly IpProto 6 ∷ []) }
    ensures udp { Asks UdpSrc 16 false (Exactly IpProto 17 ∷ []) × Asks UdpDst 16 false (Exactly IpProto 17 ∷ []) }
    ensures icmp { Asks Icmpv4Type 8 false (Exactly EthType 0x0800 ∷ Exactly IpProto 1 ∷ []) × Asks Icmpv4Code 8 false (Exactly EthType 0x0800 ∷ Exactly IpProto 1 ∷ []) }
    ensures arp { Asks ArpOp 16 false (Exactly EthType 0x0806 ∷ [])
        × Asks ArpSpa 32 true (Exactly EthType 0x0806 ∷ []) × Asks ArpTpa 32 true (Exactly EthType 0x0806 ∷ []) }
    ensures ipv6 { Asks Ipv6Src 128 true (Exactly EthType 0x86dd ∷ []) × Asks Ipv6Dst 128 true (Exactly EthType 0x86dd ∷ [])
        × Asks Ipv6NdTarget 128 false (Exactly EthType 0x86dd ∷ Exactly IpProto 58 ∷ Either Icmpv6Type 135 136 ∷ []) }
    ensures icmpv6 { Asks Icmpv6Type 8 false (Exactly EthType 0x86dd ∷ Exactly IpProto 58 ∷ []) × Asks Icmpv6Code 8 false (Exactly EthType 0x86dd ∷ Exactly IpProto 58 ∷ []) }
{}

/// A match has what a field asks for where it has each field that is named with just the value, or one of the two, no
/// bit masked out, and, for a VLAN's priority, an identifier that isn't 0.
pub fn what_is_asked_for_is_there_or_not()
    ensures there { has_prerequisite TcpSrc (exact IpProto 6 ∷ []) ≡ true }
    ensures other { has_prerequisite TcpSrc (exact IpProto 17 ∷ exact EthType 0x0800 ∷ []) ≡ false }
    ensures masked { has_prerequisite Ipv4Src (record { id = EthType; value = 0x0800; mask = 0xff00 } ∷ []) ≡ false }
    ensures tagged { has_prerequisite VlanPcp (record { id = VlanVid; value = 0x1000; mask = 0x1000 } ∷ []) ≡ true }
    ensures no_tag { has_prerequisite VlanPcp (exact VlanVid 0 ∷ []) ≡ false }
    ensures nothing { has_prerequisite EthType [] ≡ true }
    ensures either { has_prerequisite IpProto (exact EthType 0x86dd ∷ []) ≡ true }
    ensures both { has_prerequisite Icmpv6Type (exact EthType 0x86dd ∷ exact IpProto 58 ∷ []) ≡ true }
    ensures one_lacks { has_prerequisite Icmpv6Type (exact EthType 0x0800 ∷ exact IpProto 58 ∷ []) ≡ false }
    ensures solicits { has_prerequisite Ipv6NdTarget (exact EthType 0x86dd ∷ exact IpProto 58 ∷ exact Icmpv6Type 135 ∷ []) ≡ true }
    ensures pings { has_prerequisite Ipv6NdTarget (exact EthType 0x86dd ∷ exact IpProto 58 ∷ exact Icmpv6Type 128 ∷ []) ≡ false }
{}

/// What a packet has of each field: by port 7, from 02:00:00:00:00:01 to 02:00:00:00:00:02, with
/// priority 5 in VLAN 100, from 10.0.0.1 to 10.0.0.2, or from fd00::1 to fd00::2 (OpenFlow 1.3,
/// 7.2.3.7, table 12).
pub fn fields_of_packets()
    ensures port { value_of InPort 7 arp ≡ Some 7 }
    ensures destination { value_of EthDst 7 arp ≡ Some 0x020000000002 }
    ensures source { value_of EthSrc 7 arp ≡ Some 0x020000000001 }
    ensures eth_type { value_of EthType 7 arp ≡ Some 0x0806 }
    ensures vlan { value_of VlanVid 7 arp ≡ Some 0x1064 }
    ensures priority { value_of VlanPcp 7 arp ≡ Some 5 }
    ensures operation { value_of ArpOp 7 arp ≡ Some 2 }
    ensures sender { value_of ArpSpa 7 arp ≡ Some 0x0a000001 }
    ensures target { value_of ArpTpa 7 arp ≡ Some 0x0a000002 }
    ensures protocol { value_of IpProto 7 (ipv4 6 (l4.Tcp 80 81)) ≡ Some 6 }
    ensures ipv4_source { value_of Ipv4Src 7 (ipv4 6 (l4.Tcp 80 81)) ≡ Some 0x0a000001 }
    ensures ipv4_destination { value_of Ipv4Dst 7 (ipv4 6 (l4.Tcp 80 81)) ≡ Some 0x0a000002 }
    ensures tcp { (value_of TcpSrc 7 (ipv4 6 (l4.Tcp 80 81)) ≡ Some 80) × (value_of TcpDst 7 (ipv4 6 (l4.Tcp 80 81)) ≡ Some 81) }
    ensures udp { (value_of UdpSrc 7 (ipv4 17 (l4.Udp 53 54)) ≡ Some 53) × (value_of UdpDst 7 (ipv4 17 (l4.Udp 53 54)) ≡ Some 54) }
    ensures icmp { (value_of Icmpv4Type 7 (ipv4 1 (l4.Icmp 8 0)) ≡ Some 8) × (value_of Icmpv4Code 7 (ipv4 1 (l4.Icmp 8 0)) ≡ Some 0) }
    ensures ipv6 { (value_of Ipv6Src 7 (ipv6 6 (l4.Tcp 80 81)) ≡ Some 0xfd000000000000000000000000000001) × (value_of Ipv6Dst 7 (ipv6 6 (l4.Tcp 80 81)) ≡ Some 0xfd000000000000000000000000000002) }
    ensures ipv6_ports { (value_of IpProto 7 (ipv6 6 (l4.Tcp 80 81)) ≡ Some 6) × (value_of TcpDst 7 (ipv6 6 (l4.Tcp 80 81)) ≡ Some 81) }
    ensures icmpv6 { (value_of Icmpv6Type 7 (ipv6 58 (l4.Icmp6 128 0 None)) ≡ Some 128) × (value_of Icmpv6Code 7 (ipv6 58 (l4.Icmp6 128 0 None)) ≡ Some 0) }
    ensures neighbour { value_of Ipv6NdTarget 7 (ipv6 58 (l4.Icmp6 135 0 (Some (record { 0 = 0xfd0000000000000000000000000000fe })))) ≡ Some 0xfd0000000000000000000000000000fe }
    ensures no_target { value_of Ipv6NdTarget 7 (ipv6 58 (l4.Icmp6 128 0 None)) ≡ None }
    ensures not_ipv4 { (value_of Ipv4Dst 7 (ipv6 6 (l4.Tcp 80 81)) ≡ None) × (value_of Icmpv4Type 7 (ipv6 58 (l4.Icmp6 128 0 None)) ≡ None) }
    ensures no_ports { (value_of TcpSrc 7 (ipv4 17 (l4.Udp 53 54)) ≡ None) × (value_of UdpSrc 7 (ipv4 6 (l4.Tcp 80 81)) ≡ None) }
{}

/// The bit 0x1000 says that a tag is there: a field asks for it with the VLAN's identifier, all 16 bits
/// counting, and one that asks for no tag asks for 0 (OpenFlow 1.3, 7.2.3.7, OFPVID_PRESENT and
/// OFPVID_NONE); so have packets.
pub fn the_tag_bit_is_that_of_the_standard()
    ensures tagged { (vid : ℕ) → vid_field vid ≡ record { id = VlanVid; value = 0x1000 + vid; mask = 0xffff } }
    ensures no_tag { untagged ≡ record { id = VlanVid; value = 0; mask = 0xffff } }
    ensures packet { (tag : Tag) → vid_value (tag ∷ []) ≡ 0x1000 + tag.vid }
    ensures packet_without { vid_value [] ≡ 0 }
{}
