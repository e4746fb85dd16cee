//! Fields that are worked out by hand, against the definitions alone. The functions do nothing: their
//! contracts say which fields there are.

ghost use Rattle.std.specs.Prelude.{codes, pos};
ghost use Rattle.yaml_tree.specs.declared.tree.Tree.TheOpen as tree;
ghost use Rattle.law_rules.specs.MatchKeys.{Gives, GivesNone};

/// Each match key gives the field that has its name in the standard, by its number, with the value that
/// is written and all bits of its bytes counting (OpenFlow 1.3, 7.2.3.7, `oxm_ofb_match_fields`): a VLAN's
/// with the bit 0x1000 (OFPVID_PRESENT).
pub fn match_keys_give_the_fields_of_the_standard()
    ensures eth_dst { Gives (codes "eth_dst") (tree.Text (codes "02:00:00:00:00:01")) 3 0x020000000001 0xffffffffffff }
    ensures eth_src { Gives (codes "eth_src") (tree.Text (codes "02:00:00:00:00:01")) 4 0x020000000001 0xffffffffffff }
    ensures eth_type { Gives (codes "eth_type") (tree.Int (pos 0x0800)) 5 0x0800 0xffff }
    ensures vlan_vid { Gives (codes "vlan_vid") (tree.Int (pos 100)) 6 0x1064 0xffff }
    ensures vlan_pcp { Gives (codes "vlan_pcp") (tree.Int (pos 5)) 7 5 0xff }
    ensures ip_proto { Gives (codes "ip_proto") (tree.Int (pos 6)) 10 6 0xff }
    ensures ipv4_src { Gives (codes "ipv4_src") (tree.Text (codes "10.0.0.1")) 11 0x0a000001 0xffffffff }
    ensures ipv4_dst { Gives (codes "ipv4_dst") (tree.Text (codes "10.0.0.1")) 12 0x0a000001 0xffffffff }
    ensures tcp_src { Gives (codes "tcp_src") (tree.Int (pos 80)) 13 80 0xffff }
    ensures tcp_dst { Gives (codes "tcp_dst") (tree.Int (pos 80)) 14 80 0xffff }
    ensures udp_src { Gives (codes "udp_src") (tree.Int (pos 53)) 15 53 0xffff }
    ensures udp_dst { Gives (codes "udp_dst") (tree.Int (pos 53)) 16 53 0xffff }
    ensures icmpv4_type { Gives (codes "icmpv4_type") (tree.Int (pos 8)) 19 8 0xff }
    ensures icmpv4_code { Gives (codes "icmpv4_code") (tree.Int (pos 1)) 20 1 0xff }
    ensures arp_op { Gives (codes "arp_op") (tree.Int (pos 2)) 21 2 0xffff }
    ensures arp_spa { Gives (codes "arp_spa") (tree.Text (codes "10.0.0.1")) 22 0x0a000001 0xffffffff }
    ensures arp_tpa { Gives (codes "arp_tpa") (tree.Text (codes "10.0.0.1")) 23 0x0a000001 0xffffffff }
{}

/// The older names give the same fields.
pub fn older_names_give_the_same_fields()
    ensures dl_dst { Gives (codes "dl_dst") (tree.Text (codes "02:00:00:00:00:01")) 3 0x020000000001 0xffffffffffff }
    ensures dl_src { Gives (codes "dl_src") (tree.Text (codes "02:00:00:00:00:01")) 4 0x020000000001 0xffffffffffff }
    ensures dl_type { Gives (codes "dl_type") (tree.Int (pos 0x0800)) 5 0x0800 0xffff }
    ensures dl_vlan { Gives (codes "dl_vlan") (tree.Int (pos 100)) 6 0x1064 0xffff }
    ensures dl_vlan_pcp { Gives (codes "dl_vlan_pcp") (tree.Int (pos 5)) 7 5 0xff }
    ensures nw_proto { Gives (codes "nw_proto") (tree.Int (pos 6)) 10 6 0xff }
    ensures nw_src { Gives (codes "nw_src") (tree.Text (codes "10.0.0.1")) 11 0x0a000001 0xffffffff }
    ensures nw_dst { Gives (codes "nw_dst") (tree.Text (codes "10.0.0.1")) 12 0x0a000001 0xffffffff }
{}

/// What is written behind a slash is the mask: the bits of an Ethernet address that count, or how many
/// bits of a network do (OpenFlow 1.3, 7.2.3.5; RFC 4632, 3.1). Where no bit counts there is no field.
pub fn masks_are_those_that_are_written()
    ensures ethernet { Gives (codes "eth_dst") (tree.Text (codes "01:00:00:00:00:00/01:00:00:00:00:00")) 3 0x010000000000 0x010000000000 }
    ensures network { Gives (codes "ipv4_dst") (tree.Text (codes "10.1.0.0/16")) 12 0x0a010000 0xffff0000 }
    ensures host { Gives (codes "ipv4_dst") (tree.Text (codes "10.1.0.7/32")) 12 0x0a010007 0xffffffff }
    ensures no_bit { GivesNone (codes "eth_dst") (tree.Text (codes "00:00:00:00:00:00/00:00:00:00:00:00")) }
    ensures no_length { GivesNone (codes "ipv4_dst") (tree.Text (codes "0.0.0.0/0")) }
{}
