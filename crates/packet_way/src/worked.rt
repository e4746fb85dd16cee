//! Packets of which the way is worked out by hand, against the description alone. The functions do
//! nothing: their contracts say what is sent.

ghost use Rattle.std.specs.Prelude.{◌≡◌, true, false, Some, None, [], ◌∷◌};
ghost use Rattle.of_match.specs.declared.packet.L4.TheVariants as l4;
ghost use Rattle.of_match.specs.declared.action.TheConstants.{CONTROLLER};
ghost use Rattle.conf_types.specs.Worked.{dp, station, gateway, edge, datapath, vlan};
ghost use Rattle.packet_way.specs.Description.{sends};
ghost use Rattle.packet_way.specs.Leaving.{sent};
ghost use Rattle.packet_way.specs.Worked.{lldp, LengthsFit, broadcast, bridges, cisco_bridges, tag, frame, plain, nothing_learned, mirrored, settled, two_ports, ip4, ip6, local, two_vlans, one_neighbour, v4, udp, ping, arp, udp6, icmp6, discovery, solicited, solicited_node, two_routes, two_gateways, ring, ring_with, all_up, link_down, host, learned, ruled};

/// Ports 1 and 2 are native in a VLAN and port 3 is tagged there, and nothing is learned: to a station
/// that isn't known a packet goes to all others and to the controller. A tag with identifier 0 is a
/// tag; the outermost of two tags counts, and a native port keeps the inner one.
pub fn members_of_one_vlan()
    ensures untagged { sends plain nothing_learned (dp 1) 1 (frame (station 9) (station 1) [])
        ≡ sent CONTROLLER (frame (station 9) (station 1) (tag 100 ∷ [])) ∷ sent 2 (frame (station 9) (station 1) [])
        ∷ sent 3 (frame (station 9) (station 1) (tag 100 ∷ [])) ∷ [] }
    ensures two_tags { sends plain nothing_learned (dp 1) 3 (frame (station 9) (station 1) (tag 100 ∷ tag 7 ∷ []))
        ≡ sent CONTROLLER (frame (station 9) (station 1) (tag 100 ∷ tag 7 ∷ [])) ∷ sent 1 (frame (station 9) (station 1) (tag 7 ∷ []))
        ∷ sent 2 (frame (station 9) (station 1) (tag 7 ∷ [])) ∷ [] }
    ensures identifier_0 { sends plain nothing_learned (dp 1) 3 (frame (station 9) (station 1) (tag 0 ∷ [])) ≡ [] }
    ensures other_vlan { sends plain nothing_learned (dp 1) 3 (frame (station 9) (station 1) (tag 101 ∷ [])) ≡ [] }
    ensures no_native { sends plain nothing_learned (dp 1) 3 (frame (station 9) (station 1) []) ≡ [] }
    ensures tag_of_the_native { sends plain nothing_learned (dp 1) 1 (frame (station 9) (station 1) (tag 100 ∷ [])) ≡ [] }
{}

/// Port 4 mirrors port 1: it gets what port 1 takes in as it came, and what port 1 sends as it leaves,
/// and no second copy in a flood.
pub fn a_mirrored_port()
    ensures takes_in { sends mirrored nothing_learned (dp 1) 1 (frame broadcast (station 1) [])
        ≡ sent 4 (frame broadcast (station 1) []) ∷ sent CONTROLLER (frame broadcast (station 1) (tag 100 ∷ []))
        ∷ sent 2 (frame broadcast (station 1) []) ∷ [] }
    ensures sends_out { sends mirrored nothing_learned (dp 1) 2 (frame broadcast (station 2) [])
        ≡ sent CONTROLLER (frame broadcast (station 2) (tag 100 ∷ [])) ∷ sent 1 (frame broadcast (station 2) [])
        ∷ sent 4 (frame broadcast (station 2) []) ∷ [] }
    ensures mirror { sends mirrored nothing_learned (dp 1) 4 (frame broadcast (station 3) []) ≡ [] }
{}

/// What is dropped, and what isn't flooded, by the settings of a datapath, a VLAN and a port.
pub fn drops_and_floods_by_settings()
    ensures gateway { sends plain nothing_learned (dp 1) 1 (frame (station 9) (gateway 1) []) ≡ [] }
    ensures broadcast { sends plain nothing_learned (dp 1) 1 (frame (station 9) broadcast []) ≡ [] }
    ensures bridges { sends plain nothing_learned (dp 1) 1 (frame bridges (station 1) []) ≡ [] }
    ensures cisco_bridges { sends plain nothing_learned (dp 1) 1 (frame cisco_bridges (station 1) []) ≡ [] }
    ensures lldp { sends plain nothing_learned (dp 1) 1 (record (frame (station 9) (station 1) []) { eth_type = 0x88cc }) ≡ [] }
    ensures no_drop { sends (settled (record (datapath 1 None (edge 1 (Some 100) [] ∷ edge 2 (Some 100) [] ∷ [])) { drop_bpdu = false; drop_lldp = false }) (vlan 100 [])) nothing_learned (dp 1) 1 (record (frame bridges (station 1) []) { eth_type = 0x88cc })
        ≡ sent CONTROLLER (record (frame bridges (station 1) (tag 100 ∷ [])) { eth_type = 0x88cc }) ∷ sent 2 (record (frame bridges (station 1) []) { eth_type = 0x88cc }) ∷ [] }
    ensures no_flood { sends (settled (datapath 1 None (edge 1 (Some 100) [] ∷ edge 2 (Some 100) [] ∷ [])) (record (vlan 100 []) { unicast_flood = false })) nothing_learned (dp 1) 1 (frame (station 9) (station 1) [])
        ≡ sent CONTROLLER (frame (station 9) (station 1) (tag 100 ∷ [])) ∷ [] }
    ensures no_flood_by_port { sends (two_ports (edge 1 (Some 100) []) (record (edge 2 (Some 100) []) { unicast_flood = false })) nothing_learned (dp 1) 1 (frame (station 9) (station 1) [])
        ≡ sent CONTROLLER (frame (station 9) (station 1) (tag 100 ∷ [])) ∷ [] }
    ensures group { sends (two_ports (edge 1 (Some 100) []) (record (edge 2 (Some 100) []) { unicast_flood = false })) nothing_learned (dp 1) 1 (frame broadcast (station 1) [])
        ≡ sent CONTROLLER (frame broadcast (station 1) (tag 100 ∷ [])) ∷ sent 2 (frame broadcast (station 1) []) ∷ [] }
    ensures hairpin { sends (two_ports (record (edge 1 (Some 100) []) { hairpin = true }) (edge 2 (Some 100) [])) nothing_learned (dp 1) 1 (frame broadcast (station 1) [])
        ≡ sent CONTROLLER (frame broadcast (station 1) (tag 100 ∷ [])) ∷ sent 1 (frame broadcast (station 1) []) ∷ sent 2 (frame broadcast (station 1) []) ∷ [] }
    ensures disabled { sends (two_ports (edge 1 (Some 100) []) (record (edge 2 (Some 100) []) { enabled = false })) nothing_learned (dp 1) 1 (frame broadcast (station 1) [])
        ≡ sent CONTROLLER (frame broadcast (station 1) (tag 100 ∷ [])) ∷ [] }
    ensures output_only { sends (two_ports (edge 1 (Some 100) []) (record (edge 2 (Some 100) []) { output_only = true })) nothing_learned (dp 1) 1 (frame broadcast (station 1) [])
        ≡ sent CONTROLLER (frame broadcast (station 1) (tag 100 ∷ [])) ∷ sent 2 (frame broadcast (station 1) []) ∷ [] }
{}

/// What becomes of a packet by its source. Its destination, station 2, is a host at port 2; the
/// timeout is 300 seconds.
pub fn sources_by_what_is_learned()
    ensures unknown { sends plain (learned 0 (host 1 2 100 2 0 ∷ [])) (dp 1) 1 (frame (station 2) (station 1) [])
        ≡ sent CONTROLLER (frame (station 2) (station 1) (tag 100 ∷ [])) ∷ sent 2 (frame (station 2) (station 1) []) ∷ [] }
    ensures fresh { sends plain (learned 304999 (host 1 2 100 2 0 ∷ host 1 1 100 1 5000 ∷ [])) (dp 1) 1 (frame (station 2) (station 1) [])
        ≡ sent 2 (frame (station 2) (station 1) []) ∷ [] }
    ensures stale { sends plain (learned 305000 (host 1 2 100 2 0 ∷ host 1 1 100 1 5000 ∷ [])) (dp 1) 1 (frame (station 2) (station 1) [])
        ≡ sent CONTROLLER (frame (station 2) (station 1) (tag 100 ∷ [])) ∷ sent 2 (frame (station 2) (station 1) []) ∷ [] }
    ensures moved { sends plain (learned 0 (host 1 2 100 2 0 ∷ host 1 3 100 1 0 ∷ [])) (dp 1) 1 (frame (station 2) (station 1) [])
        ≡ sent CONTROLLER (frame (station 2) (station 1) (tag 100 ∷ [])) ∷ sent 2 (frame (station 2) (station 1) []) ∷ [] }
    ensures group { sends plain (learned 0 (host 1 2 100 2 0 ∷ [])) (dp 1) 1 (frame (station 2) (record { 0 = 1 ∷ 0 ∷ 0 ∷ 0 ∷ 0 ∷ 1 ∷ [] }) [])
        ≡ sent 2 (frame (station 2) (record { 0 = 1 ∷ 0 ∷ 0 ∷ 0 ∷ 0 ∷ 1 ∷ [] }) []) ∷ [] }
    ensures port_full { sends (two_ports (record (edge 1 (Some 100) []) { max_hosts = 1 }) (edge 2 (Some 100) [])) (learned 300000 (host 1 2 100 2 0 ∷ host 1 1 100 3 0 ∷ [])) (dp 1) 1 (frame (station 2) (station 1) [])
        ≡ sent 2 (frame (station 2) (station 1) []) ∷ [] }
    ensures vlan_full { sends (settled (datapath 1 None (edge 1 (Some 100) [] ∷ edge 2 (Some 100) [] ∷ [])) (record (vlan 100 []) { max_hosts = 1 })) (learned 0 (host 1 2 100 2 0 ∷ [])) (dp 1) 1 (frame (station 2) (station 1) [])
        ≡ sent 2 (frame (station 2) (station 1) []) ∷ [] }
    ensures stays_elsewhere { sends (two_ports (edge 1 (Some 100) []) (record (edge 2 (Some 100) []) { permanent_learn = true })) (learned 0 (host 1 2 100 2 0 ∷ [])) (dp 1) 1 (frame (station 2) (station 2) []) ≡ [] }
    ensures place_is_taken { sends (two_ports (record (edge 1 (Some 100) []) { permanent_learn = true }) (edge 2 (Some 100) [])) (learned 0 (host 1 2 100 2 0 ∷ host 1 1 100 3 0 ∷ [])) (dp 1) 1 (frame (station 2) (station 1) []) ≡ [] }
    ensures own_place { sends (two_ports (record (edge 1 (Some 100) []) { permanent_learn = true }) (edge 2 (Some 100) [])) (learned 900000 (host 1 2 100 2 0 ∷ host 1 1 100 1 0 ∷ [])) (dp 1) 1 (frame (station 2) (station 1) [])
        ≡ sent 2 (frame (station 2) (station 1) []) ∷ [] }
{}

/// Two VLANs are tagged on one port and routed, and station 2 is a known neighbour and a host of the
/// second: a packet of the first goes back by its port only with `hairpin`, and with one hop less.
pub fn routed_between_two_vlans()
    ensures no_hairpin { (fit : LengthsFit) → sends (two_vlans fit false) one_neighbour (dp 1) 1 (udp (ip4 2 2) 64) ≡ [] }
    ensures hairpin { (fit : LengthsFit) → sends (two_vlans fit true) one_neighbour (dp 1) 1 (udp (ip4 2 2) 64)
        ≡ sent 1 (v4 (station 2) (gateway 1) (tag 200 ∷ []) (ip4 2 2) 17 63 l4.None) ∷ [] }
    ensures two_hops { (fit : LengthsFit) → sends (two_vlans fit true) one_neighbour (dp 1) 1 (udp (ip4 2 2) 2)
        ≡ sent 1 (v4 (station 2) (gateway 1) (tag 200 ∷ []) (ip4 2 2) 17 1 l4.None) ∷ [] }
    ensures one_hop { (fit : LengthsFit) → sends (two_vlans fit true) one_neighbour (dp 1) 1 (udp (ip4 2 2) 1) ≡ [] }
    ensures no_hop { (fit : LengthsFit) → sends (two_vlans fit true) one_neighbour (dp 1) 1 (udp (ip4 2 2) 0) ≡ [] }
    ensures unresolved { (fit : LengthsFit) → sends (two_vlans fit true) one_neighbour (dp 1) 1 (udp (ip4 2 3) 1) ≡ sent CONTROLLER (udp (ip4 2 3) 1) ∷ [] }
    ensures ping { (fit : LengthsFit) → sends (two_vlans fit true) one_neighbour (dp 1) 1 (ping (ip4 2 254)) ≡ sent CONTROLLER (ping (ip4 2 254)) ∷ [] }
    ensures to_a_vip { (fit : LengthsFit) → sends (two_vlans fit true) one_neighbour (dp 1) 1 (udp (ip4 2 254) 64) ≡ [] }
    ensures no_prefix { (fit : LengthsFit) → sends (two_vlans fit true) one_neighbour (dp 1) 1 (udp (ip4 3 1) 64) ≡ [] }
    ensures arp_for_a_vip { (fit : LengthsFit) → sends (two_vlans fit true) one_neighbour (dp 1) 1 (arp broadcast (ip4 1 254)) ≡ sent CONTROLLER (arp broadcast (ip4 1 254)) ∷ [] }
    ensures arp_for_another { (fit : LengthsFit) → sends (two_vlans fit false) one_neighbour (dp 1) 1 (arp broadcast (ip4 2 254)) ≡ [] }
    ensures arp_to_the_gateway { (fit : LengthsFit) → sends (two_vlans fit false) one_neighbour (dp 1) 1 (arp (gateway 1) (ip4 1 9)) ≡ sent CONTROLLER (arp (gateway 1) (ip4 1 9)) ∷ [] }
    ensures other_type { (fit : LengthsFit) → sends (two_vlans fit true) one_neighbour (dp 1) 1 (frame (gateway 1) (station 1) (tag 100 ∷ [])) ≡ [] }
{}

/// The same by IPv6. A link-local network is of one VLAN alone: the neighbour fe80::2 of the second is
/// unknown in the first.
pub fn routed_between_two_vlans_by_ipv6()
    ensures hairpin { (fit : LengthsFit) → sends (two_vlans fit true) one_neighbour (dp 1) 1 (udp6 (ip6 2 2) 64)
        ≡ sent 1 (record (udp6 (ip6 2 2) 63) { dst = station 2; src = gateway 1; tags = tag 200 ∷ [] }) ∷ [] }
    ensures one_hop { (fit : LengthsFit) → sends (two_vlans fit true) one_neighbour (dp 1) 1 (udp6 (ip6 2 2) 1) ≡ [] }
    ensures unresolved { (fit : LengthsFit) → sends (two_vlans fit true) one_neighbour (dp 1) 1 (udp6 (ip6 2 3) 1) ≡ sent CONTROLLER (udp6 (ip6 2 3) 1) ∷ [] }
    ensures link_local { (fit : LengthsFit) → sends (two_vlans fit true) one_neighbour (dp 1) 1 (udp6 (local 2) 64) ≡ sent CONTROLLER (udp6 (local 2) 64) ∷ [] }
    ensures vip_of_another_link { (fit : LengthsFit) → sends (two_vlans fit true) one_neighbour (dp 1) 1 (icmp6 (local 0xfd) 128) ≡ sent CONTROLLER (icmp6 (local 0xfd) 128) ∷ [] }
    ensures ping { (fit : LengthsFit) → sends (two_vlans fit true) one_neighbour (dp 1) 1 (icmp6 (ip6 2 0xfe) 128) ≡ sent CONTROLLER (icmp6 (ip6 2 0xfe) 128) ∷ [] }
    ensures advertised { (fit : LengthsFit) → sends (two_vlans fit true) one_neighbour (dp 1) 1 (icmp6 (ip6 1 0xfe) 136) ≡ sent CONTROLLER (icmp6 (ip6 1 0xfe) 136) ∷ [] }
    ensures other_message { (fit : LengthsFit) → sends (two_vlans fit true) one_neighbour (dp 1) 1 (icmp6 (ip6 1 0xfe) 129) ≡ [] }
    ensures to_a_vip { (fit : LengthsFit) → sends (two_vlans fit true) one_neighbour (dp 1) 1 (udp6 (ip6 2 0xfe) 64) ≡ [] }
    ensures no_prefix { (fit : LengthsFit) → sends (two_vlans fit true) one_neighbour (dp 1) 1 (udp6 (ip6 3 1) 64) ≡ [] }
    ensures solicited { (fit : LengthsFit) → sends (two_vlans fit true) one_neighbour (dp 1) 1 (discovery solicited solicited_node 135 (ip6 1 0xfe))
        ≡ sent CONTROLLER (discovery solicited solicited_node 135 (ip6 1 0xfe)) ∷ [] }
    ensures solicited_for_another { (fit : LengthsFit) → sends (two_vlans fit false) one_neighbour (dp 1) 1 (discovery solicited solicited_node 135 (ip6 2 0xfe)) ≡ [] }
    ensures solicited_at_the_gateway { (fit : LengthsFit) → sends (two_vlans fit true) one_neighbour (dp 1) 1 (discovery (gateway 1) (ip6 1 0xfe) 135 (ip6 1 0xfe))
        ≡ sent CONTROLLER (discovery (gateway 1) (ip6 1 0xfe) 135 (ip6 1 0xfe)) ∷ [] }
    ensures another_at_the_gateway { (fit : LengthsFit) → sends (two_vlans fit true) one_neighbour (dp 1) 1 (discovery (gateway 1) (ip6 1 0xfe) 135 (ip6 2 0xfe)) ≡ [] }
    ensures no_destination { (fit : LengthsFit) → sends (two_vlans fit true) one_neighbour (dp 1) 1 (record (frame (gateway 1) (station 1) (tag 100 ∷ [])) { eth_type = 0x86dd }) ≡ [] }
{}

/// Routes to 10.9.0.0/16, 10.9.1.0/24 and 10.9.2.0/24, of which the last one's gateway isn't known.
pub fn the_longest_prefix_whose_gateway_is_known()
    ensures longer { (fit : LengthsFit) → sends (two_routes fit) two_gateways (dp 1) 1 (v4 (gateway 1) (station 1) [] (record { 0 = 0x0a090105 }) 17 64 l4.None)
        ≡ sent 2 (v4 (station 8) (gateway 1) [] (record { 0 = 0x0a090105 }) 17 63 l4.None) ∷ [] }
    ensures shorter { (fit : LengthsFit) → sends (two_routes fit) two_gateways (dp 1) 1 (v4 (gateway 1) (station 1) [] (record { 0 = 0x0a090305 }) 17 64 l4.None)
        ≡ sent 2 (v4 (station 7) (gateway 1) [] (record { 0 = 0x0a090305 }) 17 63 l4.None) ∷ [] }
    ensures unresolved { (fit : LengthsFit) → sends (two_routes fit) two_gateways (dp 1) 1 (v4 (gateway 1) (station 1) [] (record { 0 = 0x0a090205 }) 17 64 l4.None)
        ≡ sent 2 (v4 (station 7) (gateway 1) [] (record { 0 = 0x0a090205 }) 17 63 l4.None) ∷ [] }
    ensures neighbour { (fit : LengthsFit) → sends (two_routes fit) two_gateways (dp 1) 1 (v4 (gateway 1) (station 1) [] (ip4 1 8) 17 64 l4.None)
        ≡ sent 2 (v4 (station 8) (gateway 1) [] (ip4 1 8) 17 63 l4.None) ∷ [] }
{}

/// A ring of three datapaths, of which the first is the root. While its link to the second is down,
/// packets for the second's hosts go through the third. LLDP from a stack port is the controller's alone.
pub fn a_ring_of_three()
    ensures near { sends ring (ring_with all_up) (dp 1) 1 (frame (station 2) (station 1) [])
        ≡ sent 2 (frame (station 2) (station 1) (tag 100 ∷ [])) ∷ [] }
    ensures around { sends ring (ring_with link_down) (dp 1) 1 (frame (station 2) (station 1) [])
        ≡ sent 3 (frame (station 2) (station 1) (tag 100 ∷ [])) ∷ [] }
    ensures through { sends ring (ring_with link_down) (dp 3) 2 (frame (station 2) (station 1) (tag 100 ∷ []))
        ≡ sent 3 (frame (station 2) (station 1) (tag 100 ∷ [])) ∷ [] }
    ensures arrived { sends ring (ring_with link_down) (dp 2) 3 (frame (station 2) (station 1) (tag 100 ∷ []))
        ≡ sent 1 (frame (station 2) (station 1) []) ∷ [] }
    ensures flood { sends ring (ring_with all_up) (dp 1) 1 (frame broadcast (station 1) [])
        ≡ sent 2 (frame broadcast (station 1) (tag 100 ∷ [])) ∷ sent 3 (frame broadcast (station 1) (tag 100 ∷ [])) ∷ [] }
    ensures flood_ends { sends ring (ring_with all_up) (dp 2) 2 (frame broadcast (station 1) (tag 100 ∷ []))
        ≡ sent 1 (frame broadcast (station 1) []) ∷ [] }
    ensures flood_goes_around { sends ring (ring_with link_down) (dp 3) 2 (frame broadcast (station 1) (tag 100 ∷ []))
        ≡ sent 1 (frame broadcast (station 1) []) ∷ sent 3 (frame broadcast (station 1) (tag 100 ∷ [])) ∷ [] }
    ensures no_tag { sends ring (ring_with all_up) (dp 2) 2 (frame broadcast (station 1) []) ≡ [] }
    ensures no_vlan { sends ring (ring_with all_up) (dp 2) 2 (frame broadcast (station 1) (tag 200 ∷ [])) ≡ [] }
    ensures lldp { sends ring (ring_with all_up) (dp 2) 2 (lldp []) ≡ sent CONTROLLER (lldp []) ∷ [] }
    ensures lldp_with_a_tag { sends ring (ring_with all_up) (dp 2) 2 (lldp (tag 200 ∷ [])) ≡ [] }
    ensures lldp_at_an_edge { sends ring (ring_with all_up) (dp 2) 1 (lldp []) ≡ [] }
{}

/// The first rule that hits decides: IPv4 goes to port 3 alone, which the rule names twice beside the
/// ingress, type 0x0801 goes on, and what no rule hits is denied.
pub fn rules_of_a_port()
    ensures denied { sends ruled nothing_learned (dp 1) 1 (v4 broadcast (station 1) [] (ip4 2 2) 17 64 l4.None)
        ≡ sent 3 (v4 broadcast (station 1) [] (ip4 2 2) 17 64 l4.None) ∷ [] }
    ensures allowed { sends ruled nothing_learned (dp 1) 1 (frame broadcast (station 1) [])
        ≡ sent CONTROLLER (frame broadcast (station 1) (tag 100 ∷ [])) ∷ sent 2 (frame broadcast (station 1) []) ∷ [] }
    ensures no_rule { sends ruled nothing_learned (dp 1) 1 (record (frame broadcast (station 1) []) { eth_type = 0x0802 }) ≡ [] }
    ensures no_acl { sends ruled nothing_learned (dp 1) 2 (record (frame broadcast (station 1) []) { eth_type = 0x0802 })
        ≡ sent CONTROLLER (record (frame broadcast (station 1) (tag 100 ∷ [])) { eth_type = 0x0802 }) ∷ sent 1 (record (frame broadcast (station 1) []) { eth_type = 0x0802 }) ∷ [] }
{}
