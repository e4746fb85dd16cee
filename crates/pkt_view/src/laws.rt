//! Laws of the definitions: each function is empty, and its contract is the law.

ghost use Rattle.std.specs.Prelude.{◌≡◌, [], ◌∷◌, ◌++◌, false, Some, ◌≤◌, ◌<◌, ◌%◌, ◌-◌, ◌^◌, ◌↔◌, IsSome, None, ◌⊎◌, ℕ, List, All, IfSome, length, slice_index, take, drop, sum};
ghost use Rattle.std.specs.List.{AllByRecursion, flat_map, fold};
ghost use Rattle.net_base.specs.Address.{is_group};
ghost use Rattle.pkt_view.specs.Checksum.{carried, ones_complement, internet_checksum};
ghost use Rattle.net_base.specs.declared.address.Mac.{Mac};
ghost use Rattle.net_base.specs.declared.address.Ip4.{Ip4};
ghost use Rattle.net_base.specs.declared.address6.Ip6.{Ip6};
ghost use Rattle.pkt_view.specs.Frame.{is_tag_type, parts, upper_parts, Arp, V4, V6};
ghost use Rattle.pkt_view.specs.Layouts.{tag_bytes, frame_of, parts_of, IsArp, ShowsArp, IsHeader, Header, header_front, header_bytes, IsHeader6, Header6, header6_front, header6_bytes, IsUpper, IsFirstOf, HasPorts, IsL4, IsNext, targeted, ShowsNeighbour, Echo, header_of, message_of, IsEcho, IsEchoRequest, Answers, Echo6, header6_of, message6_of, IsEcho6, IsEcho6Request, Answers6};
ghost use Rattle.pkt_view.specs.Numbers.{number};
ghost use Rattle.pkt_view.specs.Packets.{tags_of, l4_of, next_of, l4_len, next_rest, upper_of, rest_of, packet};
ghost use Rattle.pkt_view.specs.Replies.{untagged, arp_packet, arp_request, arp_reply, reply_header, reply_icmp, checksum6, message6, solicited, solicited_mac, nd_solicit, nd_advert, echo_upper};
ghost use Rattle.of_match.specs.declared.ether_type.TheConstants.{ARP, IPV4, IPV6};
ghost use Rattle.of_match.specs.declared.packet.Tag.{Tag};
ghost use Rattle.of_match.specs.declared.packet.L4.TheVariants.{None as NoL4, Tcp, Udp, Icmp, Icmp6};
ghost use Rattle.of_match.specs.declared.packet.Upper.TheVariants.{V4 as V4Part, V6 as V6Part};
ghost use Rattle.of_match.specs.Shaped.{IsTag, IsIp4, IsIp6, IsShaped};

/// The parts of a frame's packet fit their headers, and agree with its EtherType and protocol, and its
/// tags with IEEE 802.1Q.
#[tactic(auto, using(crate::proofs::Shapes::packet_shaped))]
pub fn packet_of_a_frame_is_shaped()
    ensures { (frame : List ℕ) → ((i : ℕ) → slice_index frame i < 256) → IfSome (packet frame) IsShaped }
{}

/// A frame is its parts in a row: two addresses, the tags, the EtherType and the payload; and that
/// type is none that shows a tag (IEEE 802.3, 3.1.1; IEEE 802.1Q, 9.3).
#[tactic(auto, using(crate::proofs::Spelled::frame_in_a_row, crate::proofs::Spelled::type_shows_no_tag))]
pub fn frame_is_its_parts()
    ensures row { (frame : List ℕ) → All (λ b. b < 256) frame → IfSome (parts frame) (λ p. frame ≡ p.dst.0 ++ p.src.0 ++ p.tags ++ number 2 p.eth_type ++ p.payload) }
    ensures no_tag { (frame : List ℕ) → IfSome (parts frame) (λ p. is_tag_type p.eth_type ≡ false) }
{}

/// The one's complement sum has 16 bits, is congruent to the plain sum modulo 65,535, and is 0 for
/// 0 alone.
#[tactic(auto, using(crate::proofs::Sums::ones_most, crate::proofs::Sums::ones_congruent, crate::proofs::Sums::ones_none))]
pub fn ones_complement_is_congruent()
    ensures most { (n : ℕ) → ones_complement n ≤ 65535 }
    ensures congruent { (n : ℕ) → ones_complement n % 65535 ≡ n % 65535 }
    ensures zero { (n : ℕ) → ones_complement n ≡ 0 → n ≡ 0 }
{}

/// Adding word by word, with each carry brought back to the lowest bit, gives the one's complement
/// sum (RFC 1071, 2).
#[tactic(auto, using(crate::proofs::Sums::sum_by_carrying))]
pub fn ones_complement_is_summed_by_carrying()
    ensures { (ws : List ℕ) → All (λ w. w < 2 ^ 16) ws → fold carried 0 ws ≡ ones_complement (sum ws) }
{}

/// The header and the ICMP part of an echo reply have right checksums.
#[tactic(auto, using(crate::proofs::EchoLaws::header_right, crate::proofs::EchoLaws::icmp_right))]
pub fn echo_reply_has_right_checksums()
    ensures header { (header : List ℕ) (icmp_len : ℕ) → 20 ≤ length header → internet_checksum (reply_header header icmp_len) ≡ 0 }
    ensures icmp { (icmp : List ℕ) → internet_checksum (reply_icmp icmp) ≡ 0 }
{}

/// The reply's source is the request's destination and the other way round, and the reply to a reply
/// has the request's addresses (RFC 792; the addresses are bytes 12 to 15 and 16 to 19 of a header).
#[tactic(auto, using(crate::proofs::EchoLaws::source_exchanged, crate::proofs::EchoLaws::target_exchanged, crate::proofs::EchoLaws::source_again, crate::proofs::EchoLaws::target_again))]
pub fn echo_reply_exchanges_addresses()
    ensures source { (header : List ℕ) (n : ℕ) → 20 ≤ length header → take 4 (drop 12 (reply_header header n)) ≡ take 4 (drop 16 header) }
    ensures target { (header : List ℕ) (n : ℕ) → 20 ≤ length header → take 4 (drop 16 (reply_header header n)) ≡ take 4 (drop 12 header) }
    ensures source_again { (header : List ℕ) (n : ℕ) (m : ℕ) → 20 ≤ length header → take 4 (drop 12 (reply_header (reply_header header n) m)) ≡ take 4 (drop 12 header) }
    ensures target_again { (header : List ℕ) (n : ℕ) (m : ℕ) → 20 ≤ length header → take 4 (drop 16 (reply_header (reply_header header n) m)) ≡ take 4 (drop 16 header) }
{}

/// What stands behind the EtherType is read as an ARP packet for Ethernet and IPv4 (RFC 826) or an IPv4
/// packet (RFC 791, 3.1) or an IPv6 packet (RFC 8200, 3) exactly where it is one.
pub fn what_is_read_behind_the_type_stands_there()
    ensures there { (eth_type : ℕ) (payload : List ℕ) → All (λ b. b < 256) payload → IsUpper eth_type payload (upper_parts eth_type payload) }
    ensures arp { (payload : List ℕ) (op : ℕ) (sha : Mac) (spa : Ip4) (tha : Mac) (tpa : Ip4) → IsArp payload op sha spa tha tpa → upper_parts ARP payload ≡ Arp op sha spa tha tpa }
    ensures ipv4 { (header body : List ℕ) → IsHeader header → upper_parts IPV4 (header ++ body) ≡ V4 header body }
    ensures ipv6 { (header body : List ℕ) → IsHeader6 header → upper_parts IPV6 (header ++ body) ≡ V6 header body }
{}

/// The ports of TCP and UDP, and type and code of ICMP, are read behind an IPv4 header exactly where they
/// stand there and the packet is no later fragment (RFC 9293, 3.1; RFC 768; RFC 792).
pub fn what_is_read_behind_a_header_stands_there()
    ensures there { (header body : List ℕ) → 20 ≤ length header → All (λ b. b < 256) header → All (λ b. b < 256) body → IsL4 header body (l4_of header body) }
    ensures tcp { (header body : List ℕ) (src dst : ℕ) → IsFirstOf 6 header → HasPorts body src dst → l4_of header body ≡ Tcp src dst }
    ensures udp { (header body : List ℕ) (src dst : ℕ) → IsFirstOf 17 header → HasPorts body src dst → l4_of header body ≡ Udp src dst }
    ensures icmp { (header : List ℕ) (kind code : ℕ) (more : List ℕ) → IsFirstOf 1 header → l4_of header (kind ∷ code ∷ more) ≡ Icmp kind code }
{}

/// The ports of TCP and UDP, and type, code and target of ICMPv6, are read behind an IPv6 header exactly
/// where they stand there: a target is that of a message of type 135 or 136, and what is ICMP in IPv4 has
/// none of them (RFC 8200, 4; RFC 4443, 2.1; RFC 4861, 4.3 and 4.4).
pub fn what_is_read_behind_an_ipv6_header_stands_there()
    ensures there { (proto : ℕ) (body : List ℕ) → All (λ b. b < 256) body → IsNext proto body (next_of proto body) }
    ensures tcp { (body : List ℕ) (src dst : ℕ) → HasPorts body src dst → next_of 6 body ≡ Tcp src dst }
    ensures udp { (body : List ℕ) (src dst : ℕ) → HasPorts body src dst → next_of 17 body ≡ Udp src dst }
    ensures plain { (kind code : ℕ) (more : List ℕ) → ¬ (kind ≡ 135) → ¬ (kind ≡ 136) → next_of 58 (kind ∷ code ∷ more) ≡ Icmp6 kind code None }
    ensures targeted { (kind code sum flags : ℕ) (target : Ip6) (more : List ℕ) → (kind ≡ 135) ⊎ (kind ≡ 136) → target.0 < 2 ^ 128 → next_of 58 (targeted kind code sum flags target more) ≡ Icmp6 kind code (Some target) }
    ensures other { (body : List ℕ) → next_of 1 body ≡ NoL4 }
{}

/// A frame is read as its parts are spelled: two addresses, the tags, an EtherType that shows no tag,
/// and the payload (IEEE 802.3, 3.1.1; IEEE 802.1Q, 9.3 and 9.6).
pub fn a_frame_is_read_as_its_parts_are_spelled()
    ensures parts { (dst src : Mac) (tags : List Tag) (eth_type : ℕ) (payload : List ℕ) → length dst.0 ≡ 6 → length src.0 ≡ 6 → AllByRecursion IsTag tags → eth_type < 2 ^ 16 → is_tag_type eth_type ≡ false
        → parts (frame_of dst src tags eth_type payload) ≡ Some (parts_of dst src tags eth_type payload) }
    ensures tags { (tags : List Tag) → AllByRecursion IsTag tags → tags_of (flat_map tag_bytes tags) ≡ tags }
    ensures untagged { (dst src : Mac) (eth_type : ℕ) (payload : List ℕ) → length dst.0 ≡ 6 → length src.0 ≡ 6 → eth_type < 2 ^ 16 → is_tag_type eth_type ≡ false
        → parts (untagged dst src eth_type payload) ≡ Some (parts_of dst src [] eth_type payload) }
{}

/// A packet has the addresses, the protocol and the TTL or hop limit of its header; and its rest is what
/// else stands behind the EtherType, in order, without the checksum of an IPv4 header (RFC 791, 3.1;
/// RFC 8200, 3; RFC 826).
pub fn a_packet_has_what_its_headers_hold()
    ensures ipv4 { (h : Header) (body : List ℕ) → h.source < 2 ^ 32 → h.destination < 2 ^ 32
        → upper_of (V4 (header_bytes h) body) ≡ V4Part (record { 0 = h.source }) (record { 0 = h.destination }) h.protocol h.lifetime (l4_of (header_bytes h) body) }
    ensures ipv4_rest { (h : Header) (payload body : List ℕ) → rest_of payload (V4 (header_bytes h) body) ≡ header_front h ++ h.options ++ drop (l4_len (l4_of (header_bytes h) body)) body }
    ensures ipv6 { (h : Header6) (body : List ℕ) → h.source < 2 ^ 128 → h.destination < 2 ^ 128
        → upper_of (V6 (header6_bytes h) body) ≡ V6Part (record { 0 = h.source }) (record { 0 = h.destination }) h.next h.hops (next_of h.next body) }
    ensures ipv6_rest { (h : Header6) (payload body : List ℕ) → rest_of payload (V6 (header6_bytes h) body) ≡ header6_front h ++ next_rest (next_of h.next body) body }
    ensures arp_rest { (op : ℕ) (sha : Mac) (spa : Ip4) (tha : Mac) (tpa : Ip4) (padding : List ℕ) → length sha.0 ≡ 6 → length tha.0 ≡ 6
        → rest_of (arp_packet op sha spa tha tpa ++ padding) (Arp op sha spa tha tpa) ≡ (0 ∷ 1 ∷ 0x08 ∷ 0x00 ∷ 6 ∷ 4 ∷ []) ++ sha.0 ++ tha.0 ++ padding }
{}

/// The frame that asks by ARP goes from the asker to all, and that which answers to the one that asked
/// (RFC 826); the operations are 1 and 2, and a request leaves the target's hardware address at 0.
pub fn arp_frames_show_who_asks_and_who_answers()
    ensures request { (src : Mac) (spa tpa : Ip4) → length src.0 ≡ 6 → IsIp4 spa → IsIp4 tpa
        → ShowsArp (arp_request src spa tpa) (record { 0 = 0xff ∷ 0xff ∷ 0xff ∷ 0xff ∷ 0xff ∷ 0xff ∷ [] }) 1 src spa (record { 0 = 0 ∷ 0 ∷ 0 ∷ 0 ∷ 0 ∷ 0 ∷ [] }) tpa }
    ensures reply { (src : Mac) (spa : Ip4) (dst : Mac) (tpa : Ip4) → length src.0 ≡ 6 → IsIp4 spa → length dst.0 ≡ 6 → IsIp4 tpa → ShowsArp (arp_reply src spa dst tpa) dst 2 src spa dst tpa }
{}

/// The frame that solicits a neighbour goes from the one that asks to the group of those whose address
/// ends as the target's, and that which advertises one to the one that asked; each has a right checksum
/// and ends with the Ethernet address of its sender (RFC 4861, 4.3, 4.4 and 4.6.1).
pub fn neighbour_frames_show_who_asks_and_who_answers()
    ensures solicitation { (src : Mac) (spa target : Ip6) → length src.0 ≡ 6 → IsIp6 spa → IsIp6 target
        → ShowsNeighbour (nd_solicit src spa target) (solicited_mac target) src spa (solicited target) 135 target 1 }
    ensures advertisement { (src : Mac) (spa : Ip6) (dst : Mac) (to : Ip6) → length src.0 ≡ 6 → IsIp6 spa → length dst.0 ≡ 6
        → ShowsNeighbour (nd_advert src spa dst to) dst src spa (number 16 to.0) 136 spa 2 }
{}

/// A message of ICMPv6 that is made has a right checksum, over its addresses, its length and its protocol
/// too (RFC 4443, 2.3; RFC 8200, 8.1).
pub fn messages_have_right_checksums()
    ensures { (source destination : List ℕ) (kind : ℕ) (rest : List ℕ) → length source ≡ 16 → length destination ≡ 16
        → checksum6 source destination (message6 source destination kind rest) ≡ 0 }
{}

/// An ICMP echo request is answered exactly where it is whole, no fragment, in a packet of at most 65,400
/// bytes under right checksums, and from no group address (RFC 792; RFC 791, 3.1); one of ICMPv6 where it
/// stands right behind the header, with at most 65,400 bytes under a right checksum, and from no group
/// address (RFC 4443, 4.1; RFC 8200, 3); and what is neither IPv4 nor IPv6 isn't answered.
pub fn an_answer_is_due_to_an_echo_request()
    ensures ipv4 { (src from : Mac) (payload : List ℕ) → All (λ b. b < 256) payload
        → IsSome (echo_upper src from (upper_parts IPV4 payload)) ↔ ((is_group from ≡ false) × IsEchoRequest payload) }
    ensures ipv6 { (src from : Mac) (payload : List ℕ) → All (λ b. b < 256) payload
        → IsSome (echo_upper src from (upper_parts IPV6 payload)) ↔ ((is_group from ≡ false) × IsEcho6Request payload) }
    ensures no_other { (src from : Mac) (eth_type : ℕ) (payload : List ℕ) → All (λ b. b < 256) payload → ¬ (eth_type ≡ IPV4) → ¬ (eth_type ≡ IPV6)
        → echo_upper src from (upper_parts eth_type payload) ≡ None }
{}

/// The answer to an echo request is an echo reply with right checksums, from its destination to its
/// source, and has its identifier, sequence number and data (RFC 792).
pub fn an_echo_request_gets_its_reply()
    ensures { (src from : Mac) (e : Echo) (padding : List ℕ) → is_group from ≡ false → IsEcho 8 e
        → (a : Echo) × IsEcho 0 a × Answers e a × (echo_upper src from (upper_parts IPV4 (header_of e ++ message_of 8 e ++ padding)) ≡ Some (untagged from src IPV4 (header_of a ++ message_of 0 a))) }
{}

/// The answer to an echo request of ICMPv6 is an echo reply with a right checksum, from its destination to
/// its source, and has its identifier, sequence number and data (RFC 4443, 4.2).
pub fn an_echo6_request_gets_its_reply()
    ensures { (src from : Mac) (e : Echo6) (padding : List ℕ) → is_group from ≡ false → IsEcho6 128 e
        → (a : Echo6) × IsEcho6 129 a × Answers6 e a × (echo_upper src from (upper_parts IPV6 (header6_of e ++ message6_of 128 e ++ padding)) ≡ Some (untagged from src IPV6 (header6_of a ++ message6_of 129 a))) }
{}
