//! That the frames which are made to ask for a neighbour, and to answer, are heard and answered by what reads them. The functions
//! are empty, and their contracts are the laws.
#![tactic(auto)]

ghost use Rattle.std.specs.Prelude.{◌≡◌, ◌==◌, ◌&&◌, not, false, ℕ, length, Some, if◌then◌else◌};
ghost use Rattle.net_base.specs.declared.address.Ip4.{Ip4};
ghost use Rattle.net_base.specs.declared.address.Mac.{Mac};
ghost use Rattle.net_base.specs.declared.address6.Ip6.{Ip6};
ghost use Rattle.net_base.specs.Address.{is_group};
ghost use Rattle.conf_types.specs.declared.address.Ip.TheVariants.{V4, V6};
ghost use Rattle.conf_types.specs.declared.vlan.Vlan.{Vlan};
ghost use Rattle.conf_types.specs.Configuration.{Configuration};
ghost use Rattle.conf_types.specs.Networks.{is_vip};
ghost use Rattle.of_match.specs.Shaped.{IsIp4, IsIp6};
ghost use Rattle.pkt_view.specs.Replies.{arp_request, arp_reply, nd_solicit, nd_advert};
ghost use Rattle.neighbour_resolve.specs.declared.answers.Reply.TheVariants.{Advert, Nothing};
ghost use Rattle.neighbour_resolve.specs.Hearing.{sender_at};
ghost use Rattle.law_neighbours.specs.Made.{answered, heard};

/// Of each frame that is made to ask for a neighbour or to answer, by ARP (RFC 826) or by neighbour discovery (RFC 4861, 4.3 and 4.4),
/// the one that sends it is heard at the Ethernet address that it sends from, wherever it may be: its address is a neighbour's of the
/// VLAN, and that is one station's (`sender_at`).
pub fn a_frame_that_is_made_is_heard_where_it_counts()
    ensures request { (conf : Configuration) (vid : ℕ) (src : Mac) (spa tpa : Ip4) → length src.0 ≡ 6 → IsIp4 spa → IsIp4 tpa
        → heard conf vid (arp_request src spa tpa) ≡ sender_at conf vid src (V4 spa) }
    ensures reply { (conf : Configuration) (vid : ℕ) (src : Mac) (spa : Ip4) (dst : Mac) (tpa : Ip4) → length src.0 ≡ 6 → IsIp4 spa → length dst.0 ≡ 6 → IsIp4 tpa
        → heard conf vid (arp_reply src spa dst tpa) ≡ sender_at conf vid src (V4 spa) }
    ensures solicitation { (conf : Configuration) (vid : ℕ) (src : Mac) (spa target : Ip6) → length src.0 ≡ 6 → IsIp6 spa → IsIp6 target
        → heard conf vid (nd_solicit src spa target) ≡ sender_at conf vid src (V6 spa) }
    ensures advertisement { (conf : Configuration) (vid : ℕ) (src : Mac) (spa : Ip6) (dst : Mac) (to : Ip6) → length src.0 ≡ 6 → IsIp6 spa → length dst.0 ≡ 6
        → heard conf vid (nd_advert src spa dst to) ≡ sender_at conf vid src (V6 spa) }
{}

/// To a solicitation that is made, from a station, a VLAN's gateway answers exactly with the advertisement of its address that was
/// asked for, to the one that asked, where that isn't :: (RFC 4861, 7.2.4).
pub fn a_solicitation_that_is_made_is_answered()
    ensures { (conf : Configuration) (vlan : Vlan) (src : Mac) (spa target : Ip6) → length src.0 ≡ 6 → IsIp6 spa → IsIp6 target → is_group src ≡ false
        → answered conf vlan (nd_solicit src spa target)
        ≡ Some (if is_vip vlan.vips (V6 target) && not (spa.0 == 0) then Advert (nd_advert vlan.mac target src spa) else Nothing) }
{}
