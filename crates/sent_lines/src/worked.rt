//! Lines worked out by hand. The functions do nothing: their contracts say how packets are written.

ghost use Rattle.std.specs.Prelude.{◌≡◌, false, [], ◌∷◌, ◌++◌, codes};
ghost use Rattle.net_base.specs.declared.address.Mac.{Mac};
ghost use Rattle.of_match.specs.declared.action.TheConstants.{CONTROLLER};
ghost use Rattle.of_match.specs.declared.packet.Packet.{Packet};
ghost use Rattle.of_match.specs.declared.packet.Tag.{Tag};
ghost use Rattle.of_match.specs.declared.packet.L4.TheVariants as l4;
ghost use Rattle.of_match.specs.declared.packet.Upper.TheVariants as upper;
ghost use Rattle.sent_lines.specs.Lines.{sent_line, tags_text, ttl_text};

/// A broadcast with one tag goes to the controller, and one with none by a port.
pub fn a_broadcast()
    ensures tagged { sent_line CONTROLLER (record {
      dst = record { 0 = 255 ∷ 255 ∷ 255 ∷ 255 ∷ 255 ∷ 255 ∷ [] };
      src = record { 0 = 2 ∷ 0 ∷ 0 ∷ 0 ∷ 0 ∷ 1 ∷ [] };
      tags = record { tpid = 33024; pcp = 0; dei = false; vid = 100 } ∷ [];
      eth_type = 2048;
      upper = upper.None;
      rest = [];
    })
        ≡ codes "controller 100 02:00:00:00:00:01 ff:ff:ff:ff:ff:ff -" ++ 10 ∷ [] }
    ensures untagged { sent_line 2 (record {
      dst = record { 0 = 255 ∷ 255 ∷ 255 ∷ 255 ∷ 255 ∷ 255 ∷ [] };
      src = record { 0 = 2 ∷ 0 ∷ 0 ∷ 0 ∷ 0 ∷ 1 ∷ [] };
      tags = [];
      eth_type = 2048;
      upper = upper.None;
      rest = [];
    })
        ≡ codes "2 - 02:00:00:00:00:01 ff:ff:ff:ff:ff:ff -" ++ 10 ∷ [] }
{}

/// The outermost of two tags comes first, an IPv4 packet has a time to live, and an IPv6 packet a hop limit.
pub fn tags_and_lifetimes()
    ensures tags { tags_text (record { tpid = 34984; pcp = 7; dei = false; vid = 4094 } ∷ record { tpid = 33024; pcp = 0; dei = false; vid = 0 } ∷ []) ≡ codes "4094,0" }
    ensures ttl { ttl_text (upper.V4 (record { 0 = 0 }) (record { 0 = 1 }) 1 63 l4.None) ≡ codes "63" }
    ensures hops { ttl_text (upper.V6 (record { 0 = 0 }) (record { 0 = 1 }) 58 255 l4.None) ≡ codes "255" }
    ensures arp { ttl_text (upper.Arp 1 (record { 0 = 0 }) (record { 0 = 1 })) ≡ codes "-" }
{}
