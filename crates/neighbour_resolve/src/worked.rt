//! Frames that are worked out by hand. The function does nothing: its contract says what becomes of them.

ghost use Rattle.std.specs.Prelude.{◌≡◌, ◌≤◌, Some, None, [], ◌∷◌};
ghost use Rattle.conf_types.specs.declared.address.Ip.TheVariants.{V6};
ghost use Rattle.conf_types.specs.Worked.{dp, station};
ghost use Rattle.of_match.specs.declared.action.Action.TheVariants.{Output};
ghost use Rattle.neighbour_resolve.specs.declared.answers.Reply.TheVariants.{Advert, Nothing};
ghost use Rattle.neighbour_resolve.specs.Asks.{ask};
ghost use Rattle.neighbour_resolve.specs.Worked.{address, advertisement, answered, heard, one_gateway, question, solicitation};

/// Station 1 at fd00::1 solicits the gateway fd00::fe of VLAN 100: it gets an advertisement, and is heard.
/// With a hop limit of 254 a router passed the frame on, and it doesn't count. The gateway asks for it by a
/// solicitation of its own.
pub fn a_gateway_is_solicited_and_solicits()
    ensures answered { (fit : 64 ≤ 128) → answered (one_gateway fit) (solicitation 255) ≡ Some (Advert advertisement) }
    ensures heard { (fit : 64 ≤ 128) → heard (one_gateway fit) (solicitation 255) ≡ Some (Some (record { ip = V6 (address 1); mac = station 1 })) }
    ensures passed_on { (fit : 64 ≤ 128) → answered (one_gateway fit) (solicitation 254) ≡ Some Nothing }
    ensures not_heard { (fit : 64 ≤ 128) → heard (one_gateway fit) (solicitation 254) ≡ Some None }
    ensures asked { (fit : 64 ≤ 128) → ask (one_gateway fit) (dp 1) 100 (V6 (address 1)) ≡ Some (record { frame = question; actions = Output 1 0 ∷ [] }) }
{}
