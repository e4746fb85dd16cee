//! The laws: each function is empty, and its contract is the law.

ghost use Rattle.std.specs.Prelude.{◌≡◌, ◌↔◌, ℕ, List, length, sum_by, count_by, Contains};
ghost use Rattle.conf_types.specs.declared.datapath.Dp.{Dp};
ghost use Rattle.conf_types.specs.declared.vlan.Router.{Router};
ghost use Rattle.conf_types.specs.Configuration.{Configuration};
ghost use Rattle.conf_types.specs.Lists.{AreDistinct};
ghost use Rattle.conf_types.specs.Membership.{is_mirror_of};
ghost use Rattle.conf_types.specs.Valid.{route_items, IsWithinLimits};
ghost use Rattle.conf_shape.specs.declared.refused.LimitName.TheVariants as limit;
ghost use Rattle.conf_rules.specs.Limits.{size_of, routes, gateways};
ghost use Rattle.law_rules.specs.AtMost.{HasAtMost};
ghost use Rattle.law_rules.specs.Counted.{IsNumberOf};
ghost use Rattle.law_rules.specs.Limits.{AreTold, IsDpId, IsVid, IsPortOf, Mirrors, IsSpecial, IsMember, IsAclEntry, IsAclOutput, IsRoute, IsGateway, IsRouteItem};

/// Things have one number: two lists that have the same ones, each once, are equally long.
pub fn things_have_one_number<T>()
    ensures { (xs ys : List T) → AreDistinct xs → AreDistinct ys → ((x : T) → Contains xs x ↔ Contains ys x) → length xs ≡ length ys }
{}

/// A configuration is within its limits exactly where it has no more of each thing than the number of its limit.
pub fn limits_have_their_numbers()
    ensures { (conf : Configuration) → IsWithinLimits conf ↔ HasAtMost conf }
{}

/// The limits on datapaths, on VLANs, on interfaces and on the VLANs of a router count numbers: each that one of
/// them has, once.
pub fn parts_are_counted_by_their_numbers()
    ensures dps { (conf : Configuration) → AreTold conf → IsNumberOf (IsDpId conf) (length conf.dps) }
    ensures vlans { (conf : Configuration) → AreTold conf → IsNumberOf (IsVid conf) (length conf.vlans) }
    ensures ports { (conf : Configuration) → AreTold conf → (d : Dp) → Contains conf.dps d → IsNumberOf (IsPortOf d) (size_of conf limit.Ports d) }
    ensures router_vlans { (conf : Configuration) → AreTold conf → (r : Router) → Contains conf.routers r
        → IsNumberOf (Contains r.vlans) (length r.vlans) }
{}

/// The limit on mirrors counts the interfaces that mirror a port, by their numbers; the one on special ports the
/// edge ports of a datapath that send packets back or are mirrored.
pub fn mirrors_are_counted_by_their_numbers()
    ensures mirrors { (conf : Configuration) → AreTold conf → (d : Dp) → Contains conf.dps d → (number : ℕ)
        → IsNumberOf (Mirrors d number) (count_by (λ m. is_mirror_of m number) d.ports) }
    ensures special { (conf : Configuration) → AreTold conf → (d : Dp) → Contains conf.dps d
        → IsNumberOf (IsSpecial d) (size_of conf limit.Special d) }
{}

/// The limit on members counts pairs of an interface and a VLAN to which it belongs: natively, with a tag, or as
/// an end of a stack link.
pub fn members_are_pairs()
    ensures { (conf : Configuration) → AreTold conf → (d : Dp) → Contains conf.dps d
        → IsNumberOf (IsMember conf d) (size_of conf limit.Members d) }
{}

/// The limit on entries of ACLs counts pairs of an attachment and one of its rules, or the denial behind them; the
/// one on outputs counts, attachment by attachment, pairs of a rule and an interface that the rule names.
pub fn acls_are_counted_by_attachments()
    ensures entries { (conf : Configuration) → AreTold conf → (d : Dp) → Contains conf.dps d
        → IsNumberOf (IsAclEntry conf d) (size_of conf limit.AclEntries d) }
    ensures outputs { (conf : Configuration) → AreTold conf → (d : Dp) → Contains conf.dps d
        → IsNumberOf (IsAclOutput conf d) (size_of conf limit.AclOutputs d) }
{}

/// The limit on routes counts pairs of a VLAN and one of its routes; the one on gateways triples of a group of
/// datapaths, a VLAN and the address of a gateway; the one on route items triples of a VLAN that has a VIP, a VLAN
/// of its routing set, and a VIP or a route of that one.
pub fn routes_are_counted_by_vlans()
    ensures routes { (conf : Configuration) → AreTold conf → IsNumberOf (IsRoute conf) (routes conf) }
    ensures gateways { (conf : Configuration) → AreTold conf
        → IsNumberOf (IsGateway conf) (gateways conf) }
    ensures items { (conf : Configuration) → AreTold conf → IsNumberOf (IsRouteItem conf) (sum_by (route_items conf) conf.vlans) }
{}
