//! The laws: each function is empty, and its contract is the law. Each is about documents of the right shape, and
//! about each place where the rule is broken, not the first alone.

ghost use Rattle.std.specs.Prelude.{◌≡◌, None};
ghost use Rattle.yaml_tree.specs.declared.tree.Tree.{Tree};
ghost use Rattle.conf_shape.specs.declared.refused.ConfCause.TheVariants.{Unresolved, Duplicate, Conflict};
ghost use Rattle.conf_shape.specs.Faults.{first_fault};
ghost use Rattle.conf_shape.specs.Raw.{raw_of};
ghost use Rattle.conf_types.specs.Configuration.{Configuration};
ghost use Rattle.conf_resolve.specs.declared.ordered.OrderedConf.{OrderedConf};
ghost use Rattle.conf_resolve.specs.InOrder.{ordered};
ghost use Rattle.conf_resolve.specs.Resolved.{resolved};
ghost use Rattle.conf_rules.specs.Limits.{passed_limits};
ghost use Rattle.conf_rules.specs.Names.{repeated_vlans, repeated_dps, repeated_ports, unknown_vlans, vlans_twice, unknown_acls, acls_twice};
ghost use Rattle.conf_rules.specs.Ports.{wrong_acl_ports, lacking_rules, wrong_mirrors, wrong_stacks};
ghost use Rattle.conf_rules.specs.Routing.{overlapping_vips, shared_vlans, wrong_routes, repeated_routes};
ghost use Rattle.law_breaks.specs.Found.{PathsBreak, ToldAs, AreToldAs};
ghost use Rattle.law_breaks.specs.Limits.{LimitsBreak};
ghost use Rattle.law_breaks.specs.Names.{RepeatsVlan, RepeatsDatapath, RepeatsInterface, RepeatsTagged};
ghost use Rattle.law_breaks.specs.Ports.{NamesNoTarget, LacksPrerequisite, IsWrongMirror, IsWrongStack};
ghost use Rattle.law_breaks.specs.Routing.{OverlapsVip, RoutesAgain, IsWrongRoute, RepeatsRoute};

/// Rules 1 to 3: where a number or a name is told of, an earlier VLAN, datapath or interface of the datapath has
/// it, too.
pub fn what_rules_1_to_3_tell_of_is_repeated()
    ensures vlans { (t : Tree) → first_fault t ≡ None → PathsBreak t (ToldAs Duplicate (RepeatsVlan (ordered (raw_of t)))) (repeated_vlans (ordered (raw_of t))) }
    ensures datapaths { (t : Tree) → first_fault t ≡ None → PathsBreak t (ToldAs Duplicate (RepeatsDatapath (ordered (raw_of t)))) (repeated_dps (ordered (raw_of t))) }
    ensures interfaces { (t : Tree) → first_fault t ≡ None → PathsBreak t (ToldAs Duplicate (RepeatsInterface (ordered (raw_of t)))) (repeated_ports (ordered (raw_of t))) }
{}

/// Rule 5: what is told of stands for the VLAN of `native_vlan` or of an earlier item of the interface.
pub fn what_rule_5_tells_of_is_named_before()
    ensures { (t : Tree) → first_fault t ≡ None → PathsBreak t (ToldAs Duplicate (RepeatsTagged (ordered (raw_of t)))) (vlans_twice (ordered (raw_of t))) }
{}

/// Rules 4 and 6 tell all that stands for nothing with one cause, and rule 7 tells its own. (What is found there
/// `the_paths_of_names_lead_to_them` of law_documents says.)
pub fn rules_4_6_and_7_tell_their_causes()
    ensures vlans { (o : OrderedConf) → AreToldAs Unresolved (unknown_vlans o) }
    ensures acls { (o : OrderedConf) (conf : Configuration) → AreToldAs Unresolved (unknown_acls o conf) }
    ensures both { (o : OrderedConf) → AreToldAs (Conflict 7) (acls_twice o) }
{}

/// Rule 8: what is told of is a port that an ACL names, and that isn't there, or is an end of a stack link, on a
/// datapath where the ACL is attached.
pub fn what_rule_8_tells_of_is_no_target()
    ensures { (t : Tree) → first_fault t ≡ None → PathsBreak t (NamesNoTarget (ordered (raw_of t)) (resolved (ordered (raw_of t)))) (wrong_acl_ports (ordered (raw_of t)) (resolved (ordered (raw_of t)))) }
{}

/// Rule 9: what is told of asks for a field, and its rule asks for none of those that this field needs (OpenFlow
/// 1.3, 7.2.3.6).
pub fn what_rule_9_tells_of_lacks_another_field()
    ensures { (t : Tree) → first_fault t ≡ None → PathsBreak t (ToldAs (Conflict 9) (LacksPrerequisite (ordered (raw_of t)))) (lacking_rules (ordered (raw_of t))) }
{}

/// Rule 10: what is told of is a mirrored port that isn't there, is the mirror itself or is no edge port; or it
/// is what a mirror mirrors that has a VLAN, an ACL or a stack link.
pub fn what_rule_10_tells_of_may_not_be_mirrored()
    ensures { (t : Tree) → first_fault t ≡ None → PathsBreak t (IsWrongMirror (ordered (raw_of t))) (wrong_mirrors (ordered (raw_of t)) (resolved (ordered (raw_of t)))) }
{}

/// Rule 11: what is told of is a stack link whose far end isn't there, is on the same datapath or doesn't point
/// back, or whose near end isn't free.
pub fn what_rule_11_tells_of_is_no_link()
    ensures { (t : Tree) → first_fault t ≡ None → PathsBreak t (IsWrongStack (ordered (raw_of t)) (resolved (ordered (raw_of t)))) (wrong_stacks (ordered (raw_of t)) (resolved (ordered (raw_of t)))) }
{}

/// Rule 12: what is told of is a VIP, and some address is both of its network and of that of an earlier VIP: of
/// the same VLAN, or of an earlier one that packets are routed to.
pub fn what_rule_12_tells_of_overlaps()
    ensures { (t : Tree) → first_fault t ≡ None → PathsBreak t (ToldAs (Conflict 12) (OverlapsVip (ordered (raw_of t)) (resolved (ordered (raw_of t))))) (overlapping_vips (ordered (raw_of t)) (resolved (ordered (raw_of t)))) }
{}

/// Rule 13: what is told of stands for a VLAN that an earlier router names, too.
pub fn what_rule_13_tells_of_is_routed_twice()
    ensures { (t : Tree) → first_fault t ≡ None → PathsBreak t (ToldAs (Conflict 13) (RoutesAgain (ordered (raw_of t)))) (shared_vlans (ordered (raw_of t)) (resolved (ordered (raw_of t)))) }
{}

/// Rule 14: what is told of is the network of a route, and it lies in that of a VIP that packets of its VLAN are
/// routed to; or it is a gateway that is no neighbour of its VLAN.
pub fn what_rule_14_tells_of_is_a_wrong_route()
    ensures { (t : Tree) → first_fault t ≡ None → PathsBreak t (ToldAs (Conflict 14) (IsWrongRoute (ordered (raw_of t)) (resolved (ordered (raw_of t))))) (wrong_routes (ordered (raw_of t)) (resolved (ordered (raw_of t)))) }
{}

/// Rule 15: what is told of is the network of a route, and an earlier route has the same: of the same VLAN, or of
/// an earlier one that packets are routed to.
pub fn what_rule_15_tells_of_is_routed_before()
    ensures { (t : Tree) → first_fault t ≡ None → PathsBreak t (ToldAs Duplicate (RepeatsRoute (ordered (raw_of t)) (resolved (ordered (raw_of t))))) (repeated_routes (ordered (raw_of t)) (resolved (ordered (raw_of t)))) }
{}

/// Rule 16: what is told of has more than the limit that is told allows; where `vlans` isn't written, more VLANs
/// are named than there may be.
pub fn what_rule_16_tells_of_passes_its_limit()
    ensures { (t : Tree) → first_fault t ≡ None → LimitsBreak t (ordered (raw_of t)) (resolved (ordered (raw_of t))) (passed_limits (ordered (raw_of t)) (resolved (ordered (raw_of t)))) }
{}
