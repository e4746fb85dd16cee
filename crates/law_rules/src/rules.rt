//! The laws: each function is empty, and its contract is the law.

ghost use Rattle.std.specs.Prelude.{◌≡◌, ◌↔◌, []};
ghost use Rattle.std.specs.List.{AllByRecursion};
ghost use Rattle.conf_types.specs.Lists.{EachBefore, AreDistinct, IsTextBefore};
ghost use Rattle.conf_types.specs.Routing.{routing_set, vips_in, routes_in};
ghost use Rattle.conf_types.specs.Valid.{vlans_named, MirrorsAreValid, StacksAreValid, RoutesAreValid, IsWithinLimits};
ghost use Rattle.conf_resolve.specs.declared.ordered.OrderedConf.{OrderedConf};
ghost use Rattle.conf_resolve.specs.Resolved.{resolved};
ghost use Rattle.conf_rules.specs.Limits.{passed_limits};
ghost use Rattle.conf_rules.specs.Names.{repeated_vlans, repeated_dps, repeated_ports, unknown_vlans, vlans_twice, unknown_acls, acls_twice};
ghost use Rattle.conf_rules.specs.Ports.{wrong_acl_ports, lacking_rules, wrong_mirrors, wrong_stacks};
ghost use Rattle.conf_rules.specs.Routing.{overlapping_vips, shared_vlans, wrong_routes, repeated_routes};
ghost use Rattle.law_rules.specs.Limits.{AreTold};
ghost use Rattle.law_rules.specs.Rules.{VlansDiffer, DatapathsDiffer, InterfacesDiffer, VlansExist, NamedAclsExist, AttachedPortsExist, HasWhatItAsks, MirroredAreNamed, FarEndsAreNamed, VipsAreApart, SetsAreApart, ShareNone, LeadApart, RoutesDiffer};

/// Rules 1 to 3 are broken nowhere exactly where VLANs, datapaths and the interfaces of each datapath
/// have different numbers and different names.
pub fn rules_1_to_3_keep_numbers_and_names_apart()
    ensures vlans { (o : OrderedConf) → repeated_vlans o ≡ [] ↔ VlansDiffer (resolved o) }
    ensures datapaths { (o : OrderedConf) → repeated_dps o ≡ [] ↔ DatapathsDiffer (resolved o) }
    ensures interfaces { (o : OrderedConf) → repeated_ports o ≡ [] ↔ AllByRecursion InterfacesDiffer (resolved o).dps }
{}

/// So where they are broken nowhere, what the limits count has one number each.
pub fn what_keeps_rules_1_to_3_is_told_by_numbers()
    ensures { (o : OrderedConf) → repeated_vlans o ≡ [] → repeated_dps o ≡ [] → repeated_ports o ≡ [] → AreTold (resolved o) }
{}

/// Rule 4 is broken nowhere exactly where each VLAN that an interface or a router names stands for a
/// number.
pub fn rule_4_is_on_vlans_that_are_named()
    ensures { (o : OrderedConf) → unknown_vlans o ≡ [] ↔ VlansExist o }
{}

/// Rule 5 is broken nowhere exactly where each interface names a VLAN once, as native or as tagged.
pub fn rule_5_is_on_vlans_that_are_named_twice()
    ensures { (o : OrderedConf) → vlans_twice o ≡ [] ↔ AllByRecursion (λ d. AllByRecursion (λ p. AreDistinct (vlans_named p)) d.ports) (resolved o).dps }
{}

/// Rule 6 is broken nowhere exactly where each ACL that an interface or a VLAN names exists, where `acl_in`
/// and `acls_in` stand nowhere together (rule 7).
pub fn rule_6_is_on_acls_that_are_named()
    ensures { (o : OrderedConf) → acls_twice o ≡ [] → unknown_acls o (resolved o) ≡ [] ↔ NamedAclsExist (resolved o) }
{}

/// Rule 8 is broken nowhere exactly where the ports that attached ACLs name exist on each datapath where they
/// are attached, and are no ends of stack links; ACLs stand in the order of their names, as those of each
/// document do.
pub fn rule_8_is_on_ports_that_acls_name()
    ensures { (o : OrderedConf) → EachBefore (λ a b. IsTextBefore a.name b.name) (resolved o).acls
        → wrong_acl_ports o (resolved o) ≡ [] ↔ AttachedPortsExist (resolved o) }
{}

/// Rule 9 is broken nowhere exactly where each rule of an ACL has what its fields ask for (OpenFlow 1.3,
/// 7.2.3.6).
pub fn rule_9_is_on_what_fields_ask_for()
    ensures { (o : OrderedConf) → lacking_rules o ≡ [] ↔ AllByRecursion (λ acl. AllByRecursion HasWhatItAsks acl.rules) (resolved o).acls }
{}

/// Rule 10 is broken nowhere exactly where what is mirrored is an interface of the datapath and mirrors are
/// valid, where interfaces have different numbers (rule 3).
pub fn rule_10_is_on_mirrors()
    ensures { (o : OrderedConf) → AllByRecursion InterfacesDiffer (resolved o).dps
        → wrong_mirrors o (resolved o) ≡ [] ↔ (MirroredAreNamed o × MirrorsAreValid (resolved o)) }
{}

/// Rule 11 is broken nowhere exactly where the far end of each stack link is an interface of a datapath and
/// ends of stack links are valid.
pub fn rule_11_is_on_stack_links()
    ensures { (o : OrderedConf) → wrong_stacks o (resolved o) ≡ [] ↔ (FarEndsAreNamed o × StacksAreValid (resolved o)) }
{}

/// Rule 12 is broken nowhere exactly where the networks of the VIPs of each VLAN, and of the VLANs of each
/// router, don't overlap, but for link-local ones of different VLANs, where VLANs have different numbers (rule
/// 1); and where no VLAN is in two routers (rule 13), exactly where those of each routing set don't. That it is
/// broken nowhere says the latter in any case.
pub fn rule_12_is_on_vips()
    ensures routers { (o : OrderedConf) → EachBefore (λ v w. v.vid ≡ w.vid → ⊥) (resolved o).vlans
        → overlapping_vips o (resolved o) ≡ [] ↔ VipsAreApart (resolved o) }
    ensures sets { (o : OrderedConf) → EachBefore (λ v w. v.vid ≡ w.vid → ⊥) (resolved o).vlans → EachBefore ShareNone (resolved o).routers
        → overlapping_vips o (resolved o) ≡ [] ↔ SetsAreApart (resolved o) }
    ensures always { (o : OrderedConf) → overlapping_vips o (resolved o) ≡ [] → SetsAreApart (resolved o) }
{}

/// Rule 13 is broken nowhere exactly where no VLAN is in two routers.
pub fn rule_13_is_on_routers()
    ensures { (o : OrderedConf) → shared_vlans o (resolved o) ≡ [] ↔ EachBefore ShareNone (resolved o).routers }
{}

/// Rule 14 is broken nowhere exactly where the routes of each VLAN are valid: no route leads into a
/// network of a VIP of the routing set, and each gateway is a neighbour of the VLAN.
pub fn rule_14_is_on_routes()
    ensures { (o : OrderedConf) → wrong_routes o (resolved o) ≡ [] ↔ AllByRecursion (RoutesAreValid (resolved o)) (resolved o).vlans }
{}

/// Rule 15 is broken nowhere exactly where the routes of each VLAN, and of the VLANs of each router, lead to
/// different networks, where VLANs have different numbers (rule 1); and where no VLAN is in two routers
/// (rule 13), exactly where those of each routing set do.
pub fn rule_15_is_on_routes_that_are_given_twice()
    ensures routers { (o : OrderedConf) → EachBefore (λ v w. v.vid ≡ w.vid → ⊥) (resolved o).vlans
        → repeated_routes o (resolved o) ≡ [] ↔ RoutesDiffer (resolved o) }
    ensures sets { (o : OrderedConf) → EachBefore (λ v w. v.vid ≡ w.vid → ⊥) (resolved o).vlans → EachBefore ShareNone (resolved o).routers
        → repeated_routes o (resolved o) ≡ [] ↔ AllByRecursion (λ v. EachBefore LeadApart (routes_in (resolved o) (routing_set (resolved o) v.vid))) (resolved o).vlans }
{}

/// Rule 16 is broken nowhere exactly where the configuration is within all limits.
pub fn rule_16_is_on_limits()
    ensures { (o : OrderedConf) → passed_limits o (resolved o) ≡ [] ↔ IsWithinLimits (resolved o) }
{}
