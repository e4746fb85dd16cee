//! The laws: each function is empty, and its contract is the law.

ghost use Rattle.std.specs.Prelude.{◌≡◌, []};
ghost use Rattle.conf_types.specs.Valid.{IsValid};
ghost use Rattle.conf_shape.specs.declared.raw.RawConf.{RawConf};
ghost use Rattle.conf_resolve.specs.declared.ordered.OrderedConf.{OrderedConf};
ghost use Rattle.conf_resolve.specs.InOrder.{ordered};
ghost use Rattle.conf_resolve.specs.InRange.{IsInRange};
ghost use Rattle.conf_resolve.specs.Resolved.{resolved};
ghost use Rattle.conf_rules.specs.Names.{acls_twice};
ghost use Rattle.conf_rules.specs.Rules.{faults};
ghost use Rattle.law_checks.specs.Resolves.{Resolves};

/// A raw configuration whose values are in range and that breaks no rule stands for a valid one.
pub fn what_breaks_no_rule_is_valid()
    ensures { (raw : RawConf) → IsInRange raw → faults (ordered raw) (resolved (ordered raw)) ≡ [] → IsValid (resolved (ordered raw)) }
{}

/// A configuration in order whose names stand for something, that gives `acl_in` and `acls_in`
/// nowhere together and that stands for a valid one breaks no rule.
pub fn what_is_valid_breaks_no_rule()
    ensures { (o : OrderedConf) → Resolves o → acls_twice o ≡ [] → IsValid (resolved o) → faults o (resolved o) ≡ [] }
{}
