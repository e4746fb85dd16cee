//! All rules, in their order.

ghost use Rattle.std.specs.Prelude.{◌≡◌, ◌++◌, IfOk};
ghost use Rattle.conf_resolve.specs.Resolved.{resolved};
ghost use Rattle.conf_rules.specs.Places.{first};
ghost use Rattle.conf_rules.specs.Rules.{name_faults, port_faults, routing_faults, first_broken};

use conf_limits::{find_passed_limit, find_routing_fault};
use conf_names::{find_name_fault, find_port_fault};
use conf_resolve::{OrderedConf, Resolved};
use conf_rules::Found;
use conf_shape::ConfFault;
use net_base::NoMemory;
use std::alloc::Global;

/// The first place where a rule before that on limits is broken, rule by rule and in each in the
/// order of its parts; `None` where none is broken.
#[tactic(auto, using(conf_rules::proofs::First::first_rules))]
fn find_broken_before_limits(alloc: Global, ordered: &OrderedConf, conf: &Resolved) -> Found
    ensures { IfOk result (λ fault. fault ≡ first (name_faults ordered.now conf.now ++ (port_faults ordered.now conf.now ++ routing_faults ordered.now conf.now))) }
{
    if let Some(found) = find_name_fault(alloc, ordered, conf)? {
        return Ok(Some(found));
    }
    if let Some(found) = find_port_fault(alloc, ordered, conf)? {
        return Ok(Some(found));
    }
    find_routing_fault(alloc, ordered, conf)
}

/// The first place where a rule is broken, rule by rule and in each in the order of its parts, and
/// the limits last; `None` where none is broken. The only error is that memory runs out.
#[tactic(auto, using(conf_rules::proofs::First::first_rules))]
pub fn find_broken_rule(
    alloc: Global,
    ordered: &OrderedConf,
    conf: &Resolved,
) -> Result<Option<ConfFault>, NoMemory>
    requires { conf.now ≡ resolved ordered.now }
    ensures { IfOk result (λ fault. fault ≡ first_broken ordered.now conf.now) }
{
    if let Some(found) = find_broken_before_limits(alloc, ordered, conf)? {
        return Ok(Some(found));
    }
    find_passed_limit(alloc, ordered, conf)
}
