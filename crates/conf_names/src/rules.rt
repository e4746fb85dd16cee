//! The rules on names and on ports, in their order.

ghost use Rattle.std.specs.Prelude.{◌≡◌, ◌++◌, IfOk};
ghost use Rattle.conf_rules.specs.Names.{unknown_vlans, vlans_twice, unknown_acls, acls_twice};
ghost use Rattle.conf_rules.specs.Places.{first};
ghost use Rattle.conf_rules.specs.Rules.{name_faults, port_faults};

use crate::names::{acls_twice, repeated_dps, repeated_ports, repeated_vlans};
use crate::ports::{wrong_mirrors, wrong_stacks};
use crate::targets::{lacking_rules, wrong_acl_ports};
use crate::unknown::{unknown_acls, unknown_vlans, vlans_twice};
use conf_resolve::{OrderedConf, Resolved};
use conf_rules::Found;
use conf_shape::ConfFault;
use net_base::NoMemory;
use std::alloc::Global;

#[tactic(auto, using(conf_rules::proofs::First::first_rules))]
fn unknown_names(alloc: Global, ordered: &OrderedConf, conf: &Resolved) -> Found
    ensures { IfOk result (λ found. found ≡ first (unknown_vlans ordered.now ++ (vlans_twice ordered.now ++ (unknown_acls ordered.now conf.now ++ acls_twice ordered.now)))) }
{
    if let Some(found) = unknown_vlans(alloc, ordered)? {
        return Ok(Some(found));
    }
    if let Some(found) = vlans_twice(alloc, ordered)? {
        return Ok(Some(found));
    }
    if let Some(found) = unknown_acls(alloc, ordered, conf)? {
        return Ok(Some(found));
    }
    acls_twice(alloc, ordered)
}

/// The first place where one of rules 1 to 7 is broken, rule by rule; `None` where none is. The only
/// error is that memory runs out.
#[tactic(auto, using(conf_rules::proofs::First::first_rules))]
pub fn find_name_fault(
    alloc: Global,
    ordered: &OrderedConf,
    conf: &Resolved,
) -> Result<Option<ConfFault>, NoMemory>
    ensures { IfOk result (λ fault. fault ≡ first (name_faults ordered.now conf.now)) }
{
    if let Some(found) = repeated_vlans(alloc, ordered)? {
        return Ok(Some(found));
    }
    if let Some(found) = repeated_dps(alloc, ordered)? {
        return Ok(Some(found));
    }
    if let Some(found) = repeated_ports(alloc, ordered)? {
        return Ok(Some(found));
    }
    unknown_names(alloc, ordered, conf)
}

/// The first place where one of rules 8 to 11 is broken, rule by rule; `None` where none is. The only
/// error is that memory runs out.
#[tactic(auto, using(conf_rules::proofs::First::first_rules))]
pub fn find_port_fault(
    alloc: Global,
    ordered: &OrderedConf,
    conf: &Resolved,
) -> Result<Option<ConfFault>, NoMemory>
    ensures { IfOk result (λ fault. fault ≡ first (port_faults ordered.now conf.now)) }
{
    if let Some(found) = wrong_acl_ports(alloc, ordered, conf)? {
        return Ok(Some(found));
    }
    if let Some(found) = lacking_rules(alloc, ordered)? {
        return Ok(Some(found));
    }
    if let Some(found) = wrong_mirrors(alloc, ordered, conf)? {
        return Ok(Some(found));
    }
    wrong_stacks(alloc, ordered, conf)
}
