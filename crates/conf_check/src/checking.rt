ghost use Rattle.std.specs.Prelude.{◌≡◌, None, Ok, IfOk, IfErr, OnOk};
ghost use Rattle.conf_resolve.specs.InRange.{IsInRange};
ghost use Rattle.conf_check.specs.Accepted.{unless, meant_by, broken_rule, conf_of, BreaksRule, IsRefused};

use crate::rules::find_broken_rule;
use conf_resolve::{arrange, resolve};
use conf_shape::{ConfFault, ConfRefused, RawConf, shape};
use conf_types::Conf;
use law_checks::ranges::a_document_of_the_right_shape_is_in_range;
use law_checks::valid::what_breaks_no_rule_is_valid;
use net_base::NoMemory;
use std::alloc::Global;
use yaml_tree::Tree;

/// What a raw configuration gives: a configuration, or the first rule that is broken.
fn checked(alloc: Global, raw: &RawConf) -> Result<Result<Conf, ConfFault>, NoMemory>
    requires { IsInRange raw.now }
    ensures { IfOk result (λ made. made ≡ unless (broken_rule raw.now) (Ok (meant_by raw.now))) }
{
    what_breaks_no_rule_is_valid();
    let ordered = arrange(alloc, raw)?;
    let conf = resolve(alloc, &ordered)?;
    match find_broken_rule(alloc, &ordered, &conf)? {
        Some(fault) => Ok(Err(fault)),
        None => {
            let (dps, vlans, acls, routers) = conf.into_lists();
            Ok(Ok(Conf::new(dps, vlans, acls, routers)))
        }
    }
}

/// The configuration that a raw one stands for, whose values are in the ranges of their keys; the
/// first rule that is broken, and its place, exactly where there is one.
pub fn check(alloc: Global, raw: &RawConf) -> Result<Conf, ConfRefused>
    requires { IsInRange raw.now }
    ensures accepted { IfOk result (λ conf. conf ≡ meant_by raw.now) }
    ensures unbroken { OnOk result (broken_rule raw.now ≡ None) }
    ensures refused { IfErr result (BreaksRule raw.now) }
{
    match checked(alloc, raw) {
        Ok(Ok(conf)) => Ok(conf),
        Ok(Err(fault)) => Err(ConfRefused::At(fault)),
        Err(_) => Err(ConfRefused::Memory),
    }
}

/// The configuration of a document. Its first fault exactly where it has one: a fault of its shape,
/// in the order of the document, and else the first rule that is broken.
pub fn conf_of_tree(alloc: Global, tree: &Tree) -> Result<Conf, ConfRefused>
    ensures accepted { IfOk result (λ conf. conf_of tree.now ≡ Ok conf) }
    ensures refused { IfErr result (IsRefused tree.now) }
{
    a_document_of_the_right_shape_is_in_range();
    match shape(alloc, tree) {
        Ok(raw) => check(alloc, &raw),
        Err(refused) => Err(refused),
    }
}
