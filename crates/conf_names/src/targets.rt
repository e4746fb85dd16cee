//! The ports that ACLs name, and the fields of their rules.

ghost use Rattle.std.specs.Prelude.{◌≡◌, ◌∷◌, ◌++◌, [], IfOk, codes, map};
ghost use Rattle.std.specs.List.{flat_map};
ghost use Rattle.conf_rules.specs.Places.{first, under, nth, nth_of, each_at};
ghost use Rattle.conf_rules.specs.Ports.{port_at_site, wrong_port, wrong_output, actions_site, mirror_at, outputs_at, wrong_rule, wrong_acl, wrong_acl_ports, lacking_fields, lacking_of_acl, lacking_rules};

use crate::dp_tables::Targets;
use conf_resolve::{OrderedConf, Resolved};
use conf_rules::{Found, acl_site, broken, nth, under};
use conf_shape::{ConfCause, OneOrList, RawAcl, RawOutput, RawRule};
use net_base::{Fields, Items, Names, NoMemory, has_prerequisite};
use std::alloc::Global;

/// Where the actions of a rule are written.
fn actions_site(alloc: Global, acl: &RawAcl, at: usize) -> Result<Names, NoMemory>
    ensures { IfOk result (λ site. site ≡ actions_site (nth (codes "acls" ∷ acl.now.name ∷ []) at)) }
{
    let site = nth(alloc, acl_site(alloc, acl)?, at)?;
    under(alloc, under(alloc, site, "rule")?, "actions")
}

/// An output of an ACL's rule, the place of the rule in the ACL, and that of the output where it
/// stands in a list.
#[derive(Drop)]
struct PlacedOutput<'a> {
    acl: &'a RawAcl,
    at: usize,
    place: Option<usize>,
    output: &'a RawOutput,
}

/// Where an output of a rule is written, alone or at its place in a list.
fn output_site(alloc: Global, placed: &PlacedOutput) -> Result<Names, NoMemory>
    ensures { IfOk result (λ site. site ≡ nth_of (under (actions_site (nth (codes "acls" ∷ placed.now.acl.now.name ∷ []) placed.now.at)) (codes "output")) placed.now.place) }
{
    let actions = actions_site(alloc, placed.acl, placed.at)?;
    let site = under(alloc, actions, "output")?;
    match placed.place {
        Some(n) => nth(alloc, site, n),
        None => Ok(site),
    }
}

fn wrong_mirror(alloc: Global, targets: &Targets, acl: &RawAcl, at: usize, rule: &RawRule) -> Found
    ensures { IfOk result (λ found. found ≡ first (flat_map (wrong_port targets.now.conf.now acl.now) (mirror_at (nth (codes "acls" ∷ acl.now.name ∷ []) at, rule.now)))) }
{
    if let Some(name) = &rule.mirror {
        if let Some(cause) = targets.wrong_cause(acl, name) {
            let site = under(alloc, actions_site(alloc, acl, at)?, "mirror")?;
            return broken(alloc, cause, site);
        }
    }
    Ok(None)
}

fn wrong_output_port(alloc: Global, targets: &Targets, placed: &PlacedOutput) -> Found
    ensures { IfOk result (λ found. found ≡ first (flat_map (wrong_port targets.now.conf.now placed.now.acl.now) (port_at_site (nth_of (under (actions_site (nth (codes "acls" ∷ placed.now.acl.now.name ∷ []) placed.now.at)) (codes "output")) placed.now.place) placed.now.output.now.port))) }
{
    if let Some(name) = &placed.output.port {
        if let Some(cause) = targets.wrong_cause(placed.acl, name) {
            let site = under(alloc, output_site(alloc, placed)?, "port")?;
            return broken(alloc, cause, site);
        }
    }
    Ok(None)
}

#[tactic(auto, using(conf_rules::proofs::First::first_rules))]
fn wrong_output_ports(alloc: Global, targets: &Targets, placed: &PlacedOutput) -> Found
    ensures { IfOk result (λ found. found ≡ first (flat_map (wrong_port targets.now.conf.now placed.now.acl.now) (each_at (under (nth_of (under (actions_site (nth (codes "acls" ∷ placed.now.acl.now.name ∷ []) placed.now.at)) (codes "output")) placed.now.place) (codes "ports")) placed.now.output.now.ports))) }
{
    for (i, name) in placed.output.ports.as_slice().iter().enumerate() {
        if let Some(cause) = targets.wrong_cause(placed.acl, name) {
            let site = under(alloc, output_site(alloc, placed)?, "ports")?;
            return broken(alloc, cause, nth(alloc, site, i)?);
        }
    }
    Ok(None)
}

#[tactic(auto, using(conf_rules::proofs::First::first_rules))]
fn wrong_output(alloc: Global, targets: &Targets, placed: &PlacedOutput) -> Found
    ensures { IfOk result (λ found. found ≡ first (wrong_output targets.now.conf.now placed.now.acl.now (nth_of (under (actions_site (nth (codes "acls" ∷ placed.now.acl.now.name ∷ []) placed.now.at)) (codes "output")) placed.now.place, placed.now.output.now))) }
{
    if let Some(found) = wrong_output_port(alloc, targets, placed)? {
        return Ok(Some(found));
    }
    wrong_output_ports(alloc, targets, placed)
}

#[tactic(auto, using(conf_rules::proofs::First::first_rules))]
fn wrong_outputs(
    alloc: Global,
    targets: &Targets,
    acl: &RawAcl,
    at: usize,
    outputs: &[RawOutput],
) -> Found
    ensures { IfOk result (λ found. found ≡ first (flat_map (wrong_output targets.now.conf.now acl.now) (each_at (under (actions_site (nth (codes "acls" ∷ acl.now.name ∷ []) at)) (codes "output")) outputs.now))) }
{
    for (i, output) in outputs.iter().enumerate() {
        let placed = PlacedOutput {
            acl,
            at,
            place: Some(i),
            output,
        };
        if let Some(found) = wrong_output(alloc, targets, &placed)? {
            return Ok(Some(found));
        }
    }
    Ok(None)
}

#[tactic(auto, using(conf_rules::proofs::First::first_rules))]
fn wrong_rule(alloc: Global, targets: &Targets, acl: &RawAcl, at: usize, rule: &RawRule) -> Found
    ensures { IfOk result (λ found. found ≡ first (wrong_rule targets.now.conf.now acl.now (nth (codes "acls" ∷ acl.now.name ∷ []) at, rule.now))) }
{
    if let Some(found) = wrong_mirror(alloc, targets, acl, at, rule)? {
        return Ok(Some(found));
    }
    match &rule.output {
        OneOrList::One(output) => {
            let placed = PlacedOutput {
                acl,
                at,
                place: None,
                output,
            };
            wrong_output(alloc, targets, &placed)
        }
        OneOrList::List(outputs) => wrong_outputs(alloc, targets, acl, at, outputs.as_slice()),
    }
}

#[tactic(auto, using(conf_rules::proofs::First::first_rules))]
fn wrong_acl(alloc: Global, targets: &Targets, acl: &RawAcl) -> Found
    ensures { IfOk result (λ found. found ≡ first (wrong_acl targets.now.conf.now acl.now)) }
{
    for (i, rule) in acl.rules.as_slice().iter().enumerate() {
        if let Some(found) = wrong_rule(alloc, targets, acl, i, rule)? {
            return Ok(Some(found));
        }
    }
    Ok(None)
}

/// The ports that an attached ACL names exist on each datapath where it is attached, and are no ends
/// of stack links.
#[tactic(auto, using(conf_rules::proofs::First::first_rules))]
pub(crate) fn wrong_acl_ports(alloc: Global, ordered: &OrderedConf, conf: &Resolved) -> Found
    ensures { IfOk result (λ found. found ≡ first (wrong_acl_ports ordered.now conf.now)) }
{
    let targets = Targets::of(alloc, conf)?;
    for acl in ordered.acls.as_slice() {
        if let Some(found) = wrong_acl(alloc, &targets, acl)? {
            return Ok(Some(found));
        }
    }
    Ok(None)
}

fn fields_of(alloc: Global, rule: &RawRule) -> Result<Fields, NoMemory>
    ensures { IfOk result (λ fields. fields ≡ map (λ g. g.field) rule.now.fields) }
{
    let mut fields = Items::new(alloc);
    for raw in rule.fields.as_slice() {
        fields.push(raw.field)?;
    }
    Ok(fields)
}

#[tactic(auto, using(conf_rules::proofs::First::first_rules))]
fn lacking_fields(alloc: Global, acl: &RawAcl, at: usize, rule: &RawRule) -> Found
    ensures { IfOk result (λ found. found ≡ first (lacking_fields (nth (codes "acls" ∷ acl.now.name ∷ []) at, rule.now))) }
{
    let fields = fields_of(alloc, rule)?;
    for raw in rule.fields.as_slice() {
        if !has_prerequisite(raw.field.id, fields.as_slice()) {
            let site = nth(alloc, acl_site(alloc, acl)?, at)?;
            let site = under(alloc, under(alloc, site, "rule")?, raw.key.as_str())?;
            return broken(alloc, ConfCause::Conflict(9), site);
        }
    }
    Ok(None)
}

#[tactic(auto, using(conf_rules::proofs::First::first_rules))]
fn lacking_of_acl(alloc: Global, acl: &RawAcl) -> Found
    ensures { IfOk result (λ found. found ≡ first (lacking_of_acl acl.now)) }
{
    for (i, rule) in acl.rules.as_slice().iter().enumerate() {
        if let Some(found) = lacking_fields(alloc, acl, i, rule)? {
            return Ok(Some(found));
        }
    }
    Ok(None)
}

/// A rule has what its fields ask for (OpenFlow 1.3, 7.2.3.6).
#[tactic(auto, using(conf_rules::proofs::First::first_rules))]
pub(crate) fn lacking_rules(alloc: Global, ordered: &OrderedConf) -> Found
    ensures { IfOk result (λ found. found ≡ first (lacking_rules ordered.now)) }
{
    for acl in ordered.acls.as_slice() {
        if let Some(found) = lacking_of_acl(alloc, acl)? {
            return Ok(Some(found));
        }
    }
    Ok(None)
}
