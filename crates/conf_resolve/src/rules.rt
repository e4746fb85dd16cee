//! What ACLs stand for.

ghost use Rattle.std.specs.Prelude.{◌≡◌, ◌++◌, map, nat_lt, IfOk, OnOk};
ghost use Rattle.std.specs.List.{flat_map};
ghost use Rattle.std.proofs.lemmas.List.Sorted.{IsStrictWeakOrder-by_number};
ghost use Rattle.net_base.specs.FieldId.{number_of};
ghost use Rattle.conf_resolve.specs.Resolved.{to_list, items_of, ports_of, rule_of, acl_of};

use crate::order::{Ranked, in_order};
use conf_shape::{OneOrList, RawAcl, RawField, RawOutput, RawRule};
use conf_types::{Acl, Acls, PortRef, PortRefs, Rule, Rules};
use net_base::{Field, Fields, NoMemory, TryCopy};
use std::alloc::Global;
use std::cmp::Ordering;

impl Ranked for Field {
    ghost before = { λ f g. nat_lt (number_of f.id) (number_of g.id) };

    ghost ranks = { IsStrictWeakOrder-by_number (λ f. number_of f.id) };

    fn rank(&self, other: &Field) -> Ordering {
        self.id.number().cmp(&other.id.number())
    }
}

fn plain_fields(alloc: Global, fields: &[RawField]) -> Result<Fields, NoMemory>
    ensures { IfOk result (λ made. made ≡ map (λ f. f.field) fields.now) }
{
    let mut made = Fields::new(alloc);
    for field in fields {
        made.push(field.field)?;
    }
    Ok(made)
}

fn push_port(ports: &mut PortRefs, alloc: Global, port: &Option<PortRef>) -> Result<(), NoMemory>
    ensures { OnOk result (ports.new ≡ ports.old ++ to_list port.now) }
{
    match port {
        Some(port) => ports.push(port.copy(alloc)?),
        None => Ok(()),
    }
}

fn push_ports(ports: &mut PortRefs, alloc: Global, others: &[PortRef]) -> Result<(), NoMemory>
    ensures { OnOk result (ports.new ≡ ports.old ++ others.now) }
{
    for port in others {
        ports.push(port.copy(alloc)?)?;
    }
    Ok(())
}

/// Adds the ports of one map of `output`.
fn push_output(ports: &mut PortRefs, alloc: Global, output: &RawOutput) -> Result<(), NoMemory>
    ensures { OnOk result (ports.new ≡ ports.old ++ ports_of output.now) }
{
    push_port(ports, alloc, &output.port)?;
    push_ports(ports, alloc, output.ports.as_slice())
}

fn push_outputs(ports: &mut PortRefs, alloc: Global, outputs: &[RawOutput]) -> Result<(), NoMemory>
    ensures { OnOk result (ports.new ≡ ports.old ++ flat_map ports_of outputs.now) }
{
    for output in outputs {
        push_output(ports, alloc, output)?;
    }
    Ok(())
}

fn resolve_output(alloc: Global, output: &OneOrList<RawOutput>) -> Result<PortRefs, NoMemory>
    ensures { IfOk result (λ ports. ports ≡ flat_map ports_of (items_of output.now)) }
{
    let mut ports = PortRefs::new(alloc);
    match output {
        OneOrList::One(output) => push_output(&mut ports, alloc, output)?,
        OneOrList::List(outputs) => push_outputs(&mut ports, alloc, outputs.as_slice())?,
    }
    Ok(ports)
}

fn resolve_mirror(alloc: Global, mirror: &Option<PortRef>) -> Result<PortRefs, NoMemory>
    ensures { IfOk result (λ ports. ports ≡ to_list mirror.now) }
{
    let mut ports = PortRefs::new(alloc);
    push_port(&mut ports, alloc, mirror)?;
    Ok(ports)
}

fn resolve_rule(alloc: Global, rule: &RawRule) -> Result<Rule, NoMemory>
    ensures { IfOk result (λ made. made ≡ rule_of rule.now) }
{
    let fields = plain_fields(alloc, rule.fields.as_slice())?;
    Ok(Rule {
        fields: in_order(fields)?,
        allow: rule.allow,
        output: resolve_output(alloc, &rule.output)?,
        mirror: resolve_mirror(alloc, &rule.mirror)?,
    })
}

fn resolve_rules(alloc: Global, rules: &[RawRule]) -> Result<Rules, NoMemory>
    ensures { IfOk result (λ made. made ≡ map rule_of rules.now) }
{
    let mut made = Rules::new(alloc);
    for rule in rules {
        made.push(resolve_rule(alloc, rule)?)?;
    }
    Ok(made)
}

fn resolve_acl(alloc: Global, acl: &RawAcl) -> Result<Acl, NoMemory>
    ensures { IfOk result (λ made. made ≡ acl_of acl.now) }
{
    Ok(Acl {
        name: acl.name.copy(alloc)?,
        rules: resolve_rules(alloc, acl.rules.as_slice())?,
    })
}

pub fn resolve_acls(alloc: Global, acls: &[RawAcl]) -> Result<Acls, NoMemory>
    ensures { IfOk result (λ made. made ≡ map acl_of acls.now) }
{
    let mut made = Acls::new(alloc);
    for acl in acls {
        made.push(resolve_acl(alloc, acl)?)?;
    }
    Ok(made)
}
