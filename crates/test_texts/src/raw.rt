use conf_shape::{ConfRefused, OneOrList, RawOutput, RawRule, shape};
use net_base::NoMemory;
use std::alloc::{AllocError, Global};
use yaml_tree::Tree;

fn write_output(out: &mut String, to: &RawOutput) -> Result<(), NoMemory> {
    write!(out, " to {:?} {:?}", to.port, to.ports)
}

fn write_outputs(out: &mut String, output: &OneOrList<RawOutput>) -> Result<(), NoMemory> {
    match output {
        OneOrList::One(to) => write_output(out, to),
        OneOrList::List(list) => {
            out.push_str(" list")?;
            for to in list.as_slice() {
                write_output(out, to)?;
            }
            Ok(())
        }
    }
}

/// Writes a rule as it is written: its fields by key, number, value and mask, and its actions.
fn write_rule(out: &mut String, rule: &RawRule) -> Result<(), NoMemory> {
    for it in rule.fields.as_slice() {
        let (key, number) = (it.key.as_str(), it.field.id.number());
        write!(
            out,
            "{key} {number} {:#x}/{:#x}; ",
            it.field.value, it.field.mask
        )?;
    }
    write!(out, "allow {}, mirror {:?},", rule.allow, rule.mirror)?;
    write_outputs(out, &rule.output)
}

/// Writes the rules of the first ACL as they are written.
pub fn write_rules(out: &mut String, alloc: Global, tree: &Tree) -> Result<(), NoMemory> {
    let raw = match shape(alloc, tree) {
        Ok(raw) => raw,
        Err(ConfRefused::Memory) => return Err(AllocError),
        Err(ConfRefused::At(_)) => return out.push_str("refused"),
    };
    if let Some(acl) = raw.acls.get(0) {
        out.push_str(acl.name.as_str())?;
        for rule in acl.rules.as_slice() {
            out.push_str("; ")?;
            write_rule(out, rule)?;
        }
    }
    Ok(())
}
