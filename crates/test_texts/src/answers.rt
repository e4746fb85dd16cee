use crate::asked::write_asked;
use crate::gathered::write_gathered;
use crate::raw::write_rules;
use crate::trees::write_tree;
use conf_check::{TextRefused, conf_of_bytes};
use conf_shape::{ConfFault, find_shape_fault};
use net_base::NoMemory;
use std::alloc::{AllocError, Global};
use std::str::from_utf8;
use yaml_subset::{YamlFault, YamlRefused, print_yaml, read_yaml};
use yaml_tree::Tree;

/// Writes what is said of a text: by the kind its configuration, what a configuration's readers answer, what
/// is gathered of the files that it lists, or what is said of its tree.
pub fn write_answer(
    out: &mut String,
    alloc: Global,
    kind: &str,
    text: &[u8],
) -> Result<(), NoMemory> {
    match kind {
        "conf" => write_checked(out, alloc, text),
        "gather" => write_gathered(out, alloc, text),
        "ask" => write_asked(out, alloc, text),
        _ => match read_yaml(alloc, text) {
            Ok(tree) => write_of_tree(out, alloc, kind, &tree),
            Err(YamlRefused::At(fault)) => write_yaml_fault(out, &fault),
            Err(YamlRefused::Memory) => Err(AllocError),
        },
    }
}

/// Writes the tree, its canonical form, the first fault of its shape, or its rules.
fn write_of_tree(out: &mut String, alloc: Global, kind: &str, tree: &Tree) -> Result<(), NoMemory> {
    match kind {
        "yaml" => write_tree(out, tree),
        "print" => {
            let printed = print_yaml(alloc, tree)?;
            out.push_str(from_utf8(printed.as_slice()).unwrap_or("no text"))
        }
        "shape" => match find_shape_fault(alloc, tree)? {
            Some(fault) => write_conf_fault(out, &fault),
            None => out.push_str("right"),
        },
        "rules" => write_rules(out, alloc, tree),
        _ => out.push_str("no such kind"),
    }
}

fn write_checked(out: &mut String, alloc: Global, text: &[u8]) -> Result<(), NoMemory> {
    match conf_of_bytes(alloc, text) {
        Ok(_) => out.push_str("right"),
        Err(TextRefused::Yaml(fault)) => write_yaml_fault(out, &fault),
        Err(TextRefused::Conf(fault)) => write_conf_fault(out, &fault),
        Err(TextRefused::Memory) => Err(AllocError),
    }
}

pub fn write_yaml_fault(out: &mut String, fault: &YamlFault) -> Result<(), NoMemory> {
    let (cause, form) = fault.cause.names();
    write!(out, "line {}: {cause}{form}", fault.line)
}

pub fn write_conf_fault(out: &mut String, fault: &ConfFault) -> Result<(), NoMemory> {
    let cause = fault.cause;
    write!(out, "{} {cause:?}", fault.path.as_str())
}
