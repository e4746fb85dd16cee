//! Whether the ports of a datapath are ends of stack links, by their numbers and names.

ghost use Rattle.std.specs.Prelude.{◌≡◌, ◌==◌, ℕ, List, Some, IfOk, OnOk, is_some, if◌then◌else◌};
ghost use Rattle.std.specs.Ordering.{nat_cmp};
ghost use Rattle.std.specs.BTreeMap.{get, get_by_text};
ghost use Rattle.conf_types.specs.Lists.{is_same};
ghost use Rattle.conf_names.specs.Ends.{end_numbered, end_named};

use conf_types::Port;
use net_base::NoMemory;
use std::alloc::Global;
use std::collections::BTreeMap;

pub(crate) type NumberedEnds = BTreeMap<u64, bool>;

pub(crate) type NamedEnds = BTreeMap<String, bool>;

/// From now on the port's number leads to it.
fn add_numbered(ends: &mut NumberedEnds, port: &Port) -> Result<(), NoMemory>
    ensures { OnOk result ((n : ℕ) → get nat_cmp ends.new n ≡ (if port.now.no == n then Some (is_some port.now.stack) else get nat_cmp ends.old n)) }
{
    ends.insert(u64::from(port.no.get()), port.stack.is_some())?;
    Ok(())
}

/// Whether the first port of each number is an end.
pub(crate) fn numbered_ends(alloc: Global, ports: &[Port]) -> Result<NumberedEnds, NoMemory>
    ensures { IfOk result (λ ends. (n : ℕ) → get nat_cmp ends n ≡ end_numbered ports.now n) }
{
    let mut ends = BTreeMap::new(alloc);
    for i in (0..ports.len()).rev() {
        add_numbered(&mut ends, &ports[i])?;
    }
    Ok(ends)
}

/// From now on the port's name leads to it.
fn add_named(alloc: Global, ends: &mut NamedEnds, port: &Port) -> Result<(), NoMemory>
    ensures { OnOk result ((t : List ℕ) → get_by_text ends.new t ≡ (if is_same port.now.name t then Some (is_some port.now.stack) else get_by_text ends.old t)) }
{
    let key = String::from_str(alloc, port.name.as_str())?;
    ends.insert(key, port.stack.is_some())?;
    Ok(())
}

/// Whether the first port of each name is an end.
pub(crate) fn named_ends(alloc: Global, ports: &[Port]) -> Result<NamedEnds, NoMemory>
    ensures { IfOk result (λ ends. (t : List ℕ) → get_by_text ends t ≡ end_named ports.now t) }
{
    let mut ends = BTreeMap::new(alloc);
    for i in (0..ports.len()).rev() {
        add_named(alloc, &mut ends, &ports[i])?;
    }
    Ok(ends)
}
