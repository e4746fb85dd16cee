ghost use Rattle.std.specs.Prelude.{◌≡◌, IfOk};
ghost use Rattle.plan_base.specs.Entries.{entry, leads_to};

use crate::table::Table;
use net_base::{Field, NoMemory};
use of_match::{Actions, Entry, Instr, Instrs, Key, Match};
use std::alloc::Global;

/// The instructions that do these actions, if there are any, and lead on to a table, if one is
/// named.
pub fn leads_to(alloc: Global, actions: Actions, next: Option<Table>) -> Result<Instrs, NoMemory>
    ensures { IfOk result (λ made. made ≡ leads_to actions next) }
{
    let mut instrs = Instrs::new(alloc);
    if !actions.is_empty() {
        instrs.push(Instr::Apply(actions))?;
    }
    if let Some(table) = next {
        instrs.push(Instr::Goto(table.number()))?;
    }
    Ok(instrs)
}

/// The flow entry of a table, a priority, a match and instructions.
pub fn make_entry(
    alloc: Global,
    table: Table,
    priority: u16,
    fields: &[Field],
    instrs: Instrs,
) -> Result<Entry, NoMemory>
    ensures { IfOk result (λ made. made ≡ entry table priority fields.now instrs) }
{
    let key = Key {
        table: table.number(),
        priority,
        fields: Match::from_slice(alloc, fields)?,
    };
    Ok(Entry { key, instrs })
}
