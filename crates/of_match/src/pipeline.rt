ghost use Rattle.std.specs.Prelude.{◌≡◌, ◌-◌, ◌++◌, [], IfOk, OnOk, OnErr};
ghost use Rattle.std.specs.Option.{option_copied};
ghost use Rattle.of_match.specs.Act.{act_sends, act_left};
ghost use Rattle.of_match.specs.Pipeline.{takes, actions_in, actions_of, goto_of, next_table, keep_first, chosen, run_from, first_run, Pipes};

use crate::action::Instr;
use crate::entry::Entry;
use crate::hit::hits;
use crate::packet::{Packet, Sents};
use crate::perform::act_into;
use crate::tables::Tables;
use net_base::{NoMemory, PortNo, TryCopy};
use std::alloc::Global;

// Whether an entry of a table takes a packet.
fn takes(table: u8, port: PortNo, packet: &Packet, entry: &Entry) -> bool
    ensures { result ≡ takes table port packet.now entry.now }
{
    entry.key.table == table && hits(entry.key.fields.as_slice(), port, packet)
}

// An entry that comes later, if it has a higher priority than the best so far.
fn keep_first<'a>(entry: &'a Entry, best: Option<&'a Entry>) -> &'a Entry
    ensures { result.now ≡ keep_first entry.now (option_copied best.entry) }
{
    match best {
        Some(best) if best.key.priority >= entry.key.priority => best,
        _ => entry,
    }
}

// The first entry of the highest priority that takes a packet in a table.
fn chosen<'a>(tables: &'a Tables, table: u8, port: PortNo, packet: &Packet) -> Option<&'a Entry>
    ensures { option_copied result ≡ chosen tables.now table port packet.now }
{
    let mut best: Option<&'a Entry> = None;
    for entry in tables.iter() {
        if takes(table, port, packet, entry) {
            best = Some(keep_first(entry, best));
        }
    }
    best
}

// The first table that an instruction leads to.
fn goto_of(instrs: &[Instr]) -> Option<u8>
    ensures { result ≡ goto_of instrs.now }
{
    match instrs {
        [] => None,
        [Instr::Goto(table), ..] => Some(*table),
        [Instr::Apply(_), more @ ..] => goto_of(more),
    }
}

// Where a packet goes on from a table.
fn next_table(instrs: &[Instr], table: u8) -> Option<u8>
    ensures { result ≡ next_table instrs.now table }
{
    match goto_of(instrs) {
        Some(next) if table < next => Some(next),
        _ => None,
    }
}

// Does the actions of an instruction in order, and adds what they send to what was sent.
fn act_instr(
    alloc: Global,
    instr: &Instr,
    port: PortNo,
    packet: Packet,
    outs: &mut Sents,
) -> Result<Option<Packet>, NoMemory>
    ensures left { IfOk result (λ left. left ≡ act_left (actions_in instr.now) packet) }
    ensures sent { OnOk result (outs.new ≡ outs.old ++ act_sends (actions_in instr.now) port packet) }
{
    match instr {
        Instr::Goto(_) => Ok(Some(packet)),
        Instr::Apply(actions) => act_into(alloc, actions.as_slice(), port, packet, outs),
    }
}

// Does the actions of the instructions in order, and adds what they send to what was sent.
fn act_instrs(
    alloc: Global,
    instrs: &[Instr],
    port: PortNo,
    packet: Packet,
    outs: &mut Sents,
) -> Result<Option<Packet>, NoMemory>
    ensures left { IfOk result (λ left. left ≡ act_left (actions_of instrs.now) packet) }
    ensures sent { OnOk result (outs.new ≡ outs.old ++ act_sends (actions_of instrs.now) port packet) }
{
    match instrs {
        [] => Ok(Some(packet)),
        [instr, more @ ..] => match act_instr(alloc, instr, port, packet, outs)? {
            Some(left) => act_instrs(alloc, more, port, left, outs),
            None => Ok(None),
        },
    }
}

// Adds what a packet sends from a table on to what was sent.
fn run_into(
    alloc: Global,
    tables: &Tables,
    table: u8,
    port: PortNo,
    packet: Packet,
    outs: &mut Sents,
) -> Result<(), NoMemory>
    ensures { OnOk result (outs.new ≡ outs.old ++ run_from (256 - table) tables.now table port packet) }
{
    let Some(entry) = chosen(tables, table, port, &packet) else {
        return Ok(());
    };
    let Some(left) = act_instrs(alloc, entry.instrs.as_slice(), port, packet, outs)? else {
        return Ok(());
    };
    match next_table(entry.instrs.as_slice(), table) {
        Some(next) => run_into(alloc, tables, next, port, left, outs),
        None => Ok(()),
    }
}

/// Runs a packet that came in by a port through the tables, from table 0 on, and gives what
/// leaves, in order (OpenFlow 1.3, 5.1). Of several best entries of one table the first in key
/// order is taken.
pub fn run(alloc: Global, tables: &Tables, port: PortNo, packet: &Packet) -> Result<Sents, NoMemory>
    ensures allowed { IfOk result (λ outs. Pipes tables.now port packet.now outs) }
    ensures first { IfOk result (λ outs. outs ≡ first_run tables.now port packet.now) }
{
    let mut outs = Sents::new(alloc);
    run_into(alloc, tables, 0, port, packet.copy(alloc)?, &mut outs)?;
    Ok(outs)
}
