//! Flow entries and commands, one a line: `table=8 priority=10 vlan_vid=100: pop, output 1`.

use crate::fields::put_field;
use net_base::NoMemory;
use of_match::{Action, CONTROLLER, Command, Entry, IN_PORT, Instr, Key};
use std::alloc::Global;
use std::fmt::Write;

fn put_port(out: &mut String, port: u32, max_len: u16) -> Result<(), NoMemory> {
    match port {
        IN_PORT => out.push_str("output in_port")?,
        CONTROLLER => out.push_str("output controller")?,
        _ => write!(out, "output {port}")?,
    }
    if max_len != 0 {
        write!(out, " up to {max_len:#x}")?;
    }
    Ok(())
}

fn put_action(alloc: Global, out: &mut String, action: &Action) -> Result<(), NoMemory> {
    match action {
        Action::Output { port, max_len } => put_port(out, *port, *max_len),
        Action::PushVlan(eth_type) => write!(out, "push {eth_type:#x}"),
        Action::PopVlan => out.push_str("pop"),
        Action::DecTtl => out.push_str("dec_ttl"),
        Action::Set(field) => {
            out.push_str("set ")?;
            put_field(alloc, out, field)
        }
    }
}

/// Actions in their order, joined by commas.
pub fn put_actions(alloc: Global, out: &mut String, actions: &[Action]) -> Result<(), NoMemory> {
    for (at, action) in actions.iter().enumerate() {
        if at > 0 {
            out.push_str(", ")?;
        }
        put_action(alloc, out, action)?;
    }
    Ok(())
}

fn put_key(alloc: Global, out: &mut String, key: &Key) -> Result<(), NoMemory> {
    write!(out, "table={} priority={}", key.table, key.priority)?;
    for field in key.fields.as_slice() {
        out.push_str(" ")?;
        put_field(alloc, out, field)?;
    }
    Ok(())
}

/// A flow entry: its key, and behind a colon its instructions, joined by semicolons; `drop` for none.
pub fn put_entry(alloc: Global, out: &mut String, entry: &Entry) -> Result<(), NoMemory> {
    put_key(alloc, out, &entry.key)?;
    out.push_str(if entry.instrs.is_empty() {
        ": drop"
    } else {
        ": "
    })?;
    for (at, instr) in entry.instrs.as_slice().iter().enumerate() {
        if at > 0 {
            out.push_str("; ")?;
        }
        match instr {
            Instr::Goto(table) => write!(out, "goto {table}")?,
            Instr::Apply(actions) => put_actions(alloc, out, actions.as_slice())?,
        }
    }
    Ok(())
}

/// A change of the flow tables.
pub fn put_command(alloc: Global, out: &mut String, command: &Command) -> Result<(), NoMemory> {
    match command {
        Command::Add(entry) => {
            out.push_str("add ")?;
            put_entry(alloc, out, entry)
        }
        Command::DeleteStrict(key) => {
            out.push_str("delete ")?;
            put_key(alloc, out, key)
        }
        Command::DeleteAll => out.push_str("delete all"),
    }
}
