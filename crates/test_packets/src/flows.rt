//! Matches, actions and flow tables. A field is spelled `NUMBER=VALUE/MASK`, both in hexadecimal digits,
//! and fields are joined by commas; an action is `out:PORT`, `push:TYPE`, `pop`, `ttl` or `set:FIELD`.

use net_base::{Field, FieldId, Fields, NoMemory, PortNo, TryCopy};
use of_match::{
    Action, Actions, Command, Entry, Instr, Instrs, Key, Match, Packet, Tables, act, apply, hits,
    run,
};
use pkt_view::packet_of;
use std::alloc::Global;
use std::fmt::Write;
use std::str::SplitWhitespace;
use test_lines::bytes_of;
use test_words::{number, port_no, put_entry};

fn field(text: &str) -> Option<Field> {
    let (number, bits) = text.split_once('=')?;
    let (value, mask) = bits.split_once('/')?;
    let id = FieldId::of_number(number.parse::<u8>().ok()?)?;
    let value = u128::from_str_radix(value, 16).ok()?;
    let mask = u128::from_str_radix(mask, 16).ok()?;
    Some(Field { id, value, mask })
}

fn fields(alloc: Global, words: &mut SplitWhitespace<'_>) -> Result<Fields, NoMemory> {
    let mut fields = Fields::new(alloc);
    for text in words.next().unwrap_or("").split(',') {
        if let Some(field) = field(text) {
            fields.push(field)?;
        }
    }
    Ok(fields)
}

fn action(word: &str) -> Option<Action> {
    match word.split_once(':').unwrap_or((word, "")) {
        ("out", port) => Some(Action::Output {
            port: port.parse::<u32>().ok()?,
            max_len: 0,
        }),
        ("push", eth_type) => Some(Action::PushVlan(u16::from_str_radix(eth_type, 16).ok()?)),
        ("pop", _) => Some(Action::PopVlan),
        ("ttl", _) => Some(Action::DecTtl),
        ("set", text) => Some(Action::Set(field(text)?)),
        _ => None,
    }
}

fn actions(alloc: Global, words: &mut SplitWhitespace<'_>) -> Result<Actions, NoMemory> {
    let mut actions = Actions::new(alloc);
    for word in words {
        if let Some(action) = action(word) {
            actions.push(action)?;
        }
    }
    Ok(actions)
}

/// A port, and the packet of a frame that comes in by it.
fn incoming(
    alloc: Global,
    words: &mut SplitWhitespace<'_>,
) -> Result<Option<(PortNo, Packet)>, NoMemory> {
    let Some(port) = port_no(words) else {
        return Ok(None);
    };
    let frame = bytes_of(alloc, words.next().unwrap_or(""))?;
    match packet_of(alloc, frame.as_slice())? {
        Some(packet) => Ok(Some((port, packet))),
        None => Ok(None),
    }
}

/// Writes whether fields hit a packet.
pub fn write_hits(
    out: &mut String,
    alloc: Global,
    words: &mut SplitWhitespace<'_>,
) -> Result<(), NoMemory> {
    let fields = fields(alloc, words)?;
    match incoming(alloc, words)? {
        Some((port, packet)) => write!(out, "{}", hits(fields.as_slice(), port, &packet)),
        None => out.push_str("no case"),
    }
}

/// Writes what actions make of a packet.
pub fn write_act(
    out: &mut String,
    alloc: Global,
    words: &mut SplitWhitespace<'_>,
) -> Result<(), NoMemory> {
    let Some((port, packet)) = incoming(alloc, words)? else {
        return out.push_str("no case");
    };
    let actions = actions(alloc, words)?;
    write!(out, "{:?}", act(alloc, actions.as_slice(), port, &packet)?)
}

/// Writes what flow tables send of a packet.
pub fn write_run(
    out: &mut String,
    alloc: Global,
    tables: &Tables,
    words: &mut SplitWhitespace<'_>,
) -> Result<(), NoMemory> {
    match incoming(alloc, words)? {
        Some((port, packet)) => write!(out, "{:?}", run(alloc, tables, port, &packet)?),
        None => out.push_str("no case"),
    }
}

fn key(alloc: Global, words: &mut SplitWhitespace<'_>) -> Result<Key, NoMemory> {
    let table = u8::try_from(number(words).unwrap_or(0)).unwrap_or(0);
    let priority = u16::try_from(number(words).unwrap_or(0)).unwrap_or(0);
    let fields = Match::new(alloc, fields(alloc, words)?)?;
    Ok(Key {
        table,
        priority,
        fields,
    })
}

fn sent_to(alloc: Global, words: &mut SplitWhitespace<'_>) -> Result<Instr, NoMemory> {
    let port = u32::try_from(number(words).unwrap_or(0)).unwrap_or(0);
    let actions = Actions::from_slice(alloc, &[Action::Output { port, max_len: 0 }])?;
    Ok(Instr::Apply(actions))
}

fn instrs(alloc: Global, words: &mut SplitWhitespace<'_>) -> Result<Instrs, NoMemory> {
    let mut instrs = Instrs::new(alloc);
    instrs.push(sent_to(alloc, words)?)?;
    if let Some(next) = number(words) {
        instrs.push(Instr::Goto(u8::try_from(next).unwrap_or(0)))?;
    }
    Ok(instrs)
}

fn entry(alloc: Global, words: &mut SplitWhitespace<'_>) -> Result<Entry, NoMemory> {
    let key = key(alloc, words)?;
    let instrs = instrs(alloc, words)?;
    Ok(Entry { key, instrs })
}

/// Clears the tables, adds an entry, or deletes one by its key: a table, a priority, fields, and of an added
/// one a port that it sends to and maybe a table that it goes on to.
pub fn change(
    alloc: Global,
    tables: &mut Tables,
    kind: &str,
    words: &mut SplitWhitespace<'_>,
) -> Result<(), NoMemory> {
    let command = match kind {
        "clear" => Command::DeleteAll,
        "delete" => Command::DeleteStrict(key(alloc, words)?),
        _ => Command::Add(entry(alloc, words)?),
    };
    apply(alloc, tables, &command)
}

/// Writes how many entries the copy of tables has, and these in their order.
pub fn write_tables(out: &mut String, alloc: Global, tables: &Tables) -> Result<(), NoMemory> {
    let copy = tables.copy(alloc)?;
    write!(out, "{}", copy.len())?;
    for entry in copy.iter() {
        out.push_str("; ")?;
        put_entry(alloc, out, entry)?;
    }
    Ok(())
}
