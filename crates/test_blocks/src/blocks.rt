//! Blocks of a datapath.

use conf_types::Dp;
use flow_stats::{Flow, Flows};
use net_base::{Bytes, NoMemory, Text};
use of13_codec::{PortStats, PortStatsList};
use prom_text::{flow_block, port_block, state_block};
use std::alloc::Global;
use std::fmt::Write;
use test_lines::write_repeated;

/// The most lines of a block that is told line by line.
const SHORT: usize = 64;

fn number(word: &str) -> u64 {
    word.parse::<u64>().unwrap_or(0)
}

/// A word up to a colon, and what stands behind that.
fn cut(text: &str) -> (&str, &str) {
    text.split_once(':').unwrap_or((text, ""))
}

fn port_of(item: &str) -> PortStats {
    let (no, values) = cut(item);
    let mut counters = [0_u64; 12];
    for (at, value) in values.split(',').enumerate() {
        if at < 12 {
            counters[at] = number(value);
        }
    }
    PortStats {
        no: no.parse::<u32>().unwrap_or(0),
        counters,
        sec: 5,
        nsec: 6,
    }
}

fn flow_of(alloc: Global, item: &str) -> Result<Flow, NoMemory> {
    let (table, rest) = cut(item);
    let (priority, rest) = cut(rest);
    let (key, rest) = cut(rest);
    let (packets, bytes) = cut(rest);
    let mut made = Bytes::new(alloc);
    if let Ok(piece) = hex::decode(alloc, key) {
        made.append(piece.as_slice())?;
    }
    Ok(Flow {
        table: table.parse::<u8>().unwrap_or(0),
        priority: priority.parse::<u16>().unwrap_or(0),
        cookie: 0,
        packets: number(packets),
        bytes: number(bytes),
        key: made,
    })
}

fn items_of(alloc: Global, text: &str) -> Result<String, NoMemory> {
    let mut items = String::new(alloc);
    write_repeated(&mut items, text)?;
    Ok(items)
}

/// The block of these counters of ports.
pub fn ports(alloc: Global, dp: &Dp, text: &str) -> Result<Text, NoMemory> {
    let items = items_of(alloc, text)?;
    let mut ports = PortStatsList::new(alloc);
    for item in items.split_whitespace() {
        ports.push(port_of(item))?;
    }
    let mut block = Text::new(alloc);
    port_block(alloc, dp, ports.as_slice(), &mut block)?;
    Ok(block)
}

/// The block of these flow entries.
pub fn flows(alloc: Global, dp: &Dp, text: &str) -> Result<Text, NoMemory> {
    let items = items_of(alloc, text)?;
    let mut flows = Flows::new(alloc);
    for item in items.split_whitespace() {
        flows.push(flow_of(alloc, item)?)?;
    }
    let mut block = Text::new(alloc);
    flow_block(alloc, dp, flows.as_slice(), &mut block)?;
    Ok(block)
}

/// The block of a port's state.
pub fn state(alloc: Global, dp: &Dp, text: &str) -> Result<Text, NoMemory> {
    let (port, up) = text.split_once(' ').unwrap_or((text, ""));
    let port = port.parse::<u32>().unwrap_or(0);
    let mut block = Text::new(alloc);
    state_block(alloc, dp, port, up == "up", &mut block)?;
    Ok(block)
}

/// Writes a block line by line, or, of a long one, how many lines it has and two of them.
pub fn write_block(out: &mut String, block: &str) -> Result<(), NoMemory> {
    let count = block.lines().count();
    if count > SHORT {
        write!(out, "{count} lines")?;
    }
    for (at, line) in block.lines().enumerate() {
        if count <= SHORT || at == 1 || at + 2 == count {
            out.push_str("\n  ")?;
            out.push_str(line)?;
        }
    }
    Ok(())
}
