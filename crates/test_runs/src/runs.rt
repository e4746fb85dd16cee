//! One run, and how it is printed.

use crate::bench::Outside;
use faucet_top::{faucet, refuse_for_memory};
use fg_outside::{CallNos, Hub, MemFiles, MemSink};
use net_base::{Names, NoMemory, Text};
use std::alloc::Global;
use std::fmt::Write;
use std::str::from_utf8;
use test_lines::write_escaped;

/// The words of a line, of which `''` is the empty one.
pub fn words(alloc: Global, line: &str) -> Result<Names, NoMemory> {
    let mut words = Names::new(alloc);
    for word in line.split_whitespace() {
        let word = if word == "''" { "" } else { word };
        words.push(Text::from_str(alloc, word)?)?;
    }
    Ok(words)
}

/// The length that the header of an OpenFlow message tells (OpenFlow 1.3, 7.1), big-endian.
fn told_len(bytes: &[u8]) -> usize {
    match bytes {
        [_, _, high, low, ..] => usize::from(*high) << 8 | usize::from(*low),
        _ => 0,
    }
}

/// The length of the record at the front of a recording: its header has 17 bytes, of which the last 4 tell how
/// many follow, big-endian.
fn record_len(bytes: &[u8]) -> usize {
    match bytes.get(13..17) {
        Some([_, high, middle, low]) => {
            17 + (usize::from(*high) << 16 | usize::from(*middle) << 8 | usize::from(*low))
        }
        _ => 0,
    }
}

/// What bytes are a row of.
#[derive(Clone, Copy)]
enum Row {
    Messages,
    Records,
}

/// The length that the first of a row tells.
fn first_len(row: Row, bytes: &[u8]) -> usize {
    match row {
        Row::Messages => told_len(bytes),
        Row::Records => record_len(bytes),
    }
}

/// A row in hexadecimal digits, one message or record a line.
fn put_each(alloc: Global, out: &mut String, row: Row, bytes: &[u8]) -> Result<(), NoMemory> {
    let mut left = bytes;
    for _ in 0..bytes.len() {
        if left.is_empty() {
            break;
        }
        let len = first_len(row, left).clamp(1, left.len());
        let (one, behind) = left.split_at(len);
        out.push_str("\n  ")?;
        out.push_str(hex::encode(alloc, one)?.as_str())?;
        left = behind;
    }
    Ok(())
}

/// What a stream took: messages, as they begin with a version; records, as they begin with a moment that isn't
/// so great; or else a text in one line.
pub fn put_written(
    alloc: Global,
    out: &mut String,
    name: &str,
    bytes: &[u8],
) -> Result<(), NoMemory> {
    match bytes {
        [] => Ok(()),
        [4, ..] => {
            write!(out, "\n {name}, {} bytes:", bytes.len())?;
            put_each(alloc, out, Row::Messages, bytes)
        }
        [0, ..] => {
            write!(out, "\n {name}, {} bytes:", bytes.len())?;
            put_each(alloc, out, Row::Records, bytes)
        }
        _ => {
            write!(out, "\n {name}: ")?;
            write_escaped(out, from_utf8(bytes).unwrap_or("no text"))
        }
    }
}

/// Messages, one a line.
pub fn put_messages(alloc: Global, out: &mut String, bytes: &[u8]) -> Result<(), NoMemory> {
    put_each(alloc, out, Row::Messages, bytes)
}

/// Runs the program over a hub, tells its status and what it wrote, and gives the hub back.
pub fn answer<H: Hub + Drop>(
    alloc: Global,
    line: &str,
    files: MemFiles,
    hub: H,
    outside: Outside,
) -> Result<(String, H), NoMemory> {
    let words = words(alloc, line)?;
    let failing_out = CallNos::from_slice(alloc, &[outside.out])?;
    let failing_err = CallNos::from_slice(alloc, &[outside.err])?;
    let mut out = MemSink::new(alloc, outside.room, failing_out)?;
    let mut err = MemSink::new(alloc, 100_000, failing_err)?;
    let (status, _, hub) = faucet(alloc, &words, files, hub, &mut out, &mut err);
    let mut text = format!(in alloc; " => {status}")?;
    put_written(alloc, &mut text, "out", out.as_slice())?;
    put_written(alloc, &mut text, "err", err.as_slice())?;
    Ok((text, hub))
}

/// What is told where memory runs out before the words can be read.
pub fn refuse(alloc: Global, outside: Outside) -> Result<String, NoMemory> {
    let failing = CallNos::from_slice(alloc, &[outside.err])?;
    let mut err = MemSink::new(alloc, 100, failing)?;
    let status = refuse_for_memory(&mut err);
    let mut text = format!(in alloc; " => {status}")?;
    put_written(alloc, &mut text, "err", err.as_slice())?;
    Ok(text)
}
