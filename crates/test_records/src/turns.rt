//! A recording, turn by turn.

use fg_outside::{CallNos, Happening, Hub, MemSource, Source, SureSink, SureSource, Turn};
use net_base::{Bytes, NoMemory};
use recording::ScriptHub;
use recording_hub::RecordingHub;
use std::alloc::Global;
use std::fmt::Write;
use std::str::SplitWhitespace;

/// Writes a turn in few words.
fn write_turn(out: &mut String, turn: &Turn) -> Result<(), NoMemory> {
    match turn {
        Turn::Happened(Happening::Opened(conn)) => write!(out, "opened {conn}; "),
        Turn::Happened(Happening::Heard { conn, piece }) => {
            write!(out, "heard {conn} {} bytes; ", piece.len())
        }
        Turn::Happened(Happening::Closed { conn, cause }) => {
            write!(out, "closed {conn} {cause:?}; ")
        }
        Turn::Happened(Happening::Moment(moment)) => write!(out, "moment {moment}; "),
        Turn::Happened(Happening::Reload(_)) => out.push_str("reload; "),
        Turn::Done => out.push_str("done; "),
        Turn::Failed => out.push_str("failed; "),
        Turn::Memory => out.push_str("no memory; "),
    }
}

/// The next turns, so many.
fn write_next<H: Hub>(out: &mut String, hub: &mut H, count: u32) -> Result<(), NoMemory> {
    for _ in 0..count {
        write_turn(out, &hub.turn())?;
    }
    Ok(())
}

/// What a word asks of a hub: `next=COUNT` turns, to say something to a connection or to close it.
fn write_word<H: Hub>(out: &mut String, hub: &mut H, word: &str) -> Result<(), NoMemory> {
    let (name, number) = word.split_once('=').unwrap_or((word, ""));
    let number = number.parse::<u32>().unwrap_or(0);
    match name {
        "next" => write_next(out, hub, number),
        "say" => write!(out, "{:?}; ", hub.say(number, b"x")),
        "close" => {
            hub.close(number);
            Ok(())
        }
        _ => out.push_str("no such word; "),
    }
}

/// Writes why the recording was refused, and the bytes that no turn has read.
fn write_rest(out: &mut String, alloc: Global, hub: ScriptHub<MemSource>) -> Result<(), NoMemory> {
    match hub.refused() {
        Some(refused) => write!(out, "record {} {:?}", refused.number, refused.cause)?,
        None => out.push_str("read")?,
    }
    let mut source = hub.into_source();
    let mut rest = [0; 200];
    match source.read(&mut rest) {
        Ok(count) => write!(out, ", left {}", hex::encode(alloc, &rest[..count])?),
        Err(_) => out.push_str(", failed"),
    }
}

/// Writes what becomes of a recording: the words are the number of its bytes, the number of the read that fails,
/// from 1 on or 0 for none, and then what is asked.
pub fn write_turns(
    out: &mut String,
    alloc: Global,
    records: &[u8],
    words: &mut SplitWhitespace<'_>,
) -> Result<(), NoMemory> {
    let len = words.next().unwrap_or("").parse::<usize>().unwrap_or(0);
    let failing = words.next().unwrap_or("").parse::<u64>().unwrap_or(0);
    let bytes = Bytes::from_slice(alloc, &records[..len.min(records.len())])?;
    let source = MemSource::new(bytes, CallNos::from_slice(alloc, &[failing])?);
    let mut hub = ScriptHub::new(alloc, source);
    for word in words {
        write_word(out, &mut hub, word)?;
    }
    write_rest(out, alloc, hub)
}

/// Writes what becomes of a recording whose turns are recorded again: the words are how many bytes the sink has room
/// for, and then what is asked; behind stand whether the new recording broke off, and its bytes.
pub fn write_again(
    out: &mut String,
    alloc: Global,
    records: &[u8],
    words: &mut SplitWhitespace<'_>,
) -> Result<(), NoMemory> {
    let room = words.next().unwrap_or("").parse::<usize>().unwrap_or(0);
    let source = SureSource::new(Bytes::from_slice(alloc, records)?);
    let sink = SureSink::new(alloc, room)?;
    let mut hub = RecordingHub::new(alloc, ScriptHub::new(alloc, source), sink);
    for word in words {
        write_word(out, &mut hub, word)?;
    }
    write!(out, "broken {}, wrote ", hub.has_failed())?;
    let (_, sink) = hub.into_parts();
    out.push_str(hex::encode(alloc, sink.as_slice())?.as_str())
}
