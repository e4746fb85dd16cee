//! A hub over links in memory, call by call.

use crate::links::{Narrow, calls_of, nexts_of};
use fg_links::{MemPoller, Told};
use fg_outside::{Happening, Hub, Turn};
use link_hub::LinkHub;
use net_base::NoMemory;
use std::alloc::Global;
use std::fmt::Write;
use test_lines::bytes_of;

/// A turn in few words.
fn turn_text(alloc: Global, turn: &Turn) -> Result<String, NoMemory> {
    match turn {
        Turn::Happened(Happening::Opened(conn)) => format!(in alloc; "opened {conn}"),
        Turn::Happened(Happening::Heard { conn, piece }) if piece.len() < 9 => {
            let digits = hex::encode(alloc, piece.as_slice())?;
            format!(in alloc; "heard {conn} {digits}")
        }
        Turn::Happened(Happening::Heard { conn, piece }) => {
            format!(in alloc; "heard {conn} {} bytes", piece.len())
        }
        Turn::Happened(Happening::Closed { conn, cause }) => {
            format!(in alloc; "closed {conn} {cause:?}")
        }
        Turn::Happened(Happening::Moment(moment)) => format!(in alloc; "moment {moment}"),
        Turn::Happened(Happening::Reload(_)) => format!(in alloc; "reload"),
        Turn::Done => format!(in alloc; "done"),
        Turn::Failed => format!(in alloc; "failed"),
        Turn::Memory => format!(in alloc; "no memory"),
    }
}

/// What a link was given.
fn given_text(alloc: Global, link: Option<&Narrow>) -> Result<String, NoMemory> {
    match link {
        None => format!(in alloc; "no link"),
        Some(link) => {
            let written = link.link().written();
            let digits = hex::encode(alloc, &written[..written.len().min(20)])?;
            format!(in alloc; "holds {digits}")
        }
    }
}

/// The answer to a call: `turn`, `pass` for one that isn't told, `say:N:DIGITS`, `fill:N` for 65,536 bytes said,
/// `close:N`, or `link:N` for what that link was given.
fn call_text(
    alloc: Global,
    hub: &mut LinkHub<MemPoller<Narrow>>,
    call: &str,
) -> Result<String, NoMemory> {
    let mut parts = call.split(':');
    let name = parts.next().unwrap_or("");
    let conn = parts.next().unwrap_or("").parse::<u32>().unwrap_or(0);
    match name {
        "turn" => turn_text(alloc, &hub.turn()),
        "pass" => {
            let _ = hub.turn();
            format!(in alloc; "a turn")
        }
        "say" => {
            let piece = bytes_of(alloc, parts.next().unwrap_or(""))?;
            format!(in alloc; "{:?}", hub.say(conn, piece.as_slice()))
        }
        "fill" => format!(in alloc; "{:?}", hub.say(conn, &[0; 65_536])),
        "close" => {
            hub.close(conn);
            format!(in alloc; "close {conn}")
        }
        "link" => given_text(alloc, hub.link(conn)),
        _ => format!(in alloc; "no such call"),
    }
}

/// Texts one behind the other, equal ones behind each other once, with their number.
#[derive(Drop)]
struct Grouped {
    last: String,
    count: u32,
}

impl Grouped {
    /// Writes the last text.
    fn write_last(&self, out: &mut String) -> Result<(), NoMemory> {
        match self.count {
            0 => Ok(()),
            1 => write!(out, "{}; ", self.last),
            _ => write!(out, "{} ({} times); ", self.last, self.count),
        }
    }

    /// One text more.
    fn add(&mut self, out: &mut String, text: String) -> Result<(), NoMemory> {
        if text.as_str() != self.last.as_str() {
            self.write_last(out)?;
            self.count = 0;
        }
        self.count = self.count.saturating_add(1);
        self.last = text;
        Ok(())
    }
}

/// Writes the answers to a call, `N*` before which makes it so often.
fn write_calls(
    out: &mut String,
    alloc: Global,
    hub: &mut LinkHub<MemPoller<Narrow>>,
    word: &str,
) -> Result<(), NoMemory> {
    let (times, call) = word.split_once('*').unwrap_or(("1", word));
    let mut answers = Grouped {
        last: String::new(alloc),
        count: 0,
    };
    for _ in 0..times.parse::<u32>().unwrap_or(0) {
        let text = call_text(alloc, hub, call)?;
        answers.add(out, text)?;
    }
    answers.write_last(out)
}

/// Writes what a poller was told.
fn write_told(out: &mut String, alloc: Global, told: Option<&[Told]>) -> Result<(), NoMemory> {
    out.push_str("told ")?;
    let mut calls = Grouped {
        last: String::new(alloc),
        count: 0,
    };
    for call in told.unwrap_or(&[]) {
        let text = match call {
            Told::Quiet(conn) => format!(in alloc; "quiet {conn}")?,
            Told::Gone(conn) => format!(in alloc; "gone {conn}")?,
        };
        calls.add(out, text)?;
    }
    calls.write_last(out)
}

/// Writes what a hub answers over a poller with this list, and what the poller was told.
pub fn write_served(out: &mut String, alloc: Global, text: &str) -> Result<(), NoMemory> {
    let (given, calls) = text.split_once('|').unwrap_or((text, ""));
    let fail = calls_of(alloc, given.split_once(' ').unwrap_or((given, "")).0)?;
    let mut nexts = nexts_of(alloc, given)?;
    nexts.truncate(5_000);
    let poller = MemPoller::new(alloc, nexts, 2_000, fail)?;
    let mut hub = LinkHub::new(alloc, poller);
    for word in calls.split_whitespace() {
        write_calls(out, alloc, &mut hub, word)?;
    }
    let poller = hub.into_poller();
    write_told(out, alloc, poller.told())
}
