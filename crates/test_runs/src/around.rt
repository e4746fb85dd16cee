//! What is around a run: the hub that `serve` is handed, and what it was told.

use crate::bench::Outside;
use crate::links::{run_heard, run_link};
use crate::runs::answer;
use fg_links::{MemHub, StoryStep};
use fg_outside::{CallNos, EndCause, Happening, Happenings, MemFiles, NoHub};
use net_base::NoMemory;
use std::alloc::Global;
use std::fmt::Write;
use test_lines::bytes_of;

/// The hub of a run.
#[derive(Drop)]
pub enum Around {
    Nothing,
    /// One that gives the turns of this line.
    Turns(String),
    /// One over a poller that opens a link and stops.
    Link,
    /// One over a poller that fails at once.
    Broken,
    /// One over a poller and a link that is heard, as this line says.
    Heard(String),
}

/// A turn: `opened:N`, `heard:N:DIGITS`, `closed:N` or `moment:N`.
fn turn_of(alloc: Global, word: &str) -> Result<Happening, NoMemory> {
    let mut parts = word.split(':');
    let name = parts.next().unwrap_or("");
    let number = parts.next().unwrap_or("").parse::<u64>().unwrap_or(0);
    let conn = number.min(1_000) as u32;
    Ok(match name {
        "opened" => Happening::Opened(conn),
        "heard" => Happening::Heard {
            conn,
            piece: bytes_of(alloc, parts.next().unwrap_or(""))?,
        },
        "closed" => Happening::Closed {
            conn,
            cause: EndCause::End,
        },
        _ => Happening::Moment(number),
    })
}

/// A hub that gives these turns; behind `fail:N` the N-th call fails.
pub fn hub_of(alloc: Global, line: &str) -> Result<MemHub, NoMemory> {
    let mut turns = Happenings::new(alloc);
    let mut fail = CallNos::new(alloc);
    for word in line.split_whitespace() {
        match word.strip_prefix("fail:") {
            Some(number) => fail.push(number.parse::<u64>().unwrap_or(0))?,
            None => turns.push(turn_of(alloc, word)?)?,
        }
    }
    Ok(MemHub::new(alloc, turns, fail))
}

/// What a hub was told.
pub fn put_told(alloc: Global, text: &mut String, story: &[StoryStep]) -> Result<(), NoMemory> {
    for step in story {
        match step {
            StoryStep::Gave(Happening::Reload(_)) => text.push_str("\n hub gave a reload")?,
            StoryStep::Gave(_) => text.push_str("\n hub gave a turn")?,
            StoryStep::Said { conn, piece } => {
                write!(text, "\n  said {conn} ")?;
                text.push_str(hex::encode(alloc, piece.as_slice())?.as_str())?;
            }
            StoryStep::Closed(conn) => write!(text, "\n  closed {conn}")?,
        }
    }
    Ok(())
}

/// Runs the program with what is around it, and tells its status, what it wrote and what its hub was told.
pub fn run_around(
    alloc: Global,
    line: &str,
    files: MemFiles,
    outside: Outside,
    around: &Around,
) -> Result<String, NoMemory> {
    match around {
        Around::Nothing => Ok(answer(alloc, line, files, NoHub, outside)?.0),
        Around::Turns(turns) => {
            let hub = hub_of(alloc, turns.as_str())?;
            let (mut text, hub) = answer(alloc, line, files, hub, outside)?;
            put_told(alloc, &mut text, hub.story())?;
            Ok(text)
        }
        Around::Link => run_link(alloc, line, files, outside, 0),
        Around::Broken => run_link(alloc, line, files, outside, 1),
        Around::Heard(given) => run_heard(alloc, line, files, outside, given.as_str()),
    }
}
