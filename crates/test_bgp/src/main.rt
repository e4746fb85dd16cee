//! Cases of a BGP peer: what stands at the front of bytes, messages, and whole stories with the routes that they lead to,
//! with texts of configurations, and with records.
//! Each line of the input is a case, and is printed with its answer; an empty line, and one that begins with
//! `#`, is printed as it is. Bytes stand in hexadecimal digits, and `«COUNT:PIECE»` for the piece so many
//! times.
#![tactic(auto)]

mod messages;
mod spoken;
mod story;
mod texts;

use net_base::NoMemory;
use std::alloc::Global;
use std::io;
use test_lines::{Answers, bytes_of, print_answered};

/// Each case stands alone.
#[derive(Drop)]
struct Alone;

/// Writes what is said of a case.
fn write_answer(out: &mut String, alloc: Global, kind: &str, text: &str) -> Result<(), NoMemory> {
    match kind {
        "front" => messages::write_front(out, bytes_of(alloc, text)?.as_slice()),
        "heard" => messages::write_heard(out, alloc, text),
        "faults" => messages::write_faults(out),
        "story" => story::write_story(out, alloc, text),
        "text" => texts::write_text(out, alloc, text),
        "spoken" => spoken::write_spoken(out, alloc, text),
        _ => out.push_str("no such kind"),
    }
}

impl Answers for Alone {
    fn answer(&mut self, alloc: Global, line: &str) -> Result<String, NoMemory> {
        let (kind, text) = line.split_once(' ').unwrap_or((line, ""));
        let mut out = String::from_str(alloc, " => ")?;
        write_answer(&mut out, alloc, kind, text)?;
        Ok(out)
    }
}

fn main(rt: HostRuntime) -> io::Result<()> {
    print_answered(&rt, &mut Alone)
}
