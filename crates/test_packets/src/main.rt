//! Cases of frames, packets and flow tables. Each line of the input is a case, and is printed with its answer;
//! an empty line, and one that begins with `#`, is printed as it is. Frames stand in hexadecimal digits, and
//! `«COUNT:PIECE»` for the piece so many times.
#![tactic(auto)]

mod flows;
mod frames;

use flows::{change, write_act, write_hits, write_run, write_tables};
use frames::{write_frame, write_neighbour};
use net_base::NoMemory;
use of_match::Tables;
use std::alloc::Global;
use std::io;
use test_lines::{Answers, bytes_of, print_answered};

/// The flow tables of the lines before.
#[derive(Drop)]
struct Bench {
    tables: Tables,
}

/// Writes what becomes of the flow tables, or of a packet in them, or the frames of neighbours; `false` where the
/// kind is none of these.
fn write_flows(
    out: &mut String,
    alloc: Global,
    tables: &mut Tables,
    kind: &str,
    text: &str,
) -> Result<bool, NoMemory> {
    let mut words = text.split_whitespace();
    match kind {
        "hits" => write_hits(out, alloc, &mut words)?,
        "act" => write_act(out, alloc, &mut words)?,
        "run" => write_run(out, alloc, tables, &mut words)?,
        "solicit" | "advert" => write_neighbour(out, alloc, kind, &mut words)?,
        "add" | "delete" | "clear" => {
            change(alloc, tables, kind, &mut words)?;
            write_tables(out, alloc, tables)?;
        }
        _ => return Ok(false),
    }
    Ok(true)
}

impl Answers for Bench {
    fn answer(&mut self, alloc: Global, line: &str) -> Result<String, NoMemory> {
        let (kind, text) = line.split_once(' ').unwrap_or((line, ""));
        let mut out = String::from_str(alloc, " => ")?;
        if !write_flows(&mut out, alloc, &mut self.tables, kind, text)? {
            write_frame(&mut out, alloc, kind, &bytes_of(alloc, text)?)?;
        }
        Ok(out)
    }
}

fn main(rt: HostRuntime) -> io::Result<()> {
    print_answered(
        &rt,
        &mut Bench {
            tables: Tables::new(rt.alloc()),
        },
    )
}
