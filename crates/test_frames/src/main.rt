//! Cases of neighbours: what is answered, asked and kept. Each line of the input is a case, and is
//! printed with its answer; an empty line, and one that begins with `#`, is printed as it is.
#![tactic(auto)]

use conf_check::conf_of_bytes;
use conf_types::Conf;
use neighbour_resolve::Neighbours;
use net_base::NoMemory;
use std::alloc::Global;
use std::io;
use std::str::SplitWhitespace;
use test_lines::{Answers, print_answered, shown};

mod addresses;
mod frames;
mod table;

/// What the cases speak of: the configuration and the table of the lines before.
#[derive(Drop)]
struct Bench {
    conf: Conf,
    table: Neighbours,
}

/// No datapath and no neighbour.
fn open(alloc: Global) -> io::Result<Bench> {
    match conf_of_bytes(alloc, b"dps: {}") {
        Ok(conf) => Ok(Bench {
            conf,
            table: Neighbours::new(alloc, 0)?,
        }),
        Err(_) => Err(io::ErrorKind::InvalidInput.into()),
    }
}

/// Takes the configuration of a text from here on.
fn take_conf(alloc: Global, bench: &mut Bench, text: &str) -> &'static str {
    match conf_of_bytes(alloc, text.as_bytes()) {
        Ok(conf) => {
            bench.conf = conf;
            "accepted"
        }
        Err(_) => "refused",
    }
}

/// The answer to a case; `None` where the words are none.
fn answer(
    alloc: Global,
    bench: &mut Bench,
    words: &mut SplitWhitespace<'_>,
) -> Result<Option<String>, NoMemory> {
    let name = words.next().unwrap_or("");
    match name {
        "answer" | "sender" => frames::seen(alloc, &bench.conf, name, words),
        "ask" => frames::asked(alloc, &bench.conf, words),
        _ => table::answer(alloc, &bench.conf, &mut bench.table, name, words),
    }
}

impl Answers for Bench {
    fn answer(&mut self, alloc: Global, line: &str) -> Result<String, NoMemory> {
        if let Some(text) = line.strip_prefix("conf ") {
            let answer = take_conf(alloc, self, text);
            return format!(in alloc; " => {answer}");
        }
        shown(alloc, answer(alloc, self, &mut line.split_whitespace())?)
    }
}

fn main(rt: HostRuntime) -> io::Result<()> {
    print_answered(&rt, &mut open(rt.alloc())?)
}
