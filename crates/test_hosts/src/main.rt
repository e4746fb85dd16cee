//! Cases of the table of hosts: what is learned, forgotten, found and kept. Each line of the input is a
//! case, and is printed with its answer; an empty line, and one that begins with `#`, is printed as it is.
#![tactic(auto)]

mod beside;
mod counted;
mod plain;
mod table;
mod worked;

use conf_check::conf_of_bytes;
use conf_types::Conf;
use host_learn::HostTable;
use net_base::NoMemory;
use std::alloc::Global;
use std::io;
use std::mem::replace;
use test_lines::{Answers, print_answered, shown};

/// What the cases speak of: the last two configurations, and the table of the lines before.
#[derive(Drop)]
struct Bench {
    conf: Conf,
    before: Conf,
    table: HostTable,
}

fn no_datapath(alloc: Global) -> io::Result<Conf> {
    match conf_of_bytes(alloc, b"dps: {}") {
        Ok(conf) => Ok(conf),
        Err(_) => Err(io::ErrorKind::InvalidInput.into()),
    }
}

/// No datapath and no host.
fn open(alloc: Global) -> io::Result<Bench> {
    Ok(Bench {
        conf: no_datapath(alloc)?,
        before: no_datapath(alloc)?,
        table: HostTable::new(alloc, 0)?,
    })
}

/// Takes the configuration of a text from here on.
fn take_conf(alloc: Global, bench: &mut Bench, text: &str) -> &'static str {
    match conf_of_bytes(alloc, text.as_bytes()) {
        Ok(conf) => {
            bench.before = replace(&mut bench.conf, conf);
            "accepted"
        }
        Err(_) => "refused",
    }
}

/// The answer to a case; `None` where the words are none.
fn answer(alloc: Global, bench: &mut Bench, line: &str) -> Result<Option<String>, NoMemory> {
    let mut words = line.split_whitespace();
    let name = words.next().unwrap_or("");
    match name {
        "run" => beside::answer(alloc, [&bench.before, &bench.conf], &mut words),
        "count" => counted::answer(alloc, &bench.conf, &bench.table, &mut words),
        _ => table::answer(alloc, &bench.conf, &mut bench.table, name, &mut words),
    }
}

impl Answers for Bench {
    fn answer(&mut self, alloc: Global, line: &str) -> Result<String, NoMemory> {
        if let Some(text) = line.strip_prefix("conf ") {
            let answer = take_conf(alloc, self, text);
            return format!(in alloc; " => {answer}");
        }
        shown(alloc, answer(alloc, self, line)?)
    }
}

fn main(rt: HostRuntime) -> io::Result<()> {
    print_answered(&rt, &mut open(rt.alloc())?)
}
