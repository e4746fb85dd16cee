//! Cases of hubs over links in memory: each line of the input is a case, and is printed with its answer; an
//! empty line, and one that begins with `#`, is printed as it is. `links FAIL NEXT.. | CALL..` has which calls
//! of a poller fail, what it gives, and then what is asked of the hub.
#![tactic(auto)]

mod links;
mod served;

use net_base::NoMemory;
use served::write_served;
use std::alloc::Global;
use std::io;
use test_lines::{Answers, answered};

/// Nothing is kept from line to line.
#[derive(Drop)]
struct Bench;

impl Answers for Bench {
    fn answer(&mut self, alloc: Global, line: &str) -> Result<String, NoMemory> {
        let mut out = String::new(alloc);
        if let Some(text) = line.strip_prefix("links ") {
            out.push_str(" => ")?;
            write_served(&mut out, alloc, text)?;
        }
        Ok(out)
    }
}

fn main(rt: HostRuntime) -> io::Result<()> {
    let table = io::read_to_string(rt.alloc(), rt.stdin())?;
    let text = answered(rt.alloc(), &mut Bench, table.as_str())?;
    print!(rt; "{text}")
}
