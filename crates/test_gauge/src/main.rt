//! Cases of Gauge's file: each line of the input is a case, and is printed with its answer; an empty line, and
//! one that begins with `#`, is printed as it is. `files` has the files beside Gauge's own from there on, with
//! `\n` between them, each with its name, a space and its text; `name` has the name of Gauge's file, `fails`
//! the number of the read that fails (0 for none), and `around BEFORE|BEHIND` what stands around its text.
//! `gauge TEXT` asks for Gauge's configuration.
#![tactic(auto)]

mod answers;
mod bench;

use bench::Bench;
use std::io;
use test_lines::answered;

fn main(rt: HostRuntime) -> io::Result<()> {
    let table = io::read_to_string(rt.alloc(), rt.stdin())?;
    let mut bench = Bench::new(rt.alloc());
    let text = answered(rt.alloc(), &mut bench, table.as_str())?;
    print!(rt; "{text}")
}
