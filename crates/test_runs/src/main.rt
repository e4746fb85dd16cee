//! Cases of the whole program, over files and streams in memory. Each line of the input is printed as it
//! is; behind a run stand its status and what was written.
#![tactic(auto)]

mod around;
mod bench;
mod flights;
mod links;
mod runs;

use bench::Bench;
use std::io;
use test_lines::answered;

fn main(rt: HostRuntime) -> io::Result<()> {
    let table = io::read_to_string(rt.alloc(), rt.stdin())?;
    let text = answered(rt.alloc(), &mut Bench::new(rt.alloc()), table.as_str())?;
    print!(rt; "{text}")
}
