//! Cases of Gauge: what happens, line by line, what is said of it and which lines are given. Each line of the
//! input is printed with its answers behind it; an empty line, and one that begins with `#`, is printed as it
//! is.
#![tactic(auto)]

mod bench;

use bench::Bench;
use std::io;
use test_lines::answered;

fn main(rt: HostRuntime) -> io::Result<()> {
    let table = io::read_to_string(rt.alloc(), rt.stdin())?;
    let text = answered(rt.alloc(), &mut Bench::new(), table.as_str())?;
    print!(rt; "{text}")
}
