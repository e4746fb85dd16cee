//! Cases of the controller: what happens, line by line, and what is said of it. Each line of the input is
//! printed with what was said behind it; an empty line, and one that begins with `#`, is printed as it is.
#![tactic(auto)]

mod bench;
mod units;
mod worked;

use bench::Bench;
use std::io;
use test_lines::answered;

fn main(rt: HostRuntime) -> io::Result<()> {
    let table = io::read_to_string(rt.alloc(), rt.stdin())?;
    let text = answered(rt.alloc(), &mut Bench::new(), table.as_str())?;
    print!(rt; "{text}")
}
