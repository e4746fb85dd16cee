//! The program `test_texts`: it reads a table of cases, and prints it with the answer behind each case.
#![tactic(auto)]

mod answers;
mod asked;
mod gathered;
mod raw;
mod table;
mod trees;

use std::io;

fn main(rt: HostRuntime) -> io::Result<()> {
    let cases = io::read_to_string(rt.alloc(), rt.stdin())?;
    let table = table::answered(rt.alloc(), cases.as_str())?;
    print!(rt; "{table}")
}
