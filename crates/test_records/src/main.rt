//! Cases of recordings: each line of the input is a case, and is printed with its answer; an empty line,
//! and one that begins with `#`, is printed as it is. `records DIGITS..` are the bytes of the recording from
//! there on, `turns WORD..` is what becomes of it, and `again WORD..` what is recorded of its turns.
#![tactic(auto)]

mod turns;
mod worked;

use net_base::{Bytes, NoMemory};
use std::alloc::Global;
use std::io;
use test_lines::{Answers, bytes_of, print_answered};
use turns::{write_again, write_turns};

/// The bytes of the recording that the lines speak of.
#[derive(Drop)]
struct Bench {
    records: Bytes,
}

impl Answers for Bench {
    fn answer(&mut self, alloc: Global, line: &str) -> Result<String, NoMemory> {
        let mut out = String::new(alloc);
        match line.split_once(' ').unwrap_or(("", "")) {
            ("records", text) => self.records = bytes_of(alloc, text)?,
            ("turns", text) => {
                out.push_str(" => ")?;
                write_turns(
                    &mut out,
                    alloc,
                    self.records.as_slice(),
                    &mut text.split_whitespace(),
                )?;
            }
            ("again", text) => {
                out.push_str(" => ")?;
                write_again(
                    &mut out,
                    alloc,
                    self.records.as_slice(),
                    &mut text.split_whitespace(),
                )?;
            }
            _ => {}
        }
        Ok(out)
    }
}

fn main(rt: HostRuntime) -> io::Result<()> {
    print_answered(
        &rt,
        &mut Bench {
            records: Bytes::new(rt.alloc()),
        },
    )
}
