//! What was said, one line for each.

use ctl_life::Saying;
use net_base::NoMemory;
use std::alloc::Global;
use std::fmt::Write;
use test_lines::write_escaped;

/// One line for what was said.
pub fn put_saying(alloc: Global, out: &mut String, saying: &Saying) -> Result<(), NoMemory> {
    match saying {
        Saying::Send { conn, bytes } => {
            let digits = hex::encode(alloc, bytes.as_slice())?;
            write!(out, "\n  send {conn} {digits}")
        }
        Saying::Close { conn, cause } => write!(out, "\n  close {conn} {}", cause.name()),
        Saying::Line(text) => {
            out.push_str("\n  line ")?;
            write_escaped(out, text.as_str())
        }
    }
}
