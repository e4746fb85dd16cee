use crate::answers::write_answer;
use net_base::{Bytes, NoMemory};
use std::alloc::Global;
use test_lines::{unescaped, write_escaped, write_repeated};

/// The lines of a table, with ` => ` and its answer behind each case `KIND TEXT`. Empty lines and
/// comments are no cases; a line `around BEFORE|BEHIND` says what stands around the texts from there on.
pub fn answered(alloc: Global, lines: &str) -> Result<String, NoMemory> {
    let mut out = String::new(alloc);
    let mut around = ("", "");
    for line in lines.lines() {
        out.push_str(line)?;
        match line.split_once(' ').unwrap_or((line, "")) {
            ("" | "#", _) => {}
            ("around", places) => around = places.split_once('|').unwrap_or(("", "")),
            (kind, text) => {
                let whole = whole(alloc, around, text)?;
                let mut answer = String::new(alloc);
                write_answer(&mut answer, alloc, kind, whole.as_slice())?;
                out.push_str(" => ")?;
                write_escaped(&mut out, answer.as_str())?;
            }
        }
        out.push_str("\n")?;
    }
    Ok(out)
}

/// What a text stands for, between what is around it.
fn whole(alloc: Global, around: (&str, &str), text: &str) -> Result<Bytes, NoMemory> {
    let (before, behind) = around;
    let mut whole = String::new(alloc);
    write_repeated(&mut whole, before)?;
    write_repeated(&mut whole, text)?;
    write_repeated(&mut whole, behind)?;
    unescaped(alloc, whole.as_str())
}
