//! What happens, by the words of a line.

use fg_outside::{EndCause, Happening};
use net_base::{Bytes, NoMemory};
use std::alloc::Global;
use std::str::SplitWhitespace;
use test_lines::unescaped;
use test_words::number;

fn conn(words: &mut SplitWhitespace<'_>) -> Option<u32> {
    u32::try_from(number(words)?).ok()
}

/// Bytes of a connection, in hexadecimal digits.
fn heard(alloc: Global, words: &mut SplitWhitespace<'_>) -> Result<Option<Happening>, NoMemory> {
    let (Some(conn), Some(digits)) = (conn(words), words.next()) else {
        return Ok(None);
    };
    match hex::decode(alloc, digits) {
        Ok(bytes) => {
            let piece = Bytes::from_slice(alloc, bytes.as_slice())?;
            Ok(Some(Happening::Heard { conn, piece }))
        }
        Err(_) => Ok(None),
    }
}

fn ended(words: &mut SplitWhitespace<'_>, cause: EndCause) -> Option<Happening> {
    let conn = conn(words)?;
    Some(Happening::Closed { conn, cause })
}

/// What happens by a line; `None` where the words are none of a happening.
pub fn happening(alloc: Global, name: &str, rest: &str) -> Result<Option<Happening>, NoMemory> {
    let mut words = rest.split_whitespace();
    match name {
        "open" => Ok(conn(&mut words).map(Happening::Opened)),
        "bytes" => heard(alloc, &mut words),
        "end" => Ok(ended(&mut words, EndCause::End)),
        "fault" => Ok(ended(&mut words, EndCause::LinkFault)),
        "overfull" => Ok(ended(&mut words, EndCause::Overfull)),
        "moment" => Ok(number(&mut words).map(Happening::Moment)),
        "reload" => Ok(Some(Happening::Reload(unescaped(alloc, rest)?))),
        _ => Ok(None),
    }
}
