//! Messages.

use net_base::{Bytes, NoMemory, TryCopy};
use of13_codec::{decode, encode};
use std::alloc::Global;
use std::fmt::Write;

/// Writes how bytes were written again: `same` where they are these.
pub fn write_again(
    out: &mut String,
    alloc: Global,
    bytes: &[u8],
    again: &[u8],
) -> Result<(), NoMemory> {
    if again == bytes {
        out.push_str(" -> same")
    } else {
        write!(out, " -> {}", hex::encode(alloc, again)?)
    }
}

/// Writes the message of a frame, its transaction id, and what its copy is written as; or why it is none.
pub fn write_message(out: &mut String, alloc: Global, frame: &[u8]) -> Result<(), NoMemory> {
    match decode(alloc, frame) {
        Ok((message, xid)) => {
            write!(out, "{xid:#x} {message:?}")?;
            let copy = message.copy(alloc)?;
            let mut again = Bytes::new(alloc);
            encode(alloc, &copy, xid, &mut again)?;
            write_again(out, alloc, frame, again.as_slice())
        }
        Err(refused) => write!(out, "{refused:?}"),
    }
}
