//! Matches, actions and instructions.

use crate::messages::write_again;
use net_base::{Bytes, Fields, NoMemory};
use of_match::{Actions, Instrs};
use of_wire::{
    PartRefused, get_actions, get_instrs, get_match, get_match_seen, put_actions, put_instrs,
    put_match,
};
use std::alloc::Global;
use std::fmt::Write;

/// Writes the fields of a match, how many bytes it takes, and what it is written as.
fn write_match(
    out: &mut String,
    alloc: Global,
    bytes: &[u8],
    read: Result<(Fields, usize), PartRefused>,
) -> Result<(), NoMemory> {
    match read {
        Ok((fields, taken)) => {
            write!(out, "{taken} bytes {fields:?}")?;
            let mut again = Bytes::new(alloc);
            put_match(fields.as_slice(), &mut again)?;
            write_again(out, alloc, bytes, again.as_slice())
        }
        Err(refused) => write!(out, "{refused:?}"),
    }
}

fn write_actions(
    out: &mut String,
    alloc: Global,
    bytes: &[u8],
    read: Result<Actions, PartRefused>,
) -> Result<(), NoMemory> {
    match read {
        Ok(actions) => {
            write!(out, "{actions:?}")?;
            let mut again = Bytes::new(alloc);
            put_actions(actions.as_slice(), &mut again)?;
            write_again(out, alloc, bytes, again.as_slice())
        }
        Err(refused) => write!(out, "{refused:?}"),
    }
}

fn write_instrs(
    out: &mut String,
    alloc: Global,
    bytes: &[u8],
    read: Result<Instrs, PartRefused>,
) -> Result<(), NoMemory> {
    match read {
        Ok(instrs) => {
            write!(out, "{instrs:?}")?;
            let mut again = Bytes::new(alloc);
            put_instrs(instrs.as_slice(), &mut again)?;
            write_again(out, alloc, bytes, again.as_slice())
        }
        Err(refused) => write!(out, "{refused:?}"),
    }
}

/// Writes the part of a message that bytes spell, or why they spell none: a match as the controller sends it
/// or as a switch reports it, actions, or instructions.
pub fn write_part(
    out: &mut String,
    alloc: Global,
    kind: &str,
    bytes: &[u8],
) -> Result<(), NoMemory> {
    if bytes.len() >= 1000 {
        return out.push_str("too long");
    }
    match kind {
        "match" => write_match(out, alloc, bytes, get_match(alloc, bytes)),
        "seen" => write_match(out, alloc, bytes, get_match_seen(alloc, bytes)),
        "actions" => write_actions(out, alloc, bytes, get_actions(alloc, bytes)),
        "instructions" => write_instrs(out, alloc, bytes, get_instrs(alloc, bytes)),
        _ => out.push_str("no such kind"),
    }
}
