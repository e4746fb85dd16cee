ghost use Rattle.std.specs.Prelude.{◌≡◌, ◌≤◌, ◌<◌, ◌+◌, ◌*◌, ◌++◌, length, drop, OnOk, IfSome, IfNone, IfOk};
ghost use Rattle.bgp_messages.specs.Grammar.{Begins, BeginsNone, Parsed};
ghost use Rattle.bgp_messages.specs.Paths.{is_known, numbers_in, segment_in, SpellsSegment, SpellsPath};

use crate::number::{u8_at, u16_at};
use net_base::{Items, NoMemory};
use std::alloc::Global;

/// Numbers of autonomous systems.
pub type Numbers = Items<u16>;

/// The types of segments (RFC 4271, 4.3).
const AS_SET: u8 = 1;

const AS_SEQUENCE: u8 = 2;

/// Whether segments have this type.
fn is_known(kind: u8) -> bool
    ensures { result ≡ is_known kind }
{
    kind == AS_SET || kind == AS_SEQUENCE
}

/// How many numbers the segment at the front has.
#[tactic(auto, using(crate::proofs::Paths::segment_unknown, crate::proofs::Paths::segment_cut, crate::proofs::Paths::segment_empty, crate::proofs::Paths::segment_begins))]
fn first_count(bytes: &[u8]) -> Option<usize>
    requires { 0 < length bytes.now }
    ensures found { IfSome result (λ n. Begins (SpellsSegment (segment_in n bytes.now)) (2 + 2 * n) bytes.now) }
    ensures none { IfNone result (BeginsNone SpellsSegment bytes.now) }
    ensures few { IfSome result (λ n. n < 256) }
{
    if bytes.len() < 2 {
        return None;
    }
    if !is_known(u8_at(bytes, 0)) {
        return None;
    }
    let count = usize::from(u8_at(bytes, 1));
    if count == 0 {
        return None;
    }
    if bytes.len() < 2 + 2 * count {
        return None;
    }
    Some(count)
}

/// Adds so many numbers.
fn add_numbers(count: usize, bytes: &[u8], numbers: &mut Numbers) -> Result<(), NoMemory>
    requires few { count < 256 }
    requires room { 2 * count ≤ length bytes.now }
    ensures { OnOk result (numbers.new ≡ numbers.old ++ numbers_in count bytes.now) }
{
    for i in 0..count {
        numbers.push(u16_at(bytes, 2 * i))?;
    }
    Ok(())
}

/// The numbers in an AS_PATH, in their order; `None` exactly where the value isn't made of segments.
pub(crate) fn read_path(alloc: Global, value: &[u8]) -> Result<Option<Numbers>, NoMemory>
    ensures { IfOk result (λ numbers. Parsed SpellsPath value.now numbers) }
{
    let mut numbers = Numbers::new(alloc);
    let mut rest = value;
    while !rest.is_empty() {
        let Some(count) = first_count(rest) else {
            return Ok(None);
        };
        let (_, content) = rest.split_at(2);
        add_numbers(count, content, &mut numbers)?;
        let (_, after) = content.split_at(2 * count);
        rest = after;
    }
    Ok(Some(numbers))
}
