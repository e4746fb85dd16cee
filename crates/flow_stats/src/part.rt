ghost use Rattle.std.specs.Prelude.{◌≡◌, ◌≤◌, ◌+◌, None, Ok, drop, length, IfOk};
ghost use Rattle.of_wire.specs.Answers.{Gives};
ghost use Rattle.flow_stats.specs.declared.flow.FlowPart.{FlowPart};
ghost use Rattle.flow_stats.specs.Parts.{Answers, IsOtherPart, IsRead, SpellsPart, flow_fault, flow_len, match_len, match_type, told_place};
ghost use Rattle.flow_stats.specs.Reading.{flow_in, flows_at, part_at};

use crate::flow::{Flow, FlowPart, Flows};
use crate::request::FLOW_STATS;
use net_base::{Bytes, NoMemory};
use of_wire::{PartCause, PartRefused, refused, u8_at, u16_at, u64_at, up_to_8};
use std::alloc::Global;

/// How many bytes stand before the flow entries of a part (OpenFlow 1.3, 7.3.5).
const HEAD: usize = 8;

/// How many bytes stand before the match of a flow entry (7.3.5.2).
const FRONT: usize = 48;

/// How many bytes a flow entry with an empty match takes.
const LEAST: usize = 56;

/// The type of a match of fields (7.2.3.1).
const OXM_MATCH: u16 = 1;

/// What is wrong with the match of the flow entry at the front, which takes so many bytes.
fn match_fault(len: usize, bytes: &[u8]) -> Option<PartCause>
    requires least { 56 ≤ len }
    requires there { len ≤ length bytes.now }
    requires len { len ≡ flow_len bytes.now }
    ensures { result ≡ flow_fault bytes.now }
{
    if u16_at(bytes, FRONT) != OXM_MATCH {
        return Some(PartCause::BadClass);
    }
    let match_len = usize::from(u16_at(bytes, FRONT + 2));
    if match_len < 4 || len < FRONT + up_to_8(match_len) {
        return Some(PartCause::BadLength);
    }
    None
}

/// What is wrong with the flow entry that begins there.
fn flow_fault(bytes: &[u8]) -> Option<PartCause>
    ensures { result ≡ flow_fault bytes.now }
{
    if bytes.len() < 2 {
        return Some(PartCause::Short);
    }
    let len = usize::from(u16_at(bytes, 0));
    if len < LEAST || bytes.len() < len {
        return Some(PartCause::BadLength);
    }
    match_fault(len, bytes)
}

/// Reads the flow entry that bytes spell.
fn read_flow(alloc: Global, bytes: &[u8]) -> Result<Flow, NoMemory>
    requires least { 56 ≤ length bytes.now }
    requires fits { 48 + match_len bytes.now ≤ length bytes.now }
    ensures { IfOk result (λ flow. flow ≡ flow_in bytes.now) }
{
    let (_, behind) = bytes.split_at(FRONT);
    let (key, _) = behind.split_at(usize::from(u16_at(bytes, FRONT + 2)));
    Ok(Flow {
        table: u8_at(bytes, 2),
        priority: u16_at(bytes, 12),
        cookie: u64_at(bytes, 24),
        packets: u64_at(bytes, 32),
        bytes: u64_at(bytes, 40),
        key: Bytes::from_slice(alloc, key)?,
    })
}

/// A place as faults tell it.
fn told_place(place: usize) -> u32
    ensures { result ≡ told_place place }
{
    if place < 0x1_0000_0000 {
        place as u32
    } else {
        u32::MAX
    }
}

/// Reads the flow entries of a part, up to its end.
fn read_flows(alloc: Global, body: &[u8]) -> Result<Flows, PartRefused>
    requires { 8 ≤ length body.now }
    ensures { Gives (λ x. x) result (flows_at (drop 8 body.now)) }
{
    let mut flows = Flows::new(alloc);
    let (_, mut rest) = body.split_at(HEAD);
    while !rest.is_empty() {
        if let Some(cause) = flow_fault(rest) {
            return Err(refused(told_place(body.len() - rest.len()), cause));
        }
        let (front, after) = rest.split_at(usize::from(u16_at(rest, 0)));
        flows.push(read_flow(alloc, front)?)?;
        rest = after;
    }
    Ok(flows)
}

#[tactic(auto, unfolding(crate::specs::Reading::part_at))]
fn read_part(alloc: Global, body: &[u8]) -> Result<Option<FlowPart>, PartRefused>
    ensures exact { Gives (λ x. x) result (part_at body.now) }
    ensures none { IsOtherPart body.now → result ≡ Ok None }
{
    if body.len() < HEAD || u128::from(u16_at(body, 0)) != FLOW_STATS {
        return Ok(None);
    }
    let more = u16_at(body, 2) % 2 == 1;
    let flows = read_flows(alloc, body)?;
    Ok(Some(FlowPart { more, flows }))
}

/// Reads the body of a MULTIPART_REPLY (OpenFlow 1.3, 7.3.5.2). `None` exactly where it has fewer than 8
/// bytes or another multipart type than that of flow statistics. Fields of matches and instructions aren't
/// looked into. A refusal stands at the first byte of the flow entry that is wrong, counted from the body's
/// first: `Short` where fewer than 2 bytes are left, `BadLength` where its length is under 56 or passes the
/// body, `BadClass` where its match has another type than 1, and `BadLength` where the length of its match
/// is under 4 or passes it with its padding.
pub fn flow_part(alloc: Global, body: &[u8]) -> Result<Option<FlowPart>, PartRefused>
    ensures exact { Gives (λ x. x) result (part_at body.now) }
    ensures answers { Answers body.now result }
    ensures read { (part : FlowPart) → SpellsPart part body.now → IsRead part result }
    ensures none { IsOtherPart body.now → result ≡ Ok None }
{
    read_part(alloc, body)
}
