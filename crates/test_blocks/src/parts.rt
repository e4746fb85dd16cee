//! Flow statistics as bytes.

use flow_stats::{Flow, FlowPart, flow_part, flow_request};
use net_base::{Bytes, NoMemory};
use of_wire::PartRefused;
use of13_codec::encode;
use prom_text::flow_name;
use std::alloc::{AllocError, Global};
use std::fmt::Write;

/// Writes the request with the transaction id 3.
pub fn write_request(out: &mut String, alloc: Global) -> Result<(), NoMemory> {
    let request = flow_request(alloc)?;
    let mut bytes = Bytes::new(alloc);
    encode(alloc, &request, 3, &mut bytes)?;
    out.push_str(hex::encode(alloc, bytes.as_slice())?.as_str())
}

fn write_flow(out: &mut String, alloc: Global, flow: &Flow) -> Result<(), NoMemory> {
    let name = flow_name(alloc, flow)?;
    let (cookie, packets, bytes) = (flow.cookie, flow.packets, flow.bytes);
    out.push_str(name.as_str())?;
    write!(out, " cookie {cookie}, {packets} packets, {bytes} bytes; ")
}

fn write_flows(out: &mut String, alloc: Global, part: &FlowPart) -> Result<(), NoMemory> {
    for flow in part.flows.as_slice() {
        write_flow(out, alloc, flow)?;
    }
    out.push_str(if part.more { "more" } else { "no more" })
}

/// Writes what the body of a reply tells.
pub fn write_part(out: &mut String, alloc: Global, body: &[u8]) -> Result<(), NoMemory> {
    match flow_part(alloc, body) {
        Ok(Some(part)) => write_flows(out, alloc, &part),
        Ok(None) => out.push_str("another type"),
        Err(PartRefused::At(fault)) => write!(out, "{:?} at {}", fault.cause, fault.at),
        Err(PartRefused::Memory) => Err(AllocError),
    }
}
