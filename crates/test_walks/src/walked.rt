//! Where a packet arrives.

use conf_types::Conf;
use net_base::NoMemory;
use net_walk::{Arrival, walk};
use of_match::CONTROLLER;
use packet_way::Now;
use state_check::is_valid;
use std::alloc::Global;
use test_states::{NO_STATE, Units, frame_in, put_packet};
use test_words::dp_id;

/// Puts the datapath and the port, the destination and the source, and the VLANs of the tags.
fn put_arrival(alloc: Global, out: &mut String, arrival: &Arrival) -> Result<(), NoMemory> {
    let id = arrival.dp.0;
    write!(out, "\n    dp {id} ")?;
    match arrival.port {
        CONTROLLER => out.push_str("controller: ")?,
        port => write!(out, "port {port}: ")?,
    }
    put_packet(alloc, out, &arrival.packet)
}

/// Where a frame arrives that a datapath takes in by a port, by the words for these three; `None` where the words
/// are none of these.
pub fn walked(
    alloc: Global,
    conf: &Conf,
    now: &Now,
    rest: &str,
) -> Result<Option<String>, NoMemory> {
    if !is_valid(alloc, conf, now)? {
        return Ok(Some(format!(in alloc; "{NO_STATE}")?));
    }
    let mut words = rest.split_whitespace();
    let Some(dp) = dp_id(&mut words) else {
        return Ok(None);
    };
    let Some((port, packet)) = frame_in(alloc, &mut words)? else {
        return Ok(None);
    };
    let mut out = String::new(alloc);
    let arrivals = walk(alloc, conf, now, dp, port, &packet, &mut Units::new())?;
    for arrival in arrivals.as_slice() {
        put_arrival(alloc, &mut out, arrival)?;
    }
    Ok(Some(out))
}
