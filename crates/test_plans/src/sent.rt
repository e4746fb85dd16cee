//! What is sent of a packet, by the description and by the tables of a cold start.

ghost use Rattle.std.specs.Prelude.{◌≡◌};
ghost use Rattle.conf_types.specs.State.{IsValidState};
ghost use Rattle.packet_way.specs.Present.{state_of};

use cold_start::cold;
use conf_types::Conf;
use net_base::{DpId, NoMemory, PortNo};
use of_match::{Packet, Sent, Upper, run};
use packet_way::description::sends;
use packet_way::{Now, make_paths};
use state_check::is_valid;
use std::alloc::Global;
use std::str::SplitWhitespace;
use test_states::{NO_STATE, Units, frame_in, put_packet};

/// Puts the port, the destination and the source, the VLANs of the tags, and the time to live or hop limit.
fn put_sent(alloc: Global, out: &mut String, sent: &Sent) -> Result<(), NoMemory> {
    write!(out, "\n    port {}: ", sent.port)?;
    put_packet(alloc, out, &sent.packet)?;
    match sent.packet.upper {
        Upper::V4 { ttl, .. } => write!(out, " ttl {ttl}"),
        Upper::V6 { hops, .. } => write!(out, " hops {hops}"),
        _ => Ok(()),
    }
}

fn put_sents(alloc: Global, out: &mut String, sents: &[Sent]) -> Result<(), NoMemory> {
    for sent in sents {
        put_sent(alloc, out, sent)?;
    }
    Ok(())
}

/// What is sent of a packet by the description, and by the tables of a cold start.
fn put_both(
    alloc: Global,
    out: &mut String,
    conf: &Conf,
    now: &Now,
    dp: DpId,
    port: PortNo,
    packet: &Packet,
) -> Result<(), NoMemory>
    requires { IsValidState conf.now (state_of now.now) }
{
    let paths = make_paths(alloc, conf, now.ups.as_slice())?;
    let described = sends(alloc, conf, now, &paths, dp, port, packet)?;
    out.push_str("described")?;
    put_sents(alloc, out, described.as_slice())?;
    let tables = cold(alloc, conf, now, dp, &mut Units::new())?;
    let sent = run(alloc, &tables, port, packet)?;
    out.push_str("\n  sent")?;
    put_sents(alloc, out, sent.as_slice())
}

/// What a datapath sends of a frame that comes in by a port: as it is described, and by its tables; `None` where
/// the words are none of a port and a frame.
pub fn sent(
    alloc: Global,
    conf: &Conf,
    now: &Now,
    dp: DpId,
    words: &mut SplitWhitespace<'_>,
) -> Result<Option<String>, NoMemory> {
    if !is_valid(alloc, conf, now)? {
        return Ok(Some(format!(in alloc; "{NO_STATE}")?));
    }
    let Some((port, packet)) = frame_in(alloc, words)? else {
        return Ok(None);
    };
    let mut out = String::new(alloc);
    put_both(alloc, &mut out, conf, now, dp, port, &packet)?;
    Ok(Some(out))
}
