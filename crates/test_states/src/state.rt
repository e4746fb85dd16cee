//! A state, line by line.

use crate::learned::Learned;
use conf_types::{Conf, Dp, DpIds, HostRec, Ip, NeighRec, NeighRecs, UpRec, UpRecs};
use host_list::Hosts;
use net_base::{DpId, Ip4, Ip6, Moment, NoMemory, PortNo};
use std::alloc::Global;
use std::str::SplitWhitespace;
use test_words::{dp_id, mac, moment, port_no, vid};

fn all_dps(alloc: Global, conf: &Conf) -> Result<DpIds, NoMemory> {
    let mut ids = DpIds::new(alloc);
    for dp in conf.dps().as_slice() {
        ids.push(dp.id)?;
    }
    Ok(ids)
}

fn push_enabled(ups: &mut UpRecs, dp: &Dp) -> Result<(), NoMemory> {
    for port in dp.ports.as_slice() {
        if port.enabled {
            ups.push(UpRec {
                dp: dp.id,
                port: port.no,
            })?;
        }
    }
    Ok(())
}

fn all_enabled(alloc: Global, conf: &Conf) -> Result<UpRecs, NoMemory> {
    let mut ups = UpRecs::new(alloc);
    for dp in conf.dps().as_slice() {
        push_enabled(&mut ups, dp)?;
    }
    Ok(ups)
}

/// The state in which all datapaths run, all enabled ports are up, and nothing is learned.
pub fn nothing_learned(alloc: Global, conf: &Conf, moment: Moment) -> Result<Learned, NoMemory> {
    let running = all_dps(alloc, conf)?;
    let ups = all_enabled(alloc, conf)?;
    Ok(Learned {
        moment,
        running,
        ups,
        hosts: Hosts::new(alloc),
        neighbours: NeighRecs::new(alloc),
    })
}

/// The ports but one.
fn without(alloc: Global, ups: &UpRecs, dp: DpId, port: PortNo) -> Result<UpRecs, NoMemory> {
    let mut left = UpRecs::new(alloc);
    for up in ups.as_slice() {
        if up.dp != dp || up.port != port {
            left.push(*up)?;
        }
    }
    Ok(left)
}

/// A host: learned at the moment that stands last, or at 0 where none does.
fn host(words: &mut SplitWhitespace<'_>) -> Option<HostRec> {
    let dp = dp_id(words)?;
    let port = port_no(words)?;
    let vid = vid(words)?;
    let mac = mac(words)?;
    let learned = moment(words).unwrap_or(Moment(0));
    Some(HostRec {
        dp,
        port,
        vid,
        mac,
        learned,
    })
}

/// An address of either family.
fn ip(words: &mut SplitWhitespace<'_>) -> Option<Ip> {
    let text = words.next()?;
    match Ip4::parse(text) {
        Some(ip) => Some(Ip::V4(ip)),
        None => Ip6::parse(text).map(Ip::V6),
    }
}

/// A neighbour: resolved where an Ethernet address stands last.
fn neighbour(words: &mut SplitWhitespace<'_>) -> Option<NeighRec> {
    let group = dp_id(words)?;
    let vid = vid(words)?;
    let ip = ip(words)?;
    Some(NeighRec {
        group,
        vid,
        ip,
        mac: mac(words),
        tries: 0,
        due: Moment(0),
    })
}

/// Takes in what a line tells; `false` where it tells nothing.
pub fn tell(
    alloc: Global,
    now: &mut Learned,
    name: &str,
    words: &mut SplitWhitespace<'_>,
) -> Result<bool, NoMemory> {
    match name {
        "host" => {
            let Some(host) = host(words) else {
                return Ok(false);
            };
            now.push_host(&host)?;
        }
        "neighbour" => {
            let Some(neighbour) = neighbour(words) else {
                return Ok(false);
            };
            now.neighbours.push(neighbour)?;
        }
        "down" => {
            let (Some(dp), Some(port)) = (dp_id(words), port_no(words)) else {
                return Ok(false);
            };
            now.ups = without(alloc, &now.ups, dp, port)?;
        }
        _ => return Ok(false),
    }
    Ok(true)
}
