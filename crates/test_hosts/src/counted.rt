//! How many hosts stand where, by what looks them up and by what goes over a list.

use crate::table::put_host;
use conf_types::Conf;
use host_learn::HostTable;
use host_list::{CountsHosts, Hosts, Listed};
use net_base::{DpId, NoMemory, PortNo, Vid};
use std::alloc::Global;
use std::fmt::Write;
use std::str::SplitWhitespace;
use test_words::{dp_id, port_no, vid};

/// A port, and a VLAN there.
#[derive(Clone, Copy)]
struct Place {
    dp: DpId,
    port: PortNo,
    vid: Vid,
}

fn read_place(words: &mut SplitWhitespace<'_>) -> Option<Place> {
    Some(Place {
        dp: dp_id(words)?,
        port: port_no(words)?,
        vid: vid(words)?,
    })
}

/// How many stand at the port, of the VLAN there, of the VLAN in the group, and in all.
fn counts<T: CountsHosts>(
    alloc: Global,
    conf: &Conf,
    hosts: &T,
    place: &Place,
) -> Result<String, NoMemory> {
    let at_port = hosts.at_port(place.dp, place.port);
    let in_vlan_at = hosts.in_vlan_at(place.dp, place.port, place.vid);
    let in_vlan = hosts.in_vlan(conf, conf.group_number(place.dp), place.vid);
    let in_all = hosts.in_all();
    format!(in alloc; "{at_port} {in_vlan_at} {in_vlan} {in_all}")
}

/// The hosts at the port.
fn at_port(alloc: Global, hosts: &Hosts, place: &Place) -> Result<String, NoMemory> {
    let mut out = String::new(alloc);
    for host in hosts.at(place.dp, place.port) {
        out.push_str("; ")?;
        put_host(alloc, &mut out, host)?;
    }
    Ok(out)
}

/// The answer to a port and a VLAN: the counts, and the hosts at the port; or that the counts of both
/// bodies differ. `None` where the words are none.
pub fn answer(
    alloc: Global,
    conf: &Conf,
    table: &HostTable,
    words: &mut SplitWhitespace<'_>,
) -> Result<Option<String>, NoMemory> {
    let Some(place) = read_place(words) else {
        return Ok(None);
    };
    let hosts = table.as_hosts();
    let list = hosts.to_list(alloc)?;
    let slow = Listed::new(list.as_slice());
    let mut out = counts(alloc, conf, hosts, &place)?;
    let listed = counts(alloc, conf, &slow, &place)?;
    if out.as_str() != listed.as_str() {
        write!(out, " differs from {listed}")?;
    }
    let there = at_port(alloc, hosts, &place)?;
    out.push_str(there.as_str())?;
    Ok(Some(out))
}
