//! What is told to the table of hosts, and what it answers.

use conf_types::{Conf, HostRec, UpRec, UpRecs};
use host_learn::{HostTable, Learn};
use net_base::{DpId, Moment, NoMemory, PortNo};
use std::alloc::Global;
use std::fmt::Write;
use std::str::SplitWhitespace;
use test_words::{dp_id, mac, moment, number, port_no, put_mac, vid};

/// A datapath, a port, a VLAN, an address and a moment.
fn host(words: &mut SplitWhitespace<'_>) -> Option<HostRec> {
    Some(HostRec {
        dp: dp_id(words)?,
        port: port_no(words)?,
        vid: vid(words)?,
        mac: mac(words)?,
        learned: moment(words)?,
    })
}

pub fn put_host(alloc: Global, out: &mut String, host: &HostRec) -> Result<(), NoMemory> {
    write!(out, "{} {} {} ", host.dp.0, host.port.get(), host.vid.get())?;
    put_mac(alloc, out, host.mac)?;
    write!(out, " {}", host.learned.0)
}

fn one(alloc: Global, host: Option<HostRec>) -> Result<String, NoMemory> {
    let mut out = String::new(alloc);
    match host {
        Some(host) => put_host(alloc, &mut out, &host)?,
        None => out.push_str("none")?,
    }
    Ok(out)
}

/// The hosts in the order of learning.
fn list(alloc: Global, table: &HostTable) -> Result<String, NoMemory> {
    let mut out = String::new(alloc);
    for (place, host) in table.iter().enumerate() {
        if place > 0 {
            out.push_str("; ")?;
        }
        put_host(alloc, &mut out, host)?;
    }
    if table.is_empty() {
        out.push_str("none")?;
    }
    Ok(out)
}

/// How old a host is at a moment.
fn age_of(conf: &Conf, moment: Moment, host: &HostRec) -> &'static str {
    if conf.is_fresh(moment, host) {
        "fresh"
    } else if conf.is_to_forget(moment, host) {
        "to be forgotten"
    } else {
        "stale"
    }
}

/// How old each host is, in the order of learning.
fn ages(alloc: Global, conf: &Conf, table: &HostTable, moment: Moment) -> Result<String, NoMemory> {
    let mut out = String::new(alloc);
    for (place, host) in table.iter().enumerate() {
        if place > 0 {
            out.push_str(", ")?;
        }
        out.push_str(age_of(conf, moment, host))?;
    }
    Ok(out)
}

fn learn(table: &mut HostTable, conf: &Conf, host: &HostRec) -> Result<Learn, NoMemory> {
    table.learn(conf, host.dp, host.port, host.vid, host.mac, host.learned)
}

/// A port of a datapath, as `1:2`.
fn up(word: &str) -> Option<UpRec> {
    let (dp, port) = word.split_once(':')?;
    Some(UpRec {
        dp: DpId(dp.parse::<u64>().ok()?),
        port: PortNo::new(port.parse::<u32>().ok()?)?,
    })
}

fn ups(alloc: Global, words: &mut SplitWhitespace<'_>) -> Result<UpRecs, NoMemory> {
    let mut ups = UpRecs::new(alloc);
    for word in words {
        if let Some(up) = up(word) {
            ups.push(up)?;
        }
    }
    Ok(ups)
}

/// `port DP PORT`, `dp DP` or `due MOMENT`.
fn forget(table: &mut HostTable, conf: &Conf, words: &mut SplitWhitespace<'_>) -> Option<()> {
    match words.next()? {
        "due" => table.forget_due(conf, moment(words)?),
        "port" => {
            let dp = dp_id(words)?;
            table.forget_port(dp, port_no(words)?);
        }
        "dp" => table.forget_dp(dp_id(words)?),
        _ => return None,
    }
    Some(())
}

/// Puts another table in the place of this one: a new one, or what is kept of it.
fn replace(
    alloc: Global,
    conf: &Conf,
    table: &mut HostTable,
    name: &str,
    words: &mut SplitWhitespace<'_>,
) -> Result<Option<()>, NoMemory> {
    let Some(first) = number(words) else {
        return Ok(None);
    };
    if name == "kept" {
        let ups = ups(alloc, words)?;
        *table = table.kept(conf, ups.as_slice(), Moment(first))?;
    } else {
        *table = HostTable::new(alloc, u32::try_from(first).unwrap_or(0))?;
    }
    Ok(Some(()))
}

/// The answer to a case that looks a host up or takes one out.
fn found(
    conf: &Conf,
    table: &mut HostTable,
    name: &str,
    words: &mut SplitWhitespace<'_>,
) -> Option<Option<HostRec>> {
    if name == "age" {
        return Some(table.age(conf, moment(words)?));
    }
    let dp = dp_id(words)?;
    let vid = vid(words)?;
    Some(table.get(conf, dp, vid, mac(words)?).copied())
}

/// The answer to a case of the table; `None` where the words are none.
pub fn answer(
    alloc: Global,
    conf: &Conf,
    table: &mut HostTable,
    name: &str,
    words: &mut SplitWhitespace<'_>,
) -> Result<Option<String>, NoMemory> {
    let done = match name {
        "learn" => {
            let Some(host) = host(words) else {
                return Ok(None);
            };
            let said = learn(table, conf, &host)?;
            return Ok(Some(format!(in alloc; "{said:?}")?));
        }
        "age" | "get" => match found(conf, table, name, words) {
            Some(host) => return Ok(Some(one(alloc, host)?)),
            None => None,
        },
        "ages" => match moment(words) {
            Some(moment) => return Ok(Some(ages(alloc, conf, table, moment)?)),
            None => None,
        },
        "table" | "kept" => replace(alloc, conf, table, name, words)?,
        "forget" => forget(table, conf, words),
        "list" => Some(()),
        _ => None,
    };
    match done {
        Some(()) => Ok(Some(list(alloc, table)?)),
        None => Ok(None),
    }
}
