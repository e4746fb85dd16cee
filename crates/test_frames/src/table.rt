//! What is told to the table of neighbours, and what it answers.

use crate::addresses::{further, ip, put_ip};
use conf_types::{Conf, Ip, NeighRec};
use neighbour_resolve::{Due, Neighbours, Want};
use net_base::{DpId, Items, Moment, NoMemory, Vid};
use std::alloc::Global;
use std::fmt::Write;
use std::str::SplitWhitespace;
use test_words::{dp_id, mac, moment, number, put_mac, vid};

fn want(table: &mut Neighbours, words: &mut SplitWhitespace<'_>) -> Option<Want> {
    let group = dp_id(words)?;
    let vid = vid(words)?;
    let ip = ip(words)?;
    let moment = moment(words)?;
    Some(table.want(group, vid, ip, moment))
}

fn heard(table: &mut Neighbours, words: &mut SplitWhitespace<'_>) -> Option<Want> {
    let group = dp_id(words)?;
    let vid = vid(words)?;
    let ip = ip(words)?;
    let mac = mac(words)?;
    let timeout = u32::try_from(number(words)?).ok()?;
    let moment = moment(words)?;
    Some(table.heard(group, vid, ip, mac, timeout, moment))
}

/// Wants so many addresses, from one on.
fn fill(table: &mut Neighbours, words: &mut SplitWhitespace<'_>) -> Option<Want> {
    let group = dp_id(words)?;
    let vid = vid(words)?;
    let ip = ip(words)?;
    let count = u32::try_from(number(words)?).ok()?;
    let mut last = None;
    for at in 0..count {
        last = Some(table.want(group, vid, further(ip, at), Moment(0)));
    }
    last
}

/// What is kept of a table where these datapaths run.
fn kept(
    alloc: Global,
    conf: &Conf,
    table: &Neighbours,
    words: &mut SplitWhitespace<'_>,
) -> Result<Neighbours, NoMemory> {
    let mut running = Items::new(alloc);
    for word in words {
        if let Ok(id) = word.parse::<u64>() {
            running.push(DpId(id))?;
        }
    }
    table.kept(conf, running.as_slice(), Moment(0))
}

/// What tells a neighbour from others.
fn put_key(
    alloc: Global,
    out: &mut String,
    group: &DpId,
    vid: &Vid,
    ip: &Ip,
) -> Result<(), NoMemory> {
    write!(out, "{} {} ", group.0, vid.get())?;
    put_ip(alloc, out, *ip)
}

fn put_neighbour(alloc: Global, out: &mut String, neighbour: &NeighRec) -> Result<(), NoMemory> {
    put_key(alloc, out, &neighbour.group, &neighbour.vid, &neighbour.ip)?;
    if let Some(mac) = neighbour.mac {
        out.push_str(" at ")?;
        put_mac(alloc, out, mac)?;
    }
    write!(out, " tries {} due {}", neighbour.tries, neighbour.due.0)
}

/// The neighbours in their order.
fn list(alloc: Global, table: &Neighbours) -> Result<String, NoMemory> {
    if table.list().is_empty() {
        return format!(in alloc; "none");
    }
    let mut out = String::new(alloc);
    for (at, neighbour) in table.list().iter().enumerate() {
        if at > 0 {
            out.push_str("; ")?;
        }
        put_neighbour(alloc, &mut out, neighbour)?;
    }
    Ok(out)
}

fn put_due(alloc: Global, out: &mut String, due: &Due) -> Result<(), NoMemory> {
    match due {
        Due::Ask { group, vid, ip } => {
            out.push_str("ask ")?;
            put_key(alloc, out, group, vid, ip)
        }
        Due::Gone { group, vid, ip } => {
            out.push_str("gone ")?;
            put_key(alloc, out, group, vid, ip)
        }
    }
}

fn due(
    alloc: Global,
    conf: &Conf,
    table: &mut Neighbours,
    moment: Moment,
) -> Result<String, NoMemory> {
    let mut out = String::new(alloc);
    let due = table.due(conf, moment);
    match &due {
        Some(due) => put_due(alloc, &mut out, due)?,
        None => out.push_str("nothing")?,
    }
    Ok(out)
}

fn wanted(alloc: Global, want: Option<Want>) -> Result<Option<String>, NoMemory> {
    match want {
        Some(want) => Ok(Some(format!(in alloc; "{want:?}")?)),
        None => Ok(None),
    }
}

/// Puts another table in the place of this one: a new one, or what is kept of it.
fn replace(
    alloc: Global,
    conf: &Conf,
    table: &mut Neighbours,
    name: &str,
    words: &mut SplitWhitespace<'_>,
) -> Result<(), NoMemory> {
    match name {
        "table" => {
            let limit = number(words).and_then(|n| u32::try_from(n).ok());
            *table = Neighbours::new(alloc, limit.unwrap_or(0))?;
        }
        "kept" => *table = kept(alloc, conf, table, words)?,
        _ => table.forget_group(dp_id(words).unwrap_or(DpId(0))),
    }
    Ok(())
}

/// The answer to a case of the table; `None` where the words are none.
pub fn answer(
    alloc: Global,
    conf: &Conf,
    table: &mut Neighbours,
    name: &str,
    words: &mut SplitWhitespace<'_>,
) -> Result<Option<String>, NoMemory> {
    let text = match name {
        "want" => return wanted(alloc, want(table, words)),
        "heard" => return wanted(alloc, heard(table, words)),
        "fill" => return wanted(alloc, fill(table, words)),
        "due" => due(alloc, conf, table, moment(words).unwrap_or(Moment(0)))?,
        "count" => format!(in alloc; "{}", table.list().len())?,
        "list" => list(alloc, table)?,
        "table" | "kept" | "forget" => {
            replace(alloc, conf, table, name, words)?;
            list(alloc, table)?
        }
        _ => return Ok(None),
    };
    Ok(Some(text))
}
