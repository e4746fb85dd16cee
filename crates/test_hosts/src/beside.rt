//! A long row of calls on the table of hosts and on a plain list, side by side.

use crate::plain::Plain;
use conf_types::{Conf, HostRec, UpRec, UpRecs};
use host_learn::HostTable;
use net_base::{DpId, Mac, Moment, NoMemory, PortNo, Vid};
use std::alloc::Global;
use std::str::SplitWhitespace;
use test_words::{draw, number};

/// Milliseconds between two calls.
const STEP: u64 = 500;

/// The table and the list, which are to be equal.
#[derive(Drop)]
struct Pair {
    table: HostTable,
    plain: Plain,
}

/// One of few stations; the last is all of them.
fn station(number: u64) -> Mac {
    match number {
        0 => Mac([0xff; 6]),
        _ => Mac([2, 0, 0, 0, 0, u8::try_from(number).unwrap_or(0)]),
    }
}

/// Some host of few.
fn some_host(seed: &mut u64, moment: Moment) -> Option<HostRec> {
    let dp = DpId(1 + draw(seed, 9) / 4);
    let port = PortNo::new(u32::try_from(1 + draw(seed, 10) / 3).ok()?)?;
    let vid = Vid::new(u16::try_from(100 + 100 * draw(seed, 2)).ok()?)?;
    Some(HostRec {
        dp,
        port,
        vid,
        mac: station(draw(seed, 10)),
        learned: moment,
    })
}

/// All ports but one.
fn ups(alloc: Global, conf: &Conf, down: &HostRec) -> Result<UpRecs, NoMemory> {
    let mut ups = UpRecs::new(alloc);
    for dp in conf.dps().as_slice() {
        for port in dp.ports.as_slice() {
            if !down.is_at(dp.id, port.no) {
                ups.push(UpRec {
                    dp: dp.id,
                    port: port.no,
                })?;
            }
        }
    }
    Ok(ups)
}

fn is_equal(pair: &Pair) -> bool {
    let mut seen = pair.table.iter();
    for (place, host) in pair.plain.hosts().iter().enumerate() {
        if seen.next() != Some(host) || pair.table.at(place) != Some(host) {
            return false;
        }
    }
    seen.next().is_none() && pair.table.len() == pair.plain.hosts().len()
}

/// Whether both say the same of a host that is heard.
fn hear(conf: &Conf, pair: &mut Pair, host: &HostRec) -> Result<bool, NoMemory> {
    let said = pair
        .table
        .learn(conf, host.dp, host.port, host.vid, host.mac, host.learned)?;
    Ok(said == pair.plain.learn(conf, *host)?)
}

/// The same call of both; whether both answer the same.
fn call(conf: &Conf, pair: &mut Pair, which: u64, host: &HostRec) -> Result<bool, NoMemory> {
    match which {
        0..=4 => {
            pair.table.forget_port(host.dp, host.port);
            pair.plain.forget_port(host.dp, host.port);
            Ok(true)
        }
        5 => {
            pair.table.forget_dp(host.dp);
            pair.plain.forget_dp(host.dp);
            Ok(true)
        }
        6 => {
            pair.table.forget_due(conf, host.learned);
            pair.plain.forget_due(conf, host.learned);
            Ok(true)
        }
        7..=31 => {
            let found = pair.table.get(conf, host.dp, host.vid, host.mac);
            Ok(found == pair.plain.get(conf, host.dp, host.vid, host.mac))
        }
        32..=71 => {
            let aged = pair.table.age(conf, host.learned);
            Ok(aged == pair.plain.age(conf, host.learned))
        }
        _ => hear(conf, pair, host),
    }
}

/// What both keep under a configuration, with a port down.
fn keep(alloc: Global, conf: &Conf, pair: &Pair, down: &HostRec) -> Result<Pair, NoMemory> {
    let ups = ups(alloc, conf, down)?;
    Ok(Pair {
        table: pair.table.kept(conf, ups.as_slice(), down.learned)?,
        plain: pair.plain.kept(conf, ups.as_slice(), down.learned)?,
    })
}

/// The number of the first call after which the two differ, from two equal ones on. The configurations
/// take turns.
fn first_other(
    alloc: Global,
    confs: [&Conf; 2],
    mut pair: Pair,
    mut seed: u64,
    calls: u64,
) -> Result<Option<u64>, NoMemory> {
    let mut second = false;
    for turn in 0..calls {
        let moment = Moment(turn.saturating_mul(STEP));
        let Some(host) = some_host(&mut seed, moment) else {
            return Ok(Some(turn));
        };
        let kind = draw(&mut seed, 256);
        if kind == 0 {
            second = !second;
        }
        let conf = if second { confs[1] } else { confs[0] };
        let same = if kind == 0 {
            pair = keep(alloc, conf, &pair, &host)?;
            true
        } else {
            call(conf, &mut pair, kind, &host)?
        };
        if !same || !is_equal(&pair) {
            return Ok(Some(turn));
        }
    }
    Ok(None)
}

/// The answer to a limit, a seed and how many calls; `None` where the words are none.
pub fn answer(
    alloc: Global,
    confs: [&Conf; 2],
    words: &mut SplitWhitespace<'_>,
) -> Result<Option<String>, NoMemory> {
    let (Some(limit), Some(seed), Some(calls)) = (number(words), number(words), number(words))
    else {
        return Ok(None);
    };
    let limit = u32::try_from(limit).unwrap_or(0);
    let pair = Pair {
        table: HostTable::new(alloc, limit)?,
        plain: Plain::new(alloc, limit),
    };
    match first_other(alloc, confs, pair, seed, calls)? {
        Some(turn) => Ok(Some(format!(in alloc; "call {turn} differs")?)),
        None => Ok(Some(format!(in alloc; "{calls} calls, equal")?)),
    }
}
