//! The lines that are given.

ghost use Rattle.std.specs.Prelude.{◌≡◌, ◌++◌, ◌∷◌, [], ◌<◌, codes, Some, slice_get, IfOk, OnOk};
ghost use Rattle.std.specs.Fmt.{decimal};
ghost use Rattle.std.specs.List.{flat_map};
ghost use Rattle.prom_text.specs.Blocks.{counter_names, port_name};
ghost use Rattle.gauge_poll.specs.Lines.{columns, counted_lines, flow_lines, flows_lines, line_to, lines_for, state_lines, state_of, stats_lines, tells_states};

use crate::polling::{is_polling, watches};
use crate::report::Report;
use crate::telling::Telling;
use conf_types::Dp;
use flow_stats::Flow;
use gauge_conf::{Db, Watcher};
use itoa::Buffer;
use net_base::{Moment, Names, NoMemory, Text, TryCopy};
use of13_codec::{PortDesc, PortStats};
use prom_text::{flow_name, port_name};
use std::alloc::Global;
use switch_session::is_up;

/// How many counters a port has (OpenFlow 1.3, 7.3.5.6).
const COUNTERS: usize = 12;

/// OFPPR_DELETE (7.4.3).
const DELETED: u8 = 1;

/// The name of a counter, by its place in the order of the standard.
fn counter_name(at: usize) -> &'static str
    requires { at < 12 }
    ensures { slice_get counter_names at ≡ Some result.now }
{
    match at {
        0 => "rx_packets",
        1 => "tx_packets",
        2 => "rx_bytes",
        3 => "tx_bytes",
        4 => "rx_dropped",
        5 => "tx_dropped",
        6 => "rx_errors",
        7 => "tx_errors",
        8 => "rx_frame_err",
        9 => "rx_over_err",
        10 => "rx_crc_err",
        _ => "collisions",
    }
}

/// The columns of the moment, the datapath, and the port or the flow entry.
fn make_front(alloc: Global, moment: Moment, dp: &Dp, source: &Text) -> Result<Text, NoMemory>
    ensures { IfOk result (λ made. made ≡ columns (decimal moment.0 ∷ dp.now.name ∷ source.now ∷ [])) }
{
    let mut text = Text::from_str(alloc, Buffer::new().format(moment.0))?;
    text.append("\t")?;
    text.append(dp.name.as_str())?;
    text.append("\t")?;
    text.append(source.as_str())?;
    Ok(text)
}

fn make_line(
    alloc: Global,
    file: &Text,
    front: &Text,
    counter: &str,
    value: u64,
) -> Result<Text, NoMemory>
    ensures { IfOk result (λ made. made ≡ columns (file.now ∷ front.now ∷ counter.now ∷ decimal value ∷ []) ++ 10 ∷ []) }
{
    let mut text = file.copy(alloc)?;
    text.append("\t")?;
    text.append(front.as_str())?;
    text.append("\t")?;
    text.append(counter)?;
    text.append("\t")?;
    text.append(Buffer::new().format(value))?;
    text.append("\n")?;
    Ok(text)
}

/// Adds a line, where this is a text db.
fn put_line(
    alloc: Global,
    lines: &mut Names,
    db: &Db,
    front: &Text,
    counter: &str,
    value: u64,
) -> Result<(), NoMemory>
    ensures { OnOk result (lines.new ≡ lines.old ++ line_to (front.now ∷ counter.now ∷ decimal value ∷ []) db.now) }
{
    match db {
        Db::Text(file) => lines.push(make_line(alloc, file, front, counter, value)?),
        Db::Prometheus => Ok(()),
    }
}

/// Adds a line for each text db of a watcher.
fn put_lines(
    alloc: Global,
    lines: &mut Names,
    watcher: &Watcher,
    front: &Text,
    counter: &str,
    value: u64,
) -> Result<(), NoMemory>
    ensures { OnOk result (lines.new ≡ lines.old ++ flat_map (line_to (front.now ∷ counter.now ∷ decimal value ∷ [])) watcher.now.dbs) }
{
    for db in watcher.dbs.as_slice() {
        put_line(alloc, lines, db, front, counter, value)?;
    }
    Ok(())
}

/// Adds the lines of a port's counters.
fn put_counted_lines(
    alloc: Global,
    lines: &mut Names,
    watcher: &Watcher,
    moment: Moment,
    dp: &Dp,
    port: &PortStats,
) -> Result<(), NoMemory>
    ensures { OnOk result (lines.new ≡ lines.old ++ counted_lines watcher.now moment dp.now (port_name dp.now port.now.no) counter_names port.now.counters) }
{
    let source = port_name(alloc, dp, port.no)?;
    let front = make_front(alloc, moment, dp, &source)?;
    for at in 0..COUNTERS {
        let value = port.counters[at];
        put_lines(alloc, lines, watcher, &front, counter_name(at), value)?;
    }
    Ok(())
}

/// Adds the lines of all ports' counters.
fn put_stats_lines(
    alloc: Global,
    lines: &mut Names,
    watcher: &Watcher,
    moment: Moment,
    dp: &Dp,
    stats: &[PortStats],
) -> Result<(), NoMemory>
    ensures { OnOk result (lines.new ≡ lines.old ++ stats_lines watcher.now moment dp.now stats.now) }
{
    for port in stats {
        put_counted_lines(alloc, lines, watcher, moment, dp, port)?;
    }
    Ok(())
}

/// Adds the lines of a flow entry: how many packets it took, and how many bytes.
fn put_flow_lines(
    alloc: Global,
    lines: &mut Names,
    watcher: &Watcher,
    moment: Moment,
    dp: &Dp,
    flow: &Flow,
) -> Result<(), NoMemory>
    ensures { OnOk result (lines.new ≡ lines.old ++ flow_lines watcher.now moment dp.now flow.now) }
{
    let source = flow_name(alloc, flow)?;
    let front = make_front(alloc, moment, dp, &source)?;
    put_lines(alloc, lines, watcher, &front, "packets", flow.packets)?;
    put_lines(alloc, lines, watcher, &front, "bytes", flow.bytes)
}

/// Adds the lines of all flow entries.
fn put_flows_lines(
    alloc: Global,
    lines: &mut Names,
    watcher: &Watcher,
    moment: Moment,
    dp: &Dp,
    flows: &[Flow],
) -> Result<(), NoMemory>
    ensures { OnOk result (lines.new ≡ lines.old ++ flows_lines watcher.now moment dp.now flows.now) }
{
    for flow in flows {
        put_flow_lines(alloc, lines, watcher, moment, dp, flow)?;
    }
    Ok(())
}

pub(crate) fn state_of(reason: u8, port: &PortDesc) -> u64
    ensures { result ≡ state_of reason port.now }
{
    if reason != DELETED && is_up(port) {
        1
    } else {
        0
    }
}

pub(crate) fn tells_states(dp: &Dp, watcher: &Watcher) -> bool
    ensures { result ≡ tells_states dp.now watcher.now }
{
    !is_polling(watcher.kind) && watches(watcher, dp.id)
}

/// Adds the lines of a port's state.
fn put_state_lines(
    alloc: Global,
    lines: &mut Names,
    watcher: &Watcher,
    moment: Moment,
    dp: &Dp,
    reason: u8,
    port: &PortDesc,
) -> Result<(), NoMemory>
    ensures { OnOk result (lines.new ≡ lines.old ++ state_lines watcher.now moment dp.now reason port.now) }
{
    if !tells_states(dp, watcher) {
        return Ok(());
    }
    let source = port_name(alloc, dp, port.no)?;
    let front = make_front(alloc, moment, dp, &source)?;
    let state = state_of(reason, port);
    put_lines(alloc, lines, watcher, &front, "state", state)
}

/// Adds the lines of a watcher, to whose newest poll what is told is a reply, or not.
pub(crate) fn put_lines_for(
    alloc: Global,
    lines: &mut Names,
    watcher: &Watcher,
    counted: bool,
    report: &Report,
) -> Result<(), NoMemory>
    ensures { OnOk result (lines.new ≡ lines.old ++ lines_for watcher.now counted report.now.moment report.now.told.now report.now.dp.now) }
{
    let (moment, dp) = (report.moment, report.dp);
    match report.told {
        Telling::Ports { stats, .. } => {
            if !counted {
                return Ok(());
            }
            put_stats_lines(alloc, lines, watcher, moment, dp, stats.as_slice())
        }
        Telling::Flows(part) => {
            if !counted {
                return Ok(());
            }
            put_flows_lines(alloc, lines, watcher, moment, dp, part.flows.as_slice())
        }
        Telling::State { reason, port } => {
            put_state_lines(alloc, lines, watcher, moment, dp, *reason, port)
        }
        Telling::Nothing => Ok(()),
    }
}
