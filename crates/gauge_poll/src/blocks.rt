//! The blocks that are given, in Prometheus' text format, and what waits until one is whole.

ghost use Rattle.std.specs.Prelude.{◌≡◌, ◌++◌, ◌&&◌, ℕ, OnOk};
ghost use Rattle.prom_text.specs.Blocks.{flow_block, port_block};
ghost use Rattle.prom_text.specs.Samples.{block_text};
ghost use Rattle.gauge_poll.specs.Lines.{block_to, blocks_for, blocks_in, has_blocks, state_blocks, takes_blocks, waiting_for, with_flows, with_ports};
ghost use Rattle.gauge_poll.specs.Newest.{waits_of};
ghost use Rattle.gauge_poll.specs.Polls.{no_part, with_at};

use crate::lines::{state_of, tells_states};
use crate::parts::{Parts, Waiting, add_flows, add_ports, few_flows, few_ports};
use crate::report::Report;
use crate::telling::Telling;
use conf_types::Dp;
use flow_stats::Flow;
use gauge_conf::{Db, Watcher};
use net_base::{Names, NoMemory, Text, TryCopy};
use of13_codec::{PortDesc, PortStats};
use prom_text::{flow_block, port_block, state_block};
use std::alloc::Global;

fn takes_blocks(db: &Db) -> bool
    ensures { result ≡ takes_blocks db.now }
{
    matches!(db, Db::Prometheus)
}

fn has_blocks(watcher: &Watcher) -> bool
    ensures { result ≡ has_blocks watcher.now }
{
    watcher.dbs.as_slice().iter().any(|db| takes_blocks(db))
}

/// Whether a reply, which counts or not, is taken for blocks of a watcher.
fn takes(counted: bool, watcher: &Watcher) -> bool
    ensures { result ≡ (counted && has_blocks watcher.now) }
{
    counted && has_blocks(watcher)
}

/// Adds a block, where this db takes blocks.
fn put_block(alloc: Global, lines: &mut Names, db: &Db, block: &Text) -> Result<(), NoMemory>
    ensures { OnOk result (lines.new ≡ lines.old ++ block_to block.now db.now) }
{
    match db {
        Db::Text(_) => Ok(()),
        Db::Prometheus => lines.push(block.copy(alloc)?),
    }
}

/// Adds a block for each db of a watcher that takes blocks.
fn put_blocks(
    alloc: Global,
    lines: &mut Names,
    watcher: &Watcher,
    block: &Text,
) -> Result<(), NoMemory>
    ensures { OnOk result (lines.new ≡ lines.old ++ blocks_in watcher.now block.now) }
{
    for db in watcher.dbs.as_slice() {
        put_block(alloc, lines, db, block)?;
    }
    Ok(())
}

/// Adds the blocks of a port's state.
fn put_state_blocks(
    alloc: Global,
    lines: &mut Names,
    watcher: &Watcher,
    dp: &Dp,
    reason: u8,
    port: &PortDesc,
) -> Result<(), NoMemory>
    ensures { OnOk result (lines.new ≡ lines.old ++ state_blocks watcher.now dp.now reason port.now) }
{
    if !tells_states(dp, watcher) {
        return Ok(());
    }
    let mut block = Text::new(alloc);
    state_block(alloc, dp, port.no, state_of(reason, port) == 1, &mut block)?;
    put_blocks(alloc, lines, watcher, &block)
}

/// The counters of ports wait with those of the parts before.
fn wait_ports(
    alloc: Global,
    parts: &mut Parts,
    place: usize,
    conn: u32,
    stats: &[PortStats],
) -> Result<(), NoMemory>
    ensures { OnOk result ((c p : ℕ) → waits_of parts.new c p ≡ with_at conn place (with_ports stats.now (waits_of parts.old conn place)) (waits_of parts.old) c p) }
{
    let Waiting { mut ports, flows } = parts.take(alloc, conn, place)?;
    add_ports(alloc, &mut ports, stats)?;
    let ports = few_ports(alloc, ports)?;
    parts.put(alloc, conn, place, Waiting { ports, flows })
}

/// The last part: adds the blocks of the counters of ports that wait and of these.
fn end_ports(
    alloc: Global,
    lines: &mut Names,
    parts: &mut Parts,
    watcher: &Watcher,
    place: usize,
    report: &Report,
    stats: &[PortStats],
) -> Result<(), NoMemory>
    ensures lines { OnOk result (lines.new ≡ lines.old ++ blocks_in watcher.now (block_text (port_block report.now.dp.now ((waits_of parts.old report.now.conn place).ports ++ stats.now)))) }
    ensures waits { OnOk result ((c p : ℕ) → waits_of parts.new c p ≡ with_at report.now.conn place no_part (waits_of parts.old) c p) }
{
    let mut waiting = parts.take(alloc, report.conn, place)?;
    add_ports(alloc, &mut waiting.ports, stats)?;
    let mut block = Text::new(alloc);
    port_block(alloc, report.dp, waiting.ports.as_slice(), &mut block)?;
    put_blocks(alloc, lines, watcher, &block)
}

/// Flow entries wait with those of the parts before.
fn wait_flows(
    alloc: Global,
    parts: &mut Parts,
    place: usize,
    conn: u32,
    flows: &[Flow],
) -> Result<(), NoMemory>
    ensures { OnOk result ((c p : ℕ) → waits_of parts.new c p ≡ with_at conn place (with_flows flows.now (waits_of parts.old conn place)) (waits_of parts.old) c p) }
{
    let Waiting {
        ports,
        flows: mut all,
    } = parts.take(alloc, conn, place)?;
    add_flows(alloc, &mut all, flows)?;
    let flows = few_flows(alloc, all)?;
    parts.put(alloc, conn, place, Waiting { ports, flows })
}

/// The last part: adds the blocks of the flow entries that wait and of these.
fn end_flows(
    alloc: Global,
    lines: &mut Names,
    parts: &mut Parts,
    watcher: &Watcher,
    place: usize,
    report: &Report,
    flows: &[Flow],
) -> Result<(), NoMemory>
    ensures lines { OnOk result (lines.new ≡ lines.old ++ blocks_in watcher.now (block_text (flow_block report.now.dp.now ((waits_of parts.old report.now.conn place).flows ++ flows.now)))) }
    ensures waits { OnOk result ((c p : ℕ) → waits_of parts.new c p ≡ with_at report.now.conn place no_part (waits_of parts.old) c p) }
{
    let mut waiting = parts.take(alloc, report.conn, place)?;
    add_flows(alloc, &mut waiting.flows, flows)?;
    let mut block = Text::new(alloc);
    flow_block(alloc, report.dp, waiting.flows.as_slice(), &mut block)?;
    put_blocks(alloc, lines, watcher, &block)
}

/// Adds the blocks of a watcher, to whose newest poll what is told is a reply, or not; what isn't whole yet
/// waits.
pub(crate) fn put_blocks_for(
    alloc: Global,
    lines: &mut Names,
    parts: &mut Parts,
    watcher: &Watcher,
    place: usize,
    counted: bool,
    report: &Report,
) -> Result<(), NoMemory>
    ensures lines { OnOk result (lines.new ≡ lines.old ++ blocks_for watcher.now counted report.now.told.now (waits_of parts.old report.now.conn place) report.now.dp.now) }
    ensures waits { OnOk result ((c p : ℕ) → waits_of parts.new c p ≡ with_at report.now.conn place (waiting_for watcher.now counted report.now.told.now (waits_of parts.old report.now.conn place)) (waits_of parts.old) c p) }
{
    let is_taken = takes(counted, watcher);
    match report.told {
        Telling::Ports { more, stats } => {
            if !is_taken {
                return Ok(());
            }
            if *more {
                return wait_ports(alloc, parts, place, report.conn, stats.as_slice());
            }
            end_ports(
                alloc,
                lines,
                parts,
                watcher,
                place,
                report,
                stats.as_slice(),
            )
        }
        Telling::Flows(part) => {
            let flows = part.flows.as_slice();
            if !is_taken {
                return Ok(());
            }
            if part.more {
                return wait_flows(alloc, parts, place, report.conn, flows);
            }
            end_flows(alloc, lines, parts, watcher, place, report, flows)
        }
        Telling::State { reason, port } => {
            put_state_blocks(alloc, lines, watcher, report.dp, *reason, port)
        }
        Telling::Nothing => Ok(()),
    }
}
