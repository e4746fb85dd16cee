//! Blocks of samples.

ghost use Rattle.std.specs.Prelude.{◌≡◌, ◌++◌, List, codes, slice_index, IfOk, OnOk, OnErr};
ghost use Rattle.std.specs.List.{flat_map};
ghost use Rattle.prom_text.specs.Blocks.{Row as Told, flow_block, metric, metrics, port_block, port_metric_names, state_block};
ghost use Rattle.prom_text.specs.Samples.{block_text, metric_text};
ghost use Rattle.prom_text.specs.Spelled.{AreSpelled};

use crate::names::port_metric_name;
use crate::rows::{Row, Rows, make_flow_rows, make_port_rows, make_state_rows};
use crate::spelling::{put_sample, put_type};
use conf_types::Dp;
use flow_stats::Flow;
use net_base::{NoMemory, Text};
use of13_codec::PortStats;
use std::alloc::Global;

/// How many counters a port has (OpenFlow 1.3, 7.3.5.6).
const COUNTERS: usize = 12;

fn value_at(row: &Row, place: usize) -> u64
    ensures { result ≡ slice_index row.now.values place }
{
    let values = row.values.as_slice();
    if place < values.len() {
        values[place]
    } else {
        0
    }
}

/// Adds a metric, with the value at a place of each row.
fn put_metric(
    out: &mut Text,
    name: &str,
    kind: &str,
    place: usize,
    rows: &[Row],
) -> Result<(), NoMemory>
    ensures { OnOk result ((told : List Told) → AreSpelled rows.now told → out.new ≡ out.old ++ metric_text (metric name.now kind.now place told)) }
{
    put_type(out, name, kind)?;
    for row in rows {
        put_sample(out, name, row.labels.as_str(), value_at(row, place))?;
    }
    Ok(())
}

/// Adds the metrics of ports' counters.
fn put_port_metrics(out: &mut Text, rows: &[Row]) -> Result<(), NoMemory>
    ensures { OnOk result ((told : List Told) → AreSpelled rows.now told → out.new ≡ out.old ++ flat_map metric_text (metrics port_metric_names (codes "counter") 0 told)) }
{
    for place in 0..COUNTERS {
        put_metric(out, port_metric_name(place), "counter", place, rows)?;
    }
    Ok(())
}

#[tactic(auto, unfolding(crate::specs::Samples::block_text, crate::specs::Blocks::port_block))]
fn make_port_block(alloc: Global, dp: &Dp, items: &[PortStats]) -> Result<Text, NoMemory>
    ensures { IfOk result (λ made. made ≡ block_text (port_block dp.now items.now)) }
{
    let rows = make_port_rows(alloc, dp, items)?;
    let mut text = Text::new(alloc);
    put_port_metrics(&mut text, rows.as_slice())?;
    text.append("\n")?;
    Ok(text)
}

#[tactic(auto, unfolding(crate::specs::Samples::block_text, crate::specs::Blocks::flow_block))]
fn make_flow_block(alloc: Global, dp: &Dp, flows: &[Flow]) -> Result<Text, NoMemory>
    ensures { IfOk result (λ made. made ≡ block_text (flow_block dp.now flows.now)) }
{
    let rows = make_flow_rows(alloc, dp, flows)?;
    let mut text = Text::new(alloc);
    put_metric(&mut text, "of_flow_packets", "counter", 0, rows.as_slice())?;
    put_metric(&mut text, "of_flow_bytes", "counter", 1, rows.as_slice())?;
    text.append("\n")?;
    Ok(text)
}

#[tactic(auto, unfolding(crate::specs::Samples::block_text, crate::specs::Blocks::state_block))]
fn make_state_block(alloc: Global, dp: &Dp, port: u32, up: bool) -> Result<Text, NoMemory>
    ensures { IfOk result (λ made. made ≡ block_text (state_block dp.now port up)) }
{
    let rows = make_state_rows(alloc, dp, port, up)?;
    let mut text = Text::new(alloc);
    put_metric(&mut text, "of_port_state", "gauge", 0, rows.as_slice())?;
    text.append("\n")?;
    Ok(text)
}

/// Adds the block of ports' counters: a metric for each counter, with a sample for each port, in the order
/// of the items. Of items of one port the first counts, and of different ports the first 4,096. After
/// `NoMemory` `out` is as it was.
pub fn port_block(
    alloc: Global,
    dp: &Dp,
    items: &[PortStats],
    out: &mut Text,
) -> Result<(), NoMemory>
    ensures ok { OnOk result (out.new ≡ out.old ++ block_text (port_block dp.now items.now)) }
    ensures err { OnErr result (out.new ≡ out.old) }
{
    let text = make_port_block(alloc, dp, items)?;
    out.append(text.as_str())
}

/// Adds the block of flow entries: how many packets, and how many bytes they took, with a sample for each,
/// in the order of the items. Of items with one table, one priority and one match the first counts, and of
/// different ones the first 65,536. After `NoMemory` `out` is as it was.
pub fn flow_block(alloc: Global, dp: &Dp, flows: &[Flow], out: &mut Text) -> Result<(), NoMemory>
    ensures ok { OnOk result (out.new ≡ out.old ++ block_text (flow_block dp.now flows.now)) }
    ensures err { OnErr result (out.new ≡ out.old) }
{
    let text = make_flow_block(alloc, dp, flows)?;
    out.append(text.as_str())
}

/// Adds the block of a port's state: 1 where it is up, else 0. After `NoMemory` `out` is as it was.
pub fn state_block(
    alloc: Global,
    dp: &Dp,
    port: u32,
    up: bool,
    out: &mut Text,
) -> Result<(), NoMemory>
    ensures ok { OnOk result (out.new ≡ out.old ++ block_text (state_block dp.now port up)) }
    ensures err { OnErr result (out.new ≡ out.old) }
{
    let text = make_state_block(alloc, dp, port, up)?;
    out.append(text.as_str())
}
