//! The items that count, with their labels and values.

ghost use Rattle.std.specs.Prelude.{◌≡◌, ◌==◌, ◌++◌, ◌∷◌, [], ◌||◌, ◌<◌, ◌^◌, ℕ, List, slice_index, IfOk, OnOk};
ghost use Rattle.std.specs.BTreeSet.{contains, contains_text};
ghost use Rattle.std.specs.Ordering.{nat_cmp};
ghost use Rattle.std.specs.Str.{bytes_eq};
ghost use Rattle.prom_text.specs.Samples.{label_text, labels_text};
ghost use Rattle.prom_text.specs.Blocks.{dp_labels, flow_labels, flow_name, flow_row, flow_rows, port_labels, port_row, port_rows, state_row};
ghost use Rattle.prom_text.specs.Apart.{FitsName};
ghost use Rattle.prom_text.specs.Spelled.{AreSpelled, IsSpelled};

use crate::names::{flow_name, port_name};
use crate::spelling::put_label;
use conf_types::Dp;
use flow_stats::Flow;
use itoa::Buffer;
use net_base::{Items, NoMemory, Text};
use of13_codec::PortStats;
use std::alloc::Global;
use std::collections::BTreeSet;

/// How many different ports of a reply count.
pub(crate) const MOST_PORTS: usize = 4096;

/// How many different flow entries of a reply count.
pub(crate) const MOST_FLOWS: usize = 65_536;

/// An item: its labels as they are spelled, and its value for each metric.
#[derive(Drop)]
pub(crate) struct Row {
    pub labels: Text,
    pub values: Items<u64>,
}

pub(crate) type Rows = Items<Row>;

/// Adds the labels of a datapath.
fn put_dp_labels(alloc: Global, out: &mut Text, dp: &Dp) -> Result<(), NoMemory>
    ensures { OnOk result (out.new ≡ out.old ++ labels_text (dp_labels dp.now)) }
{
    put_label(alloc, out, "dp_id", Buffer::new().format(dp.id.0))?;
    out.append(",")?;
    put_label(alloc, out, "dp_name", dp.name.as_str())
}

fn make_port_labels(alloc: Global, dp: &Dp, number: u32) -> Result<Text, NoMemory>
    ensures { IfOk result (λ made. made ≡ labels_text (port_labels dp.now number)) }
{
    let name = port_name(alloc, dp, number)?;
    let mut text = Text::new(alloc);
    put_dp_labels(alloc, &mut text, dp)?;
    text.append(",")?;
    put_label(alloc, &mut text, "port", Buffer::new().format(number))?;
    text.append(",")?;
    put_label(alloc, &mut text, "port_name", name.as_str())?;
    Ok(text)
}

fn make_flow_labels(alloc: Global, dp: &Dp, flow: &Flow) -> Result<Text, NoMemory>
    ensures { IfOk result (λ made. made ≡ labels_text (flow_labels dp.now flow.now)) }
{
    let key = hex::encode(alloc, flow.key.as_slice())?;
    let mut text = Text::new(alloc);
    put_dp_labels(alloc, &mut text, dp)?;
    text.append(",")?;
    put_label(alloc, &mut text, "table", Buffer::new().format(flow.table))?;
    text.append(",")?;
    put_label(
        alloc,
        &mut text,
        "priority",
        Buffer::new().format(flow.priority),
    )?;
    text.append(",")?;
    put_label(alloc, &mut text, "match", key.as_str())?;
    Ok(text)
}

fn make_port_row(alloc: Global, dp: &Dp, port: &PortStats) -> Result<Row, NoMemory>
    ensures { IfOk result (λ row. IsSpelled row (port_row dp.now port.now)) }
{
    Ok(Row {
        labels: make_port_labels(alloc, dp, port.no)?,
        values: Items::from_slice(alloc, &port.counters)?,
    })
}

fn make_flow_row(alloc: Global, dp: &Dp, flow: &Flow) -> Result<Row, NoMemory>
    ensures { IfOk result (λ row. IsSpelled row (flow_row dp.now flow.now)) }
{
    Ok(Row {
        labels: make_flow_labels(alloc, dp, flow)?,
        values: Items::from_slice(alloc, &[flow.packets, flow.bytes])?,
    })
}

/// The one row of a port's state.
pub(crate) fn make_state_rows(alloc: Global, dp: &Dp, port: u32, up: bool) -> Result<Rows, NoMemory>
    ensures { IfOk result (λ rows. AreSpelled rows (state_row dp.now port up ∷ [])) }
{
    let row = Row {
        labels: make_port_labels(alloc, dp, port)?,
        values: Items::from_slice(alloc, &[u64::from(up)])?,
    };
    let mut rows = Rows::new(alloc);
    rows.push(row)?;
    Ok(rows)
}

/// Whether a port was seen; from now on it is.
pub(crate) fn see_port(seen: &mut BTreeSet<u32>, number: u32) -> Result<bool, NoMemory>
    ensures was { IfOk result (λ was. was ≡ contains nat_cmp seen.old number) }
    ensures is { OnOk result ((n : ℕ) → contains nat_cmp seen.new n ≡ (contains nat_cmp seen.old n || number == n)) }
{
    let was = seen.contains(&number);
    seen.insert(number)?;
    Ok(was)
}

fn fits_key(key: &[u8])
    ensures { (i : ℕ) → slice_index key.now i < 2 ^ 8 }
{
    let _len = key.len();
}

/// The numbers of a flow entry's name fit their bytes. Nothing is done.
fn fits_name(flow: &Flow)
    ensures { FitsName flow.now }
{
    let _table = flow.table;
    let _priority = flow.priority;
    fits_key(flow.key.as_slice());
}

/// Whether a flow entry was seen; from now on it is.
pub(crate) fn see_flow(
    alloc: Global,
    seen: &mut BTreeSet<String>,
    flow: &Flow,
) -> Result<bool, NoMemory>
    ensures was { IfOk result (λ was. was ≡ contains_text seen.old (flow_name flow.now)) }
    ensures is { OnOk result ((t : List ℕ) → contains_text seen.new t ≡ (contains_text seen.old t || bytes_eq (flow_name flow.now) t)) }
    ensures fits { IfOk result (λ _. FitsName flow.now) }
{
    fits_name(flow);
    let name = flow_name(alloc, flow)?;
    let was = seen.contains(name.as_str());
    seen.insert(String::from_str(alloc, name.as_str())?)?;
    Ok(was)
}

/// A row for each port that counts.
pub(crate) fn make_port_rows(alloc: Global, dp: &Dp, items: &[PortStats]) -> Result<Rows, NoMemory>
    ensures { IfOk result (λ rows. AreSpelled rows (port_rows dp.now items.now)) }
{
    let mut seen = BTreeSet::new(alloc);
    let mut rows = Rows::new(alloc);
    for item in items {
        if rows.len() == MOST_PORTS {
            return Ok(rows);
        }
        let was = see_port(&mut seen, item.no)?;
        if !was {
            rows.push(make_port_row(alloc, dp, item)?)?;
        }
    }
    Ok(rows)
}

/// A row for each flow entry that counts.
pub(crate) fn make_flow_rows(alloc: Global, dp: &Dp, flows: &[Flow]) -> Result<Rows, NoMemory>
    ensures { IfOk result (λ rows. AreSpelled rows (flow_rows dp.now flows.now)) }
{
    let mut seen = BTreeSet::new(alloc);
    let mut rows = Rows::new(alloc);
    for flow in flows {
        if rows.len() == MOST_FLOWS {
            return Ok(rows);
        }
        let was = see_flow(alloc, &mut seen, flow)?;
        if !was {
            rows.push(make_flow_row(alloc, dp, flow)?)?;
        }
    }
    Ok(rows)
}
