//! The items that count.

ghost use Rattle.std.specs.Prelude.{◌≡◌, IfOk};
ghost use Rattle.prom_text.specs.Counted.{counted_flows, counted_ports};

use crate::rows::{MOST_FLOWS, MOST_PORTS, see_flow, see_port};
use flow_stats::{Flow, Flows};
use net_base::{NoMemory, TryCopy};
use of13_codec::{PortStats, PortStatsList};
use std::alloc::Global;
use std::collections::BTreeSet;

/// The ports that count: the first of equal ones, at most 4,096.
pub fn counted_ports(alloc: Global, items: &[PortStats]) -> Result<PortStatsList, NoMemory>
    ensures { IfOk result (λ made. made ≡ counted_ports items.now) }
{
    let mut seen = BTreeSet::new(alloc);
    let mut made = PortStatsList::new(alloc);
    for item in items {
        if made.len() == MOST_PORTS {
            return Ok(made);
        }
        let was = see_port(&mut seen, item.no)?;
        if !was {
            made.push(item.copy(alloc)?)?;
        }
    }
    Ok(made)
}

/// The flow entries that count: the first of equal ones, at most 65,536.
pub fn counted_flows(alloc: Global, flows: &[Flow]) -> Result<Flows, NoMemory>
    ensures { IfOk result (λ made. made ≡ counted_flows flows.now) }
{
    let mut seen = BTreeSet::new(alloc);
    let mut made = Flows::new(alloc);
    for flow in flows {
        if made.len() == MOST_FLOWS {
            return Ok(made);
        }
        let was = see_flow(alloc, &mut seen, flow)?;
        if !was {
            made.push(flow.copy(alloc)?)?;
        }
    }
    Ok(made)
}
