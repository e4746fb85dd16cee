//! Names of metrics, ports and flow entries.

ghost use Rattle.std.specs.Prelude.{◌≡◌, ◌<◌, None, Some, slice_get, if◌then◌else◌, IfOk};
ghost use Rattle.std.specs.Option.{option_copied};
ghost use Rattle.conf_types.specs.Configuration.{port_with};
ghost use Rattle.prom_text.specs.Blocks.{flow_name, is_port_no, port_metric_names, port_name};

use conf_types::{Dp, Port};
use flow_stats::Flow;
use itoa::Buffer;
use net_base::{NoMemory, PortNo, Text, TryCopy};
use std::alloc::Global;

/// The metric of a port's counter, by the counter's place in the order of the standard.
#[tactic(auto, unfolding(crate::specs::Blocks::port_metric_names))]
pub(crate) fn port_metric_name(at: usize) -> &'static str
    requires { at < 12 }
    ensures { slice_get port_metric_names at ≡ Some result.now }
{
    match at {
        0 => "of_port_rx_packets",
        1 => "of_port_tx_packets",
        2 => "of_port_rx_bytes",
        3 => "of_port_tx_bytes",
        4 => "of_port_rx_dropped",
        5 => "of_port_tx_dropped",
        6 => "of_port_rx_errors",
        7 => "of_port_tx_errors",
        8 => "of_port_rx_frame_err",
        9 => "of_port_rx_over_err",
        10 => "of_port_rx_crc_err",
        _ => "of_port_collisions",
    }
}

/// The configured interface with this number.
fn port_of(dp: &Dp, number: u32) -> Option<&Port>
    ensures { option_copied result ≡ (if is_port_no number then port_with dp.now.ports number else None) }
{
    match PortNo::new(number) {
        Some(no) => dp.port(no),
        None => None,
    }
}

/// The name of the interface with this number, or the number itself where the datapath has none.
pub fn port_name(alloc: Global, dp: &Dp, number: u32) -> Result<Text, NoMemory>
    ensures { IfOk result (λ name. name ≡ port_name dp.now number) }
{
    match port_of(dp, number) {
        Some(port) => port.name.copy(alloc),
        None => Text::from_str(alloc, Buffer::new().format(number)),
    }
}

/// A flow entry by its table, its priority and the hexadecimal digits of its match, with colons between.
#[tactic(auto, unfolding(crate::specs::Blocks::flow_name))]
pub fn flow_name(alloc: Global, flow: &Flow) -> Result<Text, NoMemory>
    ensures { IfOk result (λ name. name ≡ flow_name flow.now) }
{
    let key = hex::encode(alloc, flow.key.as_slice())?;
    let mut text = Text::from_str(alloc, Buffer::new().format(flow.table))?;
    text.append(":")?;
    text.append(Buffer::new().format(flow.priority))?;
    text.append(":")?;
    text.append(key.as_str())?;
    Ok(text)
}
