ghost use Rattle.std.specs.Prelude.{◌≡◌, fold, map, IfOk, OnOk};
ghost use Rattle.conf_json.specs.Json.{object, with_member};
ghost use Rattle.conf_json.specs.Text.{lldp_members, dp_text, dp_member};

use crate::lists::number_or_null;
use crate::port::make_ports;
use crate::value::{Json, Object};
use conf_types::{Conf, Dp};
use net_base::NoMemory;
use std::alloc::Global;

/// How often links are probed, where they are.
fn put_lldp(alloc: Global, made: &mut Object, lldp: Option<u32>) -> Result<(), NoMemory>
    ensures { OnOk result (made.new ≡ fold with_member made.old (lldp_members lldp)) }
{
    match lldp {
        Some(seconds) => made.put_number(alloc, "lldp_beacon", seconds),
        None => Ok(()),
    }
}

fn make_dp(alloc: Global, conf: &Conf, dp: &Dp) -> Result<Json, NoMemory>
    ensures { IfOk result (λ made. made ≡ dp_text conf.now dp.now) }
{
    let mut made = Object::new(alloc);
    made.put_number(alloc, "arp_neighbor_timeout", dp.arp_timeout)?;
    made.put_text(alloc, "description", &dp.description)?;
    made.put(alloc, "dp_id", Json::number(dp.id.0))?;
    made.put_flag(alloc, "drop_bpdu", dp.drop_bpdu)?;
    made.put_flag(alloc, "drop_broadcast_source_address", dp.drop_broadcast)?;
    made.put_flag(alloc, "drop_lldp", dp.drop_lldp)?;
    made.put_flag(alloc, "drop_spoofed_faucet_mac", dp.drop_spoofed)?;
    made.put_text(alloc, "hardware", &dp.hardware)?;
    let ports = make_ports(alloc, conf, dp.ports.as_slice())?;
    made.put(alloc, "interfaces", ports)?;
    put_lldp(alloc, &mut made, dp.lldp)?;
    let priority = number_or_null(dp.stack_priority);
    made.put(alloc, "stack_priority", priority)?;
    made.put_number(alloc, "timeout", dp.timeout)?;
    Ok(made.into_json())
}

/// The datapaths, under their names.
pub(crate) fn make_dps(alloc: Global, conf: &Conf, dps: &[Dp]) -> Result<Json, NoMemory>
    ensures { IfOk result (λ made. made ≡ object (map (dp_member conf.now) dps.now)) }
{
    let mut made = Object::new(alloc);
    for dp in dps {
        let json = make_dp(alloc, conf, dp)?;
        made.put(alloc, dp.name.as_str(), json)?;
    }
    Ok(made.into_json())
}
