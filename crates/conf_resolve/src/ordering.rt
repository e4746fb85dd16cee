ghost use Rattle.std.specs.Prelude.{◌≡◌, map, IfOk};
ghost use Rattle.conf_resolve.specs.InOrder.{ports_in_order, dps_in_order, ordered};

use crate::order::in_order;
use crate::ordered::OrderedConf;
use crate::vlans::vlans_by;
use conf_shape::{RawConf, RawDp, RawDps};
use net_base::{NoMemory, TryCopy};
use std::alloc::Global;

fn ports_in_order(alloc: Global, dp: &RawDp) -> Result<RawDp, NoMemory>
    ensures { IfOk result (λ made. made ≡ ports_in_order dp.now) }
{
    Ok(RawDp {
        names: dp.names.copy(alloc)?,
        id: dp.id,
        hardware: dp.hardware.copy(alloc)?,
        timeout: dp.timeout,
        arp_timeout: dp.arp_timeout,
        stack_priority: dp.stack_priority,
        lldp: dp.lldp,
        drops: dp.drops,
        ports: in_order(dp.ports.copy(alloc)?)?,
    })
}

fn all_ports_in_order(alloc: Global, dps: &[RawDp]) -> Result<RawDps, NoMemory>
    ensures { IfOk result (λ made. made ≡ map ports_in_order dps.now) }
{
    let mut made = RawDps::new(alloc);
    for dp in dps {
        made.push(ports_in_order(alloc, dp)?)?;
    }
    Ok(made)
}

fn dps_in_order(alloc: Global, raw: &RawConf) -> Result<RawDps, NoMemory>
    ensures { IfOk result (λ made. made ≡ dps_in_order raw.now) }
{
    let dps = all_ports_in_order(alloc, raw.dps.as_slice())?;
    in_order(dps)
}

/// A raw configuration in the order in which it is checked, with the VLANs that numbers name and
/// that aren't written.
pub fn arrange(alloc: Global, raw: &RawConf) -> Result<OrderedConf, NoMemory>
    ensures { IfOk result (λ conf. conf ≡ ordered raw.now) }
{
    let dps = dps_in_order(alloc, raw)?;
    let acls = in_order(raw.acls.copy(alloc)?)?;
    let routers = in_order(raw.routers.copy(alloc)?)?;
    let vlans = vlans_by(
        alloc,
        raw.vlans.as_slice(),
        dps.as_slice(),
        routers.as_slice(),
    )?;
    Ok(OrderedConf {
        dps,
        vlans,
        acls,
        routers,
    })
}
