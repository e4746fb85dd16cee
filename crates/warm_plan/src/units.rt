//! The units of a datapath.

ghost use Rattle.std.specs.Prelude.{◌≡◌, ◌==◌, ◌++◌, map, filter, IfOk, OnOk};
ghost use Rattle.conf_types.specs.Groups.{group_of};
ghost use Rattle.packet_way.specs.Present.{state_of};
ghost use Rattle.plan_units.specs.declared.unit.Unit.TheVariants as unit;
ghost use Rattle.cold_start.specs.Cold.{units_of};

use conf_types::{Conf, Dp, HostRec, HostRecs, Port, Vlan};
use host_list::Hosts;
use net_base::{DpId, Items, NoMemory};
use packet_way::Now;
use plan_units::Unit;
use std::alloc::Global;

fn push_ports(out: &mut Items<Unit>, ports: &[Port]) -> Result<(), NoMemory>
    ensures { OnOk result (out.new ≡ out.old ++ map (λ i. unit.Port i.no) ports.now) }
{
    for port in ports {
        out.push(Unit::Port(port.no))?;
    }
    Ok(())
}

pub(crate) fn push_vlans(out: &mut Items<Unit>, vlans: &[Vlan]) -> Result<(), NoMemory>
    ensures { OnOk result (out.new ≡ out.old ++ map (λ v. unit.Vlan v.vid) vlans.now) }
{
    for vlan in vlans {
        out.push(Unit::Vlan(vlan.vid))?;
    }
    Ok(())
}

pub(crate) fn push_hosts(out: &mut Items<Unit>, hosts: &[HostRec]) -> Result<(), NoMemory>
    ensures { OnOk result (out.new ≡ out.old ++ map (λ h. unit.Host h.vid h.mac) hosts.now) }
{
    for host in hosts {
        out.push(Unit::Host(host.vid, host.mac))?;
    }
    Ok(())
}

fn push_routes(out: &mut Items<Unit>, vlans: &[Vlan]) -> Result<(), NoMemory>
    ensures { OnOk result (out.new ≡ out.old ++ map (λ v. unit.Route v.vid) vlans.now) }
{
    for vlan in vlans {
        out.push(Unit::Route(vlan.vid))?;
    }
    Ok(())
}

/// The hosts of the group with this number.
pub(crate) fn hosts_in(
    alloc: Global,
    conf: &Conf,
    hosts: &Hosts,
    group: DpId,
) -> Result<HostRecs, NoMemory>
    ensures { IfOk result (λ made. made ≡ filter (λ h. (group_of conf.now h.dp).0 == group.0) hosts.now) }
{
    let mut made = Items::new(alloc);
    for host in hosts.iter() {
        if conf.group_number(host.dp) == group {
            made.push(*host)?;
        }
    }
    Ok(made)
}

/// The units of a datapath, each once.
pub(crate) fn units_of(
    alloc: Global,
    conf: &Conf,
    now: &Now,
    dp: &Dp,
) -> Result<Items<Unit>, NoMemory>
    ensures { IfOk result (λ made. made ≡ units_of conf.now (state_of now.now) dp.now) }
{
    let hosts = hosts_in(alloc, conf, now.hosts, conf.group_number(dp.id))?;
    let vlans = conf.vlans().as_slice();
    let mut made = Items::new(alloc);
    made.push(Unit::Dp)?;
    push_ports(&mut made, dp.ports.as_slice())?;
    push_vlans(&mut made, vlans)?;
    push_hosts(&mut made, hosts.as_slice())?;
    push_routes(&mut made, vlans)?;
    Ok(made)
}
