//! All that may differ between two states, by name.

ghost use Rattle.std.specs.Prelude.{◌≡◌, ◌++◌, map, IfOk, OnOk};
ghost use Rattle.conf_types.specs.Groups.{group_of};
ghost use Rattle.packet_way.specs.Present.{state_of};
ghost use Rattle.conf_types.specs.declared.change.Change.TheVariants as change;
ghost use Rattle.conf_types.specs.Changes.{AreNamed};
ghost use Rattle.test_plans.specs.Named.{names};

use conf_types::{Conf, NeighRec, UpRec};
use host_list::Hosts;
use net_base::{DpId, Items, NoMemory};
use packet_way::Now;
use std::alloc::Global;
use warm_plan::Change;

fn name_hosts(out: &mut Items<Change>, conf: &Conf, hosts: &Hosts) -> Result<(), NoMemory>
    ensures { OnOk result (out.new ≡ out.old ++ map (λ h. change.Host (group_of conf.now h.dp) h.vid h.mac) hosts.now) }
{
    for host in hosts.iter() {
        out.push(Change::Host {
            group: conf.group_number(host.dp),
            vid: host.vid,
            mac: host.mac,
        })?;
    }
    Ok(())
}

fn name_ports(out: &mut Items<Change>, ups: &[UpRec]) -> Result<(), NoMemory>
    ensures { OnOk result (out.new ≡ out.old ++ map (λ up. change.Port up.dp up.port) ups.now) }
{
    for up in ups {
        out.push(Change::Port {
            dp: up.dp,
            port: up.port,
        })?;
    }
    Ok(())
}

fn name_dps(out: &mut Items<Change>, dps: &[DpId]) -> Result<(), NoMemory>
    ensures { OnOk result (out.new ≡ out.old ++ map change.Dp dps.now) }
{
    for dp in dps {
        out.push(Change::Dp(*dp))?;
    }
    Ok(())
}

fn name_neighbours(out: &mut Items<Change>, neighbours: &[NeighRec]) -> Result<(), NoMemory>
    ensures { OnOk result (out.new ≡ out.old ++ map (λ n. change.Neighbour n.group n.vid n.ip) neighbours.now) }
{
    for neighbour in neighbours {
        out.push(Change::Neighbour {
            group: neighbour.group,
            vid: neighbour.vid,
            ip: neighbour.ip,
        })?;
    }
    Ok(())
}

fn name_state(out: &mut Items<Change>, conf: &Conf, now: &Now) -> Result<(), NoMemory>
    ensures { OnOk result (out.new ≡ out.old ++ names conf.now (state_of now.now)) }
{
    name_hosts(out, conf, now.hosts)?;
    name_ports(out, now.ups.as_slice())?;
    name_dps(out, now.running.as_slice())?;
    name_neighbours(out, now.neighbours)?;
    Ok(())
}

/// Names each part of both states, and so all in which they differ.
pub fn all_named(
    alloc: Global,
    conf: &Conf,
    old: &Now,
    new: &Now,
) -> Result<Items<Change>, NoMemory>
    ensures { IfOk result (λ made. AreNamed conf.now (state_of old.now) (state_of new.now) made) }
{
    let mut made = Items::new(alloc);
    name_state(&mut made, conf, old)?;
    name_state(&mut made, conf, new)?;
    Ok(made)
}
