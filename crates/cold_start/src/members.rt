//! The flow entries of one member of the configuration or of what was learned, by the compile calls.

ghost use Rattle.std.specs.Prelude.{◌≡◌, IfOk, OnOk};
ghost use Rattle.cold_start.specs.Counts.{RisesAtMost, RisesAtLeast};
ghost use Rattle.cold_start.specs.Members.{port_by, vlan_by, host_by};

use crate::append::append;
use acl_compile::{port_acl_entries, vlan_acl_entries};
use conf_types::{Conf, Dp, HostRec, Port, Tally, Vlan};
use host_list::Hosts;
use net_base::{Moment, NoMemory};
use of_match::Entries;
use route_compile::vip_entries;
use stack_paths::Paths;
use std::alloc::Global;
use vlan_compile::{admit_entries, counted_miss_entries, dst_entries, flood_entries, src_entries};

/// Of an interface: its ACLs, what it admits, and sources that aren't known there.
pub(crate) fn port_entries<T: Tally>(
    alloc: Global,
    conf: &Conf,
    dp: &Dp,
    port: &Port,
    hosts: &Hosts,
    units: &mut T,
) -> Result<Entries, NoMemory>
    ensures entries { IfOk result (λ made. made ≡ port_by conf.now dp.now hosts.now port.now) }
    ensures most { RisesAtMost 3 (T.count units.old) (T.count units.new) }
    ensures least { OnOk result (RisesAtLeast 1 (T.count units.old) (T.count units.new)) }
{
    let mut made = port_acl_entries(alloc, conf, dp, port, units)?;
    let admitted = admit_entries(alloc, conf, dp, port, units)?;
    append(&mut made, admitted)?;
    let missed = counted_miss_entries(alloc, conf, dp, port, hosts, units)?;
    append(&mut made, missed)?;
    Ok(made)
}

/// Of a VLAN: its ACLs, what the controller answers for its gateway, and its floods.
pub(crate) fn vlan_entries<T: Tally>(
    alloc: Global,
    conf: &Conf,
    dp: &Dp,
    vlan: &Vlan,
    paths: &Paths,
    units: &mut T,
) -> Result<Entries, NoMemory>
    ensures entries { IfOk result (λ made. made ≡ vlan_by conf.now dp.now paths.now vlan.now) }
    ensures most { RisesAtMost 3 (T.count units.old) (T.count units.new) }
    ensures least { OnOk result (RisesAtLeast 1 (T.count units.old) (T.count units.new)) }
{
    let mut made = vlan_acl_entries(alloc, conf, dp, vlan, units)?;
    let answered = vip_entries(alloc, conf, dp, vlan, units)?;
    append(&mut made, answered)?;
    let flooded = flood_entries(alloc, conf, dp, vlan, paths, units)?;
    append(&mut made, flooded)?;
    Ok(made)
}

/// Of a host of the datapath's group: as a source and as a destination.
pub(crate) fn host_entries<T: Tally>(
    alloc: Global,
    conf: &Conf,
    dp: &Dp,
    host: &HostRec,
    moment: Moment,
    paths: &Paths,
    units: &mut T,
) -> Result<Entries, NoMemory>
    ensures entries { IfOk result (λ made. made ≡ host_by conf.now dp.now moment.0 paths.now host.now) }
    ensures most { RisesAtMost 3 (T.count units.old) (T.count units.new) }
    ensures least { OnOk result (RisesAtLeast 1 (T.count units.old) (T.count units.new)) }
{
    let mut made = src_entries(alloc, conf, dp, host, moment, units)?;
    let reached = dst_entries(alloc, conf, dp, host, paths, units)?;
    append(&mut made, reached)?;
    Ok(made)
}
