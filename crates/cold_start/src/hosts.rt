//! The hosts of a datapath's group.

ghost use Rattle.std.specs.Prelude.{◌≡◌, ◌==◌, ◌&&◌, map, filter, IfOk};
ghost use Rattle.std.specs.List.{find, list_any};
ghost use Rattle.std.specs.Option.{option_copied};
ghost use Rattle.conf_types.specs.Groups.{group_of};
ghost use Rattle.conf_types.specs.Lists.{is_same};
ghost use Rattle.conf_types.specs.State.{IsValidState};
ghost use Rattle.packet_way.specs.Present.{state_of};
ghost use Rattle.plan_units.specs.Units.{is_of_group, hosts_of};

use conf_types::{Conf, Dp, DpIds, HostRec, HostRecs};
use host_list::Hosts;
use net_base::{DpId, Items, Mac, NoMemory, Vid};
use packet_way::{Now, host_with};
use std::alloc::Global;

/// The datapaths of the group with this number.
fn dps_in(alloc: Global, conf: &Conf, group: DpId) -> Result<DpIds, NoMemory>
    ensures { IfOk result (λ ids. ids ≡ map (λ d. d.id) (filter (λ d. (group_of conf.now d.id).0 == group.0) conf.now.dps)) }
{
    let mut ids = Items::new(alloc);
    for dp in conf.dps().as_slice() {
        if conf.group_number(dp.id) == group {
            ids.push(dp.id)?;
        }
    }
    Ok(ids)
}

fn has_id(ids: &[DpId], id: DpId) -> bool
    ensures { result ≡ list_any (λ other. other.0 == id.0) ids.now }
{
    ids.iter().any(|other| *other == id)
}

fn hosts_on(alloc: Global, hosts: &Hosts, ids: &[DpId]) -> Result<HostRecs, NoMemory>
    ensures { IfOk result (λ made. made ≡ filter (λ h. list_any (λ id. id.0 == h.dp.0) ids.now) hosts.now) }
{
    let mut made = Items::new(alloc);
    for host in hosts.iter() {
        if has_id(ids, host.dp) {
            made.push(*host)?;
        }
    }
    Ok(made)
}

/// The hosts of a datapath's group, in the order of learning.
pub(crate) fn hosts_of(alloc: Global, conf: &Conf, now: &Now, dp: &Dp) -> Result<HostRecs, NoMemory>
    requires { IsValidState conf.now (state_of now.now) }
    ensures { IfOk result (λ made. made ≡ hosts_of conf.now (state_of now.now) dp.now) }
{
    let ids = dps_in(alloc, conf, conf.group_number(dp.id))?;
    hosts_on(alloc, now.hosts, ids.as_slice())
}

/// The host of a datapath's group with this address in the VLAN; `None` exactly where there is none.
pub(crate) fn find_host<'a>(
    conf: &Conf,
    hosts: &'a Hosts,
    dp: &Dp,
    vid: Vid,
    mac: Mac,
) -> Option<&'a HostRec>
    ensures { option_copied result ≡ find (λ h. h.vid == vid && is_same h.mac.0 mac.0) (filter (is_of_group conf.now dp.now) hosts.now) }
{
    host_with(conf, hosts, dp, vid, mac)
}
