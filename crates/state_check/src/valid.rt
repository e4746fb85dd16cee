//! All that holds of a valid state.

ghost use Rattle.std.specs.Prelude.{◌≡◌, ◌↔◌, true, IfOk, IsTrue, is_some};
ghost use Rattle.std.specs.List.{AllByRecursion};
ghost use Rattle.conf_types.specs.Configuration.{port_at};
ghost use Rattle.conf_types.specs.Groups.{IsDp};
ghost use Rattle.conf_types.specs.State.{IsValidState};
ghost use Rattle.packet_way.specs.Present.{state_of};

use crate::{hosts, neighbours};
use conf_types::{Conf, HostRec, MOST_HOSTS, UpRec};
use net_base::{DpId, NoMemory};
use packet_way::Now;
use std::alloc::Global;

/// At most so many neighbours are kept.
const MOST_NEIGHBOURS: usize = 2048;

fn are_dps(conf: &Conf, running: &[DpId]) -> bool
    ensures { (result ≡ true) ↔ AllByRecursion (IsDp conf.now) running.now }
{
    running.iter().all(|dp| conf.group(*dp).is_some())
}

fn are_ports(conf: &Conf, ups: &[UpRec]) -> bool
    ensures { (result ≡ true) ↔ AllByRecursion (λ up. IsTrue (is_some (port_at conf.now up.dp up.port))) ups.now }
{
    ups.iter().all(|up| conf.port(up.dp, up.port).is_some())
}

/// Whether the state is valid, whose hosts stand in a slice.
fn is_valid_with(conf: &Conf, now: &Now, all: &[HostRec]) -> bool
    requires { all.now ≡ now.now.hosts.now }
    ensures { (result ≡ true) ↔ IsValidState conf.now (state_of now.now) }
{
    let known = now.neighbours;
    let dps = conf.dps().as_slice();
    if !are_dps(conf, now.running.as_slice()) || !are_ports(conf, now.ups.as_slice()) {
        return false;
    }
    if !hosts::are_hosts(conf, now, all) || !hosts::have_own_keys(conf, all) {
        return false;
    }
    if !hosts::stay_alone(conf, all) || !hosts::fit_all_ports(all, dps) {
        return false;
    }
    if !hosts::fit_all_vlans(conf, all, dps) || all.len() > MOST_HOSTS {
        return false;
    }
    if !neighbours::are_neighbours(conf, now, known) || !neighbours::have_own_keys(known) {
        return false;
    }
    known.len() <= MOST_NEIGHBOURS
}

/// Whether the state is valid for the configuration.
pub fn is_valid(alloc: Global, conf: &Conf, now: &Now) -> Result<bool, NoMemory>
    ensures { IfOk result (λ valid. (valid ≡ true) ↔ IsValidState conf.now (state_of now.now)) }
{
    let hosts = now.hosts.to_list(alloc)?;
    Ok(is_valid_with(conf, now, hosts.as_slice()))
}
