//! The hosts that a moment turns.

ghost use Rattle.std.specs.Prelude.{◌≡◌, Some, IfOk};
ghost use Rattle.ctl_core.specs.Turning.{turned, turns};

use conf_types::{Change, Conf, HostRec};
use ctl_settle::Touched;
use ctl_world::World;
use net_base::{Moment, NoMemory};
use std::alloc::Global;

/// Whether a host is fresh at one of two moments alone, or is to be forgotten at the later one. Of one that turns stale
/// behind both nothing else is looked up.
fn turns(conf: &Conf, before: Moment, moment: Moment, host: &HostRec) -> bool
    ensures { result ≡ turns conf.now before.0 moment.0 host.now }
{
    let latest = before.0.max(moment.0);
    let stale = conf.stale_at(host.dp, host.learned).0;
    if latest < stale {
        return false;
    }
    conf.is_fresh(before, host) != conf.is_fresh(moment, host) || conf.is_to_forget(moment, host)
}

/// The hosts that the present moment turns, where an earlier one was shown before.
pub(crate) fn turned(alloc: Global, world: &World, before: Moment) -> Result<Touched, NoMemory>
    ensures { IfOk result (λ touched. touched ≡ Some (turned before.0 world.now)) }
{
    let mut touched = Touched::nothing(alloc);
    for host in world.hosts.iter() {
        if turns(&world.conf, before, world.moment, host) {
            touched.push(Change::Host {
                group: world.conf.group_number(host.dp),
                vid: host.vid,
                mac: host.mac,
            })?;
        }
    }
    Ok(touched)
}
