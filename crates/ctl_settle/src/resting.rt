ghost use Rattle.std.specs.Prelude.{◌≡◌, min};
ghost use Rattle.ctl_settle.specs.Rest.{AreBounded, IsAtRest, IsBound, RestsUntil, host_until, hosts_until, neighbours_until, rests_until};

use conf_types::{Conf, HostRec, NeighRec};
use ctl_world::World;
use net_base::Moment;

/// The greatest moment, which never comes.
const NEVER: u64 = u64::MAX;

/// The moment at which a host turns stale, or of one that is stale the moment at which it is to be forgotten,
/// in milliseconds; of one that stays for good the moment that never comes.
pub fn host_until(conf: &Conf, now: Moment, host: &HostRec) -> u64
    ensures { result ≡ host_until conf.now now.0 host.now }
{
    if conf.is_permanent(host) {
        return NEVER;
    }
    let moment = if conf.is_fresh(now, host) {
        conf.stale_at(host.dp, host.learned)
    } else {
        conf.forgotten_at(host.dp, host.learned)
    };
    moment.0
}

/// The lesser of a moment and the one at which a host turns stale or is to be forgotten. Its port is looked up only
/// where that comes first.
fn sooner(conf: &Conf, now: Moment, least: u64, host: &HostRec) -> u64
    ensures { result ≡ min least (host_until conf.now now.0 host.now) }
{
    let stale = conf.stale_at(host.dp, host.learned).0;
    if least <= stale {
        return least;
    }
    least.min(host_until(conf, now, host))
}

fn hosts_until(world: &World) -> u64
    ensures { result ≡ hosts_until world.now.conf world.now.moment.0 world.now.hosts.hosts }
{
    let mut least = NEVER;
    for host in world.hosts.iter() {
        least = sooner(&world.conf, world.moment, least, host);
    }
    least
}

fn neighbours_until(neighbours: &[NeighRec]) -> u64
    ensures { result ≡ neighbours_until neighbours.now }
{
    let mut least = NEVER;
    for neighbour in neighbours {
        least = least.min(neighbour.due.0);
    }
    least
}

/// Until which moment a world that rests goes on resting, where nothing but the clock changes: the first
/// one, in milliseconds, at which a host turns stale or is to be forgotten, or a neighbour is due, and
/// 2^64 - 1 where there is none.
pub fn rests_until(world: &World) -> u64
    ensures exact { result ≡ rests_until world.now }
    ensures rests { IsAtRest world.now → RestsUntil result world.now }
{
    hosts_until(world).min(neighbours_until(world.neighbours.list()))
}

/// Until which moment a world that rests goes on resting at least, where it is known that no host's moment comes
/// before `bound`: no host is looked at, unless the bound or a neighbour's moment has come. In milliseconds.
pub fn rests_at_least(world: &World, bound: u64) -> u64
    requires { AreBounded bound world.now }
    ensures bound { IsBound world.now result }
    ensures rests { IsAtRest world.now → RestsUntil result world.now }
{
    let least = bound.min(neighbours_until(world.neighbours.list()));
    if world.moment.0 < least {
        least
    } else {
        rests_until(world)
    }
}
