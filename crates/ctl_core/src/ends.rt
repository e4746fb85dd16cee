//! When the times of hosts end behind a step.

ghost use Rattle.std.specs.Prelude.{◌≡◌};
ghost use Rattle.ctl_core.specs.Found.{Bounds};
ghost use Rattle.ctl_settle.specs.Rest.{IsAtRest, IsBound, RestsUntil};

use conf_types::HostRec;
use ctl_settle::{host_until, rests_at_least, rests_until};
use ctl_world::World;

/// When the times of hosts end, against a moment before which none did.
#[derive(Clone, Copy, Debug)]
pub(crate) enum Ends {
    /// None does now.
    Later,
    /// At most that of this host, which was heard.
    But(HostRec),
    /// Any may.
    Any,
}

/// A moment until which nothing is due, in milliseconds, where none of the hosts' times ended before the one given.
pub(crate) fn until_behind(world: &World, until: u64, ends: &Ends) -> u64
    requires { Bounds ends.now until world.now }
    ensures bound { IsBound world.now result }
    ensures rests { IsAtRest world.now → RestsUntil result world.now }
{
    match ends {
        Ends::Later => rests_at_least(world, until),
        Ends::But(host) => {
            let end = host_until(&world.conf, world.moment, host);
            rests_at_least(world, until.min(end))
        }
        Ends::Any => rests_until(world),
    }
}
