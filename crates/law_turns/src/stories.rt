//! Turns one behind the other.

ghost use Rattle.std.specs.Prelude.{◌≡◌, Some, None, IfOk, OnErr};
ghost use Rattle.ctl_core.specs.Story.{behind};
ghost use Rattle.ctl_world.specs.World.{World};
ghost use Rattle.gauge_poll.specs.Monitoring.{Monitor, behind as watched};
ghost use Rattle.gauge_poll.specs.StandsFor.{IsSpent, StandsFor};

use conf_types::Tally;
use ctl_core::Controller;
use fg_outside::Happening;
use gauge_poll::Gauge;
use net_base::NoMemory;

/// Takes in all that happens. After `NoMemory` the controller is spent.
pub fn take_turns<T: Tally>(
    controller: &mut Controller,
    story: &[Happening],
    units: &mut T,
) -> Result<(), NoMemory>
    ensures known { IfOk result (λ _. (w : World) → controller.old ≡ Some w → controller.new ≡ Some (behind w story.now)) }
    ensures spent { OnErr result (controller.new ≡ None) }
{
    for what in story {
        controller.turn(what, units)?;
    }
    Ok(())
}

/// The same of a Gauge.
pub fn watch_turns(gauge: &mut Gauge, story: &[Happening]) -> Result<(), NoMemory>
    ensures known { IfOk result (λ _. (m : Monitor) → StandsFor gauge.old m → StandsFor gauge.new (watched m story.now)) }
    ensures spent { OnErr result (IsSpent gauge.new) }
{
    for what in story {
        gauge.turn(what)?;
    }
    Ok(())
}
