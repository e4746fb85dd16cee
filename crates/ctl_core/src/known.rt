//! What is known, and how long a settling has nothing to say of it.

ghost use Rattle.std.specs.Prelude.{◌≡◌, false, OnOk};
ghost use Rattle.std.specs.List.{AllByRecursion};
ghost use Rattle.cold_start.specs.Counts.{RisesAtMost};
ghost use Rattle.conf_types.specs.State.{IsValidState};
ghost use Rattle.ctl_world.specs.World.{IsSound};
ghost use Rattle.ctl_settle.specs.Asked.{with_asked};
ghost use Rattle.ctl_settle.specs.Counted.{counted};
ghost use Rattle.ctl_settle.specs.Plans.{AreHeld, Fit};
ghost use Rattle.ctl_settle.specs.Rest.{AreInOrder, IsBound, RestsUntil};
ghost use Rattle.ctl_settle.specs.Settling.{ask_all, settle};
ghost use Rattle.ctl_settle.specs.Touched.{AllFollow};
ghost use Rattle.ctl_core.specs.Found.{Bounds, ends_of, is_touched, may_differ};
ghost use Rattle.ctl_core.specs.Known.{HasSettled, IsEarly};

use crate::ends::{Ends, until_behind};
use crate::found::Found;
use conf_types::Tally;
use ctl_settle::laws::what_rests_settles_as_it_is;
use ctl_settle::{Plans, Touched, settle};
use ctl_world::World;
use net_base::NoMemory;
use std::alloc::Global;

/// What is known, the plans of the datapaths that run, and a moment before which a settling changes nothing of
/// it, as long as nothing happens: the first one at which it does, or an earlier one that hasn't come.
#[derive(Drop)]
pub(crate) struct Known {
    pub world: World,
    pub plans: Plans,
    /// In milliseconds.
    pub until: u64,
}

/// Settles.
pub(crate) fn settle_anew<T: Tally>(
    alloc: Global,
    known: &mut Known,
    mut touched: Touched,
    ends: Ends,
    units: &mut T,
) -> Result<(), NoMemory>
    requires sound { IsSound known.old.world }
    requires in_order { AreInOrder known.old.world }
    requires fit { Fit known.old.world.conns known.old.plans }
    requires follow { AllFollow known.old.world touched known.old.plans }
    requires bounds { Bounds ends known.old.until known.old.world }
    ensures settled { OnOk result (known.new.world ≡ settle known.old.world) }
    ensures rests { OnOk result (HasSettled known.new) }
    ensures most { RisesAtMost (counted (ask_all known.old.world) (with_asked known.old.world touched) known.old.plans) (T.count units.old) (T.count units.new) }
{
    settle(
        alloc,
        &mut known.world,
        &mut known.plans,
        &mut touched,
        units,
    )?;
    known.until = until_behind(&known.world, known.until, &ends);
    Ok(())
}

/// Settles, where there is something that a settling looks at, or the moment has come until which it had
/// nothing to say. Else it would change nothing, and is left out.
pub(crate) fn settle_where_due<T: Tally>(
    alloc: Global,
    known: &mut Known,
    found: Found,
    units: &mut T,
) -> Result<(), NoMemory>
    requires sound { IsSound known.old.world }
    requires in_order { AreInOrder known.old.world }
    requires fit { Fit known.old.world.conns known.old.plans }
    requires follow { AllFollow known.old.world (may_differ known.old.world.conf found) known.old.plans }
    requires bounds { Bounds (ends_of found) known.old.until known.old.world }
    requires held { is_touched found ≡ false → AreHeld known.old.world known.old.plans }
    requires states { is_touched found ≡ false → AllByRecursion (λ h. IsValidState known.old.world.conf h.plan.state) known.old.plans }
    requires rests { is_touched found ≡ false → IsEarly known.old → RestsUntil known.old.until known.old.world }
    requires until { is_touched found ≡ false → IsEarly known.old → IsBound known.old.world known.old.until }
    ensures settled { OnOk result (known.new.world ≡ settle known.old.world) }
    ensures rests { OnOk result (HasSettled known.new) }
    ensures left_out { is_touched found ≡ false → IsEarly known.old → T.count units.new ≡ T.count units.old }
    ensures kept { is_touched found ≡ false → IsEarly known.old → known.new ≡ known.old }
    ensures most { RisesAtMost (counted (ask_all known.old.world) (with_asked known.old.world (may_differ known.old.world.conf found)) known.old.plans) (T.count units.old) (T.count units.new) }
{
    what_rests_settles_as_it_is();
    if found.is_touched() || known.until <= known.world.moment.0 {
        let ends = found.ends();
        let touched = found.touched(alloc, &known.world.conf)?;
        return settle_anew(alloc, known, touched, ends, units);
    }
    Ok(())
}
