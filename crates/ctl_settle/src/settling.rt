ghost use Rattle.std.specs.Prelude.{◌≡◌, true, [], Some, OnOk};
ghost use Rattle.std.specs.List.{AllByRecursion};
ghost use Rattle.conf_types.specs.State.{is_running};
ghost use Rattle.cold_start.specs.Counts.{RisesAtMost};
ghost use Rattle.ctl_world.specs.World.{IsSound, running};
ghost use Rattle.ctl_settle.specs.Asked.{with_asked};
ghost use Rattle.ctl_settle.specs.Counted.{counted};
ghost use Rattle.ctl_settle.specs.Plans.{AreBrought, AreCurrent, AreHeld, Fit};
ghost use Rattle.ctl_settle.specs.Rest.{AreInOrder, IsAtRest};
ghost use Rattle.ctl_settle.specs.Settling.{ask_all, batches, settle};
ghost use Rattle.ctl_settle.specs.Touched.{AllFollow};

use crate::asking::ask_all;
use crate::batch::batch;
use crate::laws::{
    a_batch_keeps_the_plans, a_batch_leaves_the_state, a_settling_leaves_it_at_rest,
    asks_leave_the_state,
};
use crate::order::in_order;
use crate::plans::{Plans, bring};
use crate::touched::Touched;
use conf_types::Tally;
use ctl_world::World;
use net_base::{DpId, NoMemory};
use std::alloc::Global;

/// Says the batches of datapaths that run, in order. Their plans are kept.
fn say_batches(
    alloc: Global,
    world: &mut World,
    plans: &mut Plans,
    dps: &[DpId],
) -> Result<(), NoMemory>
    requires sound { IsSound world.old }
    requires in_order { AreInOrder world.old }
    requires brought { AreBrought world.old plans.old }
    requires run { AllByRecursion (λ dp. is_running (running world.old) dp ≡ true) dps.now }
    ensures batches { OnOk result (world.new ≡ batches dps.now world.old) }
    ensures sound { OnOk result (IsSound world.new) }
    ensures brought { OnOk result (AreBrought world.new plans.new) }
{
    a_batch_leaves_the_state();
    a_batch_keeps_the_plans();
    for dp in dps {
        batch(alloc, world, plans, *dp)?;
    }
    Ok(())
}

/// Settles a turn: the neighbours that are due are asked for, and then each running datapath, by identifier,
/// is said what leads from the entries that it has to those that it is to have, unless a barrier is
/// outstanding. What is to be said is taken from the datapath's plan, which is made where it begins to run, and
/// brought up to what is known, also while a barrier is outstanding: what may differ is what was touched since the last
/// settling, and the neighbours that the asks lose. Of a plan that is made at most three units of work are counted for
/// each of its units, and of one that is brought up for each that this reaches, or for each where anything may differ.
/// It rests then. After `NoMemory` nothing is known of what is left.
pub fn settle<T: Tally>(
    alloc: Global,
    world: &mut World,
    plans: &mut Plans,
    touched: &mut Touched,
    units: &mut T,
) -> Result<(), NoMemory>
    requires sound { IsSound world.old }
    requires in_order { AreInOrder world.old }
    requires fit { Fit world.old.conns plans.old }
    requires follow { AllFollow world.old touched.old plans.old }
    ensures settled { OnOk result (world.new ≡ settle world.old) }
    ensures sound { OnOk result (IsSound world.new) }
    ensures rests { OnOk result (IsAtRest world.new) }
    ensures in_order { OnOk result (AreInOrder world.new) }
    ensures held { OnOk result (AreHeld world.new plans.new) }
    ensures current { OnOk result (AreCurrent world.new plans.new) }
    ensures follow { OnOk result (AllFollow world.new (Some []) plans.new) }
    ensures most { RisesAtMost (counted (ask_all world.old) (with_asked world.old touched.old) plans.old) (T.count units.old) (T.count units.new) }
{
    asks_leave_the_state();
    a_settling_leaves_it_at_rest();
    ask_all(alloc, world, touched)?;
    bring(plans, alloc, world, touched, units)?;
    let running = world.running(alloc)?;
    let dps = in_order(alloc, running.as_slice())?;
    say_batches(alloc, world, plans, dps.as_slice())
}
