//! A datapath's plan, made whole, and made again where something changed.

ghost use Rattle.std.specs.Prelude.{◌≡◌, ◌*◌, None, length, IfOk, OnOk, if◌then◌else◌};
ghost use Rattle.std.specs.List.{list_any};
ghost use Rattle.conf_types.specs.Changes.{AreNamed};
ghost use Rattle.conf_types.specs.State.{IsValidState};
ghost use Rattle.packet_way.specs.Present.{state_of};
ghost use Rattle.cold_start.specs.Cold.{cold_at, units_at};
ghost use Rattle.cold_start.specs.Counts.{RisesAtMost, RisesAtLeast};
ghost use Rattle.warm_plan.specs.Kept.{ArePaths, ArePlaces, IsSound, reached_at};
ghost use Rattle.plan_difference.specs.Difference.{AreAllTold};
ghost use Rattle.warm_plan.specs.Named.{names_link};
ghost use Rattle.warm_plan.specs.Parts.{ArePartsOf, keys_at};
ghost use Rattle.warm_plan.specs.Places.{kept_places};
ghost use Rattle.warm_plan.specs.Touched.{KeepTold};

use crate::effect::effects;
use crate::laws;
use crate::named::name_link;
use crate::plan::Plan;
use crate::reaches::{named_units, reached};
use crate::seen::Seen;
use crate::sound::{is_sound, stays_sound};
use crate::stood::Stood;
use crate::units::units_of;
use conf_types::{Change, Conf, Tally};
use net_base::{DpId, NoMemory};
use of_match::Tables;
use packet_way::Now;
use stack_paths::Paths;
use std::alloc::Global;

/// The plan of a datapath, of which all units are made. For each at least one unit of work is counted where
/// they are made, and at most three. Its touched keys tell all differences from what was sent.
pub(crate) fn make_whole<T: Tally>(
    alloc: Global,
    conf: &Conf,
    now: &Now,
    dp: DpId,
    sent: &Tables,
    units: &mut T,
) -> Result<Plan, NoMemory>
    requires { IsValidState conf.now (state_of now.now) }
    ensures sound { IsSound conf.now (state_of now.now) }
    ensures wanted { IfOk result (λ made. made.wanted ≡ cold_at conf.now (state_of now.now) dp) }
    ensures parts { IfOk result (λ made. ArePartsOf (keys_at made.parts) made.wanted) }
    ensures told { IfOk result (λ made. AreAllTold made.touched.keys sent.now made.wanted) }
    ensures paths { IfOk result (λ made. ArePaths conf.now (state_of now.now) made.paths) }
    ensures most { RisesAtMost (3 * length (units_at conf.now (state_of now.now) dp)) (T.count units.old) (T.count units.new) }
    ensures least { OnOk result (RisesAtLeast (length (units_at conf.now (state_of now.now) dp)) (T.count units.old) (T.count units.new)) }
{
    is_sound(conf, now);
    let mut plan = Plan::new(alloc, sent)?;
    let Some(dp) = conf.dp(dp) else {
        return Ok(plan);
    };
    laws::all_units_make_the_cold_start();
    let all = units_of(alloc, conf, now, dp)?;
    plan.make(alloc, conf, now, dp, all.as_slice(), units)?;
    Ok(plan)
}

/// The state that the plan of a datapath is made again for, and what may differ in it.
#[derive(Drop)]
pub(crate) struct Event<'a> {
    pub(crate) conf: &'a Conf,
    pub(crate) learned: &'a Now<'a>,
    pub(crate) dp: DpId,
    pub(crate) changes: &'a [Change],
}

/// The paths that are kept, unless changes name an end of a stack link.
fn still_paths(conf: &Conf, changes: &[Change], paths: Option<Paths>) -> Option<Paths>
    ensures { result ≡ (if list_any (names_link conf.now) changes.now then None else paths) }
{
    if name_link(conf, changes) {
        None
    } else {
        paths
    }
}

/// Makes again the units that changes reach, so that the plan of the state before, whose hosts stood so, becomes
/// that of this state. For each at most three units of work are counted.
pub(crate) fn make_again<T: Tally>(
    plan: &mut Plan,
    alloc: Global,
    event: &Event,
    before: &Seen,
    stood: &Stood,
    units: &mut T,
) -> Result<(), NoMemory>
    requires state { IsValidState event.now.conf.now (state_of event.now.learned.now) }
    requires sound { IsSound event.now.conf.now before.now }
    requires named { AreNamed event.now.conf.now before.now (state_of event.now.learned.now) event.now.changes.now }
    requires places { ArePlaces event.now.conf.now before.now event.now.dp (kept_places stood.now) }
    requires paths { ArePaths event.now.conf.now before.now plan.old.paths }
    ensures sound { IsSound event.now.conf.now (state_of event.now.learned.now) }
    ensures warm { OnOk result (plan.old.wanted ≡ cold_at event.now.conf.now before.now event.now.dp → ArePartsOf (keys_at plan.old.parts) plan.old.wanted
        → (plan.new.wanted ≡ cold_at event.now.conf.now (state_of event.now.learned.now) event.now.dp) × ArePartsOf (keys_at plan.new.parts) plan.new.wanted) }
    ensures told { OnOk result (KeepTold plan.old.touched.keys plan.old.wanted plan.new.touched.keys plan.new.wanted) }
    ensures paths { OnOk result (ArePaths event.now.conf.now (state_of event.now.learned.now) plan.new.paths) }
    ensures most { RisesAtMost (3 * length (reached_at event.now.conf.now before.now (state_of event.now.learned.now) event.now.dp event.now.changes.now)) (T.count units.old) (T.count units.new) }
{
    stays_sound(event.conf, before, event.learned, event.changes);
    conf_types::laws::a_group_has_the_least_identifier_that_is_joined();
    plan.paths = still_paths(event.conf, event.changes, plan.paths.take());
    let Some(dp) = event.conf.dp(event.dp) else {
        return Ok(());
    };
    laws::what_is_made_again_is_the_cold_start();
    let hosts = event.learned.hosts;
    let effects = effects(alloc, event.conf, dp, stood, hosts, event.changes)?;
    let again = reached(alloc, event.conf, dp, hosts, effects.as_slice())?;
    let mut gone = named_units(alloc, effects.as_slice())?;
    gone.append(again.as_slice())?;
    plan.drop_units(alloc, gone.as_slice())?;
    plan.make(
        alloc,
        event.conf,
        event.learned,
        dp,
        again.as_slice(),
        units,
    )?;
    Ok(())
}
