//! The plans that are kept of the datapaths of connections.

ghost use Rattle.std.specs.Prelude.{◌≡◌, ◌<◌, ◌≤◌, ◌+◌, true, [], Some, filter, is_some, length, map, position, IfSome, OnOk};
ghost use Rattle.std.specs.List.{AllByRecursion, find};
ghost use Rattle.std.specs.Option.{option_copied, option_map};
ghost use Rattle.conf_types.specs.State.{IsValidState, is_running};
ghost use Rattle.cold_start.specs.Counts.{RisesAtMost};
ghost use Rattle.packet_way.specs.Present.{state_of};
ghost use Rattle.ctl_world.specs.World.{IsSound, running};
ghost use Rattle.ctl_settle.specs.Counted.{again, all_again, all_anew, counted};
ghost use Rattle.ctl_settle.specs.Rest.{AreInOrder};
ghost use Rattle.ctl_settle.specs.Touched.{AllFollow, Follows};
ghost use Rattle.ctl_settle.specs.Plans.{AreApart, brought, is_for, numbers, plan_for, renewed, runs_on, with_plan, with_plans};

use crate::touched::Touched;
use conf_types::{Conf, Tally};
use ctl_world::{Conns, World};
use net_base::{DpId, NoMemory};
use of_match::Tables;
use packet_way::Now;
use std::alloc::Global;
use std::marker::Model;
use switch_session::Stage;
use warm_plan::Warm;

/// The plan of a connection's datapath.
#[derive(Drop)]
pub struct Held {
    pub conn: u32,
    pub plan: Warm,
}

/// The plans that are kept, each for the connection of its datapath, one for each at most. Contracts see the list.
#[derive(Drop)]
pub struct Plans {
    pub(crate) held: Vec<Held>,
}

impl Model for Plans {
    ghost use Rattle.std.specs.Prelude.{List};
    ghost use Rattle.ctl_settle.specs.declared.plans.Held.{Held};
    ghost use Rattle.ctl_settle.specs.Plans.{AreApart};

    ghost Value = { List Held };

    ghost view = { λ it. it.held.items };

    ghost invariant = { λ it. AreApart it.held.items };
}

/// The plan that is kept for a connection.
fn find_plan(held: &[Held], number: u32) -> Option<&Held>
    ensures { option_copied result ≡ find (is_for number) held.now }
{
    held.iter().find(|one| one.conn == number)
}

fn has_plan(held: &[Held], number: u32) -> bool
    ensures { result ≡ is_some (plan_for held.now number) }
{
    find_plan(held, number).is_some()
}

/// Where the plan of a connection stands.
pub(crate) fn place(held: &[Held], number: u32) -> Option<usize>
    ensures place { result ≡ position (is_for number) held.now }
    ensures within { IfSome result (λ at. at < length held.now) }
{
    held.iter().position(|one| one.conn == number)
}

impl Plans {
    /// None.
    pub fn new(alloc: Global) -> Plans
        ensures { result ≡ [] }
    {
        Plans {
            held: Vec::new(alloc),
        }
    }

    /// The entries that the switch of a connection holds once it has done all that was said; `None` exactly
    /// where no plan is kept for it.
    pub fn sent(&self, number: u32) -> Option<&Tables>
        ensures { option_copied result ≡ option_map (λ p. p.sent) (plan_for self.now number) }
    {
        match find_plan(self.held.as_slice(), number) {
            Some(held) => Some(held.plan.sent()),
            None => None,
        }
    }
}

fn is_at_work(conns: &Conns, number: u32) -> bool
    ensures { result ≡ runs_on conns.now number }
{
    match conns.get(number) {
        Some(conn) => matches!(conn.session.stage(), Stage::Running),
        None => false,
    }
}

/// Drops the plans of connections that don't run.
fn drop_idle(held: &mut Vec<Held>, conns: &Conns)
    ensures { held.new.items ≡ filter (λ h. runs_on conns.now h.conn) held.old.items }
{
    held.retain(|one| is_at_work(conns, one.conn));
}

/// A plan wants the cold start of what is known. Where it is named what may differ, only what that reaches is made
/// again.
fn renew<T: Tally>(
    held: &mut Held,
    alloc: Global,
    conf: &Conf,
    now: &Now,
    touched: &Touched,
    units: &mut T,
) -> Result<(), NoMemory>
    requires state { IsValidState conf.now (state_of now.now) }
    requires follows { Follows conf.now (state_of now.now) touched.now held.old.plan }
    ensures renewed { OnOk result (held.new ≡ renewed conf.now (state_of now.now) held.old) }
    ensures conn { held.new.conn ≡ held.old.conn }
    ensures most { RisesAtMost (again conf.now (state_of now.now) touched.now held.old.plan) (T.count units.old) (T.count units.new) }
{
    if touched.is_any() {
        return held.plan.reload(alloc, conf, now, units);
    }
    held.plan.event(alloc, conf, now, touched.list(), units)
}

/// All plans that are kept want the cold start of what is known.
fn renew_each<T: Tally>(
    held: &mut [Held],
    alloc: Global,
    conf: &Conf,
    now: &Now,
    touched: &Touched,
    units: &mut T,
) -> Result<(), NoMemory>
    requires state { IsValidState conf.now (state_of now.now) }
    requires follow { AllByRecursion (λ h. Follows conf.now (state_of now.now) touched.now h.plan) held.old }
    ensures renewed { OnOk result (held.new ≡ map (renewed conf.now (state_of now.now)) held.old) }
    ensures numbers { numbers held.new ≡ numbers held.old }
    ensures most { RisesAtMost (all_again conf.now (state_of now.now) touched.now held.old) (T.count units.old) (T.count units.new) }
{
    for one in held.iter_mut() {
        renew(one, alloc, conf, now, touched, units)?;
    }
    Ok(())
}

/// Makes the plan of a datapath, where none is kept for its connection.
fn open_plan<T: Tally>(
    held: &mut Vec<Held>,
    alloc: Global,
    world: &World,
    now: &Now,
    dp: DpId,
    units: &mut T,
) -> Result<(), NoMemory>
    requires state { IsValidState world.now.conf (state_of now.now) }
    requires apart { AreApart held.old.items }
    requires runs { is_running (running world.now) dp ≡ true }
    ensures opened { OnOk result (held.new.items ≡ with_plan world.now.conf (state_of now.now) world.now.conns dp held.old.items) }
    ensures apart { AreApart held.new.items }
    ensures most { RisesAtMost (all_anew world.now.conf (state_of now.now) world.now.conns held.old.items) (T.count units.old) (T.count units.new) }
    ensures left { OnOk result (T.count units.new + all_anew world.now.conf (state_of now.now) world.now.conns held.new.items ≤ T.count units.old + all_anew world.now.conf (state_of now.now) world.now.conns held.old.items) }
{
    let Some(conn) = world.conns.of(dp) else {
        return Ok(());
    };
    if has_plan(held.as_slice(), conn.number) {
        return Ok(());
    }
    let plan = Warm::open(alloc, &world.conf, now, dp, units)?;
    held.push(Held {
        conn: conn.number,
        plan,
    })?;
    Ok(())
}

fn open_plans<T: Tally>(
    held: &mut Vec<Held>,
    alloc: Global,
    world: &World,
    now: &Now,
    dps: &[DpId],
    units: &mut T,
) -> Result<(), NoMemory>
    requires state { IsValidState world.now.conf (state_of now.now) }
    requires apart { AreApart held.old.items }
    requires run { AllByRecursion (λ dp. is_running (running world.now) dp ≡ true) dps.now }
    ensures opened { OnOk result (held.new.items ≡ with_plans world.now.conf (state_of now.now) world.now.conns dps.now held.old.items) }
    ensures apart { AreApart held.new.items }
    ensures most { RisesAtMost (all_anew world.now.conf (state_of now.now) world.now.conns held.old.items) (T.count units.old) (T.count units.new) }
{
    for dp in dps {
        open_plan(held, alloc, world, now, *dp, units)?;
    }
    Ok(())
}

/// Brings the plans up to what is known, from which they differ in what was touched at most: each datapath that runs
/// has one, which wants its cold start. What is made again is counted.
pub(crate) fn bring<T: Tally>(
    plans: &mut Plans,
    alloc: Global,
    world: &World,
    touched: &Touched,
    units: &mut T,
) -> Result<(), NoMemory>
    requires sound { IsSound world.now }
    requires in_order { AreInOrder world.now }
    requires follow { AllFollow world.now touched.now plans.old }
    ensures brought { OnOk result (plans.new ≡ brought world.now plans.old) }
    ensures most { RisesAtMost (counted world.now touched.now plans.old) (T.count units.old) (T.count units.new) }
{
    let running = world.running(alloc)?;
    let ups = world.ups(alloc)?;
    let now = world.now(&running, &ups);
    drop_idle(&mut plans.held, &world.conns);
    renew_each(
        plans.held.as_mut_slice(),
        alloc,
        &world.conf,
        &now,
        touched,
        units,
    )?;
    open_plans(
        &mut plans.held,
        alloc,
        world,
        &now,
        running.as_slice(),
        units,
    )
}
