ghost use Rattle.std.specs.Prelude.{◌≡◌, ◌==◌, ◌&&◌, ◌<◌, false, map, Some, None, IfOk, OnErr};
ghost use Rattle.std.specs.List.{list_any};
ghost use Rattle.std.specs.Option.{option_and_then, option_copied};
ghost use Rattle.packet_way.specs.Present.{state_of};
ghost use Rattle.ctl_world.specs.World.{first, is_at_work, now, running, ups, IsSound, World as Seen};
ghost use Rattle.ctl_settle.specs.Rest.{rests_until};
ghost use Rattle.cold_start.specs.Counts.{RisesAtMost};
ghost use Rattle.ctl_core.specs.Allowed.{turn_allows};
ghost use Rattle.ctl_core.specs.Changes.{latest, turn_changes};
ghost use Rattle.ctl_core.specs.Known.{HasSettled};
ghost use Rattle.ctl_core.specs.Turns.{turn};
ghost use Rattle.ctl_life.specs.Sayings.{saying_of};
ghost use Rattle.ctl_core.specs.Story.{tables_of};

use crate::hearing::a_configuration_is_valid;
use crate::known::Known;
use crate::turns::work;
use conf_types::{Conf, Dp, DpIds, Tally, UpRecs};
use ctl_life::{Sayings, make_sayings};
use ctl_settle::Plans;
use ctl_world::laws::what_is_known_first_is_sound;
use ctl_world::{Conns, Saids, World};
use fg_outside::Happening;
use net_base::{DpId, NoMemory};
use of_match::Tables;
use packet_way::Now;
use std::alloc::{AllocError, Global};
use std::marker::Model;
use switch_session::Stage;

/// A controller of switches. Contracts see what it knows, or nothing once it is spent.
#[derive(Drop)]
pub struct Controller {
    alloc: Global,
    known: Known,
    is_spent: bool,
}

impl Model for Controller {
    ghost use Rattle.std.specs.Prelude.{Option, false, ◌≡◌};
    ghost use Rattle.ctl_core.specs.Known.{HasSettled};
    ghost use Rattle.ctl_core.specs.Story.{unless_spent};
    ghost use Rattle.ctl_world.specs.World.{World};

    ghost Value = { Option World };

    ghost view = { λ c. unless_spent c.is_spent c.known.world };

    ghost invariant = { λ c. c.is_spent ≡ false → HasSettled c.known };
}

fn is_at_work(conns: &Conns, dp: &Dp) -> bool
    ensures { result ≡ is_at_work conns.now dp.now }
{
    match conns.of(dp.id) {
        Some(conn) => matches!(conn.session.stage(), Stage::Running),
        None => false,
    }
}

fn is_running(world: &World, id: DpId) -> bool
    ensures { result ≡ list_any (λ d. is_at_work world.now.conns d && d.id.0 == id.0) world.now.conf.dps }
{
    world
        .conf
        .dps()
        .as_slice()
        .iter()
        .any(|dp| is_at_work(&world.conns, dp) && dp.id == id)
}

fn tables_of(known: &Known, dp: DpId) -> Option<&Tables>
    requires { HasSettled known.now }
    ensures { option_copied result ≡ tables_of known.now.world dp }
{
    if !is_running(&known.world, dp) {
        return None;
    }
    match known.world.conns.of(dp) {
        Some(conn) => known.plans.sent(conn.number),
        None => None,
    }
}

impl Controller {
    /// A controller to which nothing happened yet.
    pub fn new(alloc: Global, conf: Conf) -> Result<Controller, NoMemory>
        ensures { IfOk result (λ made. made ≡ Some (first conf)) }
    {
        what_is_known_first_is_sound();
        a_configuration_is_valid(&conf);
        let world = World::new(alloc, conf)?;
        Ok(Controller {
            alloc,
            known: Known {
                world,
                plans: Plans::new(alloc),
                until: u64::MAX,
            },
            is_spent: false,
        })
    }

    /// Takes in what happens, and gives what is said of it, in order. After `NoMemory` the controller is
    /// spent, and answers so from then on.
    pub fn turn<T: Tally>(&mut self, what: &Happening, units: &mut T) -> Result<Sayings, NoMemory>
        ensures known { IfOk result (λ _. (w : Seen) → self.old ≡ Some w → self.new ≡ Some (turn what.now w)) }
        ensures says { IfOk result (λ said. (w : Seen) → self.old ≡ Some w → said ≡ map saying_of (turn what.now w).said) }
        ensures spent { OnErr result (self.new ≡ None) }
        ensures stays_spent { self.old ≡ None → self.new ≡ None }
        ensures spent_says_nothing { IfOk result (λ _. self.old ≡ None → ⊥) }
        ensures left_out { (w : Seen) → self.old ≡ Some w → turn_changes what.now w ≡ false → latest what.now w < rests_until w → T.count units.new ≡ T.count units.old }
        ensures most { (w : Seen) → self.old ≡ Some w → RisesAtMost (turn_allows what.now w) (T.count units.old) (T.count units.new) }
    {
        if self.is_spent {
            return Err(AllocError);
        }
        self.is_spent = true;
        self.known.world.said = Saids::new(self.alloc);
        work(self.alloc, &mut self.known, what, units)?;
        let sayings = make_sayings(self.alloc, self.known.world.said.as_slice())?;
        self.is_spent = false;
        Ok(sayings)
    }

    /// The configuration in force.
    pub fn conf(&self) -> &Conf
        ensures { (w : Seen) → self.now ≡ Some w → result.now ≡ w.conf }
    {
        &self.known.world.conf
    }

    /// What a controller knows that isn't spent is sound.
    pub fn is_sound(&self)
        ensures { (w : Seen) → self.now ≡ Some w → IsSound w }
    {
        let _ = &self.alloc;
    }

    /// The last moment, in milliseconds: 0 at first.
    pub fn moment(&self) -> u64
        ensures { (w : Seen) → self.now ≡ Some w → result ≡ w.moment.0 }
    {
        self.known.world.moment.0
    }

    /// The datapaths that run, in the order of the configuration. A spent controller's say nothing.
    pub fn running(&self) -> Result<DpIds, NoMemory>
        ensures { IfOk result (λ made. (w : Seen) → self.now ≡ Some w → made ≡ running w) }
    {
        self.known.world.running(self.alloc)
    }

    /// The interfaces that are up, in the order of the configuration. A spent controller's say nothing.
    pub fn ups(&self) -> Result<UpRecs, NoMemory>
        ensures { IfOk result (λ made. (w : Seen) → self.now ≡ Some w → made ≡ ups w) }
    {
        self.known.world.ups(self.alloc)
    }

    /// The state by which flow entries are made, where `dps` are the datapaths that run and `ports` the
    /// interfaces that are up. A spent controller's says nothing.
    pub fn now<'a>(&'a self, dps: &'a DpIds, ports: &'a UpRecs) -> Now<'a>
        ensures { (w : Seen) → self.now ≡ Some w → dps.now ≡ running w → ports.now ≡ ups w → state_of result ≡ now w }
    {
        self.known.world.now(dps, ports)
    }

    /// The entries that a datapath's switch holds once it has done all that was said; `None` exactly where
    /// the controller is spent or the datapath doesn't run.
    pub fn tables_sent(&self, dp: DpId) -> Option<&Tables>
        ensures { option_copied result ≡ option_and_then (λ w. tables_of w dp) self.now }
    {
        if self.is_spent {
            return None;
        }
        tables_of(&self.known, dp)
    }

    /// What is known; `None` exactly where the controller is spent.
    pub(crate) fn world(&self) -> Option<&World>
        ensures { option_copied result ≡ self.now }
    {
        if self.is_spent {
            None
        } else {
            Some(&self.known.world)
        }
    }
}
