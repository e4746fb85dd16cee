//! The plan of one datapath, kept from one state to the next: an event makes again what its changes reach.

ghost use Rattle.std.specs.Prelude.{◌≡◌, ◌*◌, true, false, [], length, IfOk, OnOk, OnErr, IsErr};
ghost use Rattle.conf_types.specs.Changes.{AreNamed};
ghost use Rattle.conf_types.specs.State.{IsValidState};
ghost use Rattle.packet_way.specs.Present.{state_of};
ghost use Rattle.plan_difference.specs.Difference.{difference};
ghost use Rattle.cold_start.specs.Cold.{cold_at, units_at};
ghost use Rattle.cold_start.specs.Counts.{RisesAtMost, RisesAtLeast};
ghost use Rattle.warm_plan.specs.Kept.{reached_at};

use crate::again::{Event, make_again, make_whole};
use crate::plan::Plan;
use crate::seen::Seen;
use crate::sound::are_ordered;
use crate::stood::Stood;
use conf_types::{Change, Conf, Tally};
use net_base::{DpId, NoMemory};
use of_match::{Commands, Tables};
use packet_way::Now;
use plan_difference::difference_at;
use std::alloc::{AllocError, Global};
use std::marker::Model;
use std::mem;
use std::snapshot::Snapshot;

/// The plan of one datapath: the flow entries that its switch was sent, and those that it is to hold.
/// The configuration and the state that were handed in last are seen by contracts alone.
#[derive(Drop)]
pub struct Warm {
    dp: DpId,
    conf: Snapshot<Conf>,
    state: Seen,
    /// What is kept of the hosts of that state.
    stood: Stood,
    plan: Plan,
    sent: Tables,
    /// All was taken, so that what is wanted is what was sent, and the plan's entries are behind.
    is_taken: bool,
    spent: bool,
}

impl Model for Warm {
    ghost use Rattle.warm_plan.specs.Kept.{Kept, IsWarm};
    ghost use Rattle.warm_plan.specs.Parts.{keys_at};
    ghost use Rattle.warm_plan.specs.Places.{kept_places};
    ghost use Rattle.warm_plan.specs.Touched.{wanted_of};

    ghost Value = { Kept };

    ghost view = { λ w. record { dp = w.dp; conf = w.conf.value; state = w.state; sent = w.sent; wanted = wanted_of w.is_taken w.sent w.plan.wanted; is_spent = w.spent } };

    ghost invariant = { λ w. IsWarm (record { dp = w.dp; conf = w.conf.value; state = w.state; sent = w.sent; wanted = wanted_of w.is_taken w.sent w.plan.wanted; is_spent = w.spent }) (kept_places w.stood) (keys_at w.plan.parts) w.plan.paths w.plan.touched.keys w.plan.wanted };
}

impl Warm {
    /// The plan of a datapath whose switch was sent nothing yet. For each of its units at least one unit
    /// of work is counted where it is made, and at most three.
    pub fn open<T: Tally>(
        alloc: Global,
        conf: &Conf,
        now: &Now,
        dp: DpId,
        units: &mut T,
    ) -> Result<Warm, NoMemory>
        requires { IsValidState conf.now (state_of now.now) }
        ensures warm { IfOk result (λ made. made ≡ record {
          dp = dp;
          conf = conf.now;
          state = state_of now.now;
          sent = [];
          wanted = cold_at conf.now (state_of now.now) dp;
          is_spent = false;
        }) }
        ensures most { RisesAtMost (3 * length (units_at conf.now (state_of now.now) dp)) (T.count units.old) (T.count units.new) }
        ensures least { OnOk result (RisesAtLeast (length (units_at conf.now (state_of now.now) dp)) (T.count units.old) (T.count units.new)) }
    {
        let sent = Tables::new(alloc);
        Ok(Warm {
            dp,
            conf: Snapshot::of(conf),
            state: Seen::of(now),
            stood: Stood::of(alloc, conf, now, dp)?,
            plan: make_whole(alloc, conf, now, dp, &sent, units)?,
            sent,
            is_taken: false,
            spent: false,
        })
    }

    /// Takes another state of the same configuration, which differs from the last one at most in what
    /// `changes` names. Want of memory spends the plan, and a spent one answers nothing else. At most
    /// three units of work are counted for each unit of the datapath that the changes reach.
    pub fn event<'a, T: Tally>(
        &mut self,
        alloc: Global,
        conf: &'a Conf,
        now: &'a Now<'a>,
        changes: &'a [Change],
        units: &mut T,
    ) -> Result<(), NoMemory>
        requires same { conf.now ≡ self.old.conf }
        requires state { IsValidState conf.now (state_of now.now) }
        requires named { AreNamed conf.now self.old.state (state_of now.now) changes.now }
        ensures warm { OnOk result (self.new ≡ record self.old {
          state = state_of now.now;
          wanted = cold_at conf.now (state_of now.now) self.old.dp;
        }) }
        ensures spent { OnErr result (self.new.is_spent ≡ true) }
        ensures again { self.old.is_spent ≡ true → IsErr result }
        ensures sent { self.new.sent ≡ self.old.sent }
        ensures most { RisesAtMost (3 * length (reached_at conf.now self.old.state (state_of now.now) self.old.dp changes.now)) (T.count units.old) (T.count units.new) }
    {
        let was_spent = self.spent;
        self.spent = true;
        if was_spent {
            return Err(AllocError);
        }
        let renewed = self.plan.renew(alloc, &self.sent, self.is_taken);
        self.is_taken = false;
        are_ordered(&self.plan.wanted);
        renewed?;
        let event = Event {
            conf,
            learned: now,
            dp: self.dp,
            changes,
        };
        let made = make_again(
            &mut self.plan,
            alloc,
            &event,
            &self.state,
            &self.stood,
            units,
        );
        self.state = Seen::of(now);
        are_ordered(&self.plan.wanted);
        made?;
        self.stood.follow(alloc, conf, now, self.dp, changes)?;
        self.spent = false;
        Ok(())
    }

    /// Takes another configuration, and the state under it. Want of memory spends the plan, and a spent
    /// one answers nothing else. Work is counted as by `open`.
    pub fn reload<T: Tally>(
        &mut self,
        alloc: Global,
        next: &Conf,
        now: &Now,
        units: &mut T,
    ) -> Result<(), NoMemory>
        requires { IsValidState next.now (state_of now.now) }
        ensures warm { OnOk result (self.new ≡ record self.old {
          conf = next.now;
          state = state_of now.now;
          wanted = cold_at next.now (state_of now.now) self.old.dp;
        }) }
        ensures spent { OnErr result (self.new.is_spent ≡ true) }
        ensures again { self.old.is_spent ≡ true → IsErr result }
        ensures sent { self.new.sent ≡ self.old.sent }
        ensures most { RisesAtMost (3 * length (units_at next.now (state_of now.now) self.old.dp)) (T.count units.old) (T.count units.new) }
        ensures least { OnOk result (RisesAtLeast (length (units_at next.now (state_of now.now) self.old.dp)) (T.count units.old) (T.count units.new)) }
    {
        let was_spent = self.spent;
        self.spent = true;
        self.conf = Snapshot::of(next);
        self.state = Seen::of(now);
        if was_spent {
            return Err(AllocError);
        }
        self.plan = make_whole(alloc, next, now, self.dp, &self.sent, units)?;
        self.is_taken = false;
        self.stood = Stood::of(alloc, next, now, self.dp)?;
        self.spent = false;
        Ok(())
    }

    /// The commands that lead from what the switch was sent to what it is to hold, which is from now on
    /// what it was sent. Want of memory spends the plan, and a spent one answers nothing else.
    pub fn take(&mut self, alloc: Global) -> Result<Commands, NoMemory>
        ensures batch { IfOk result (λ batch. batch ≡ difference self.old.sent self.old.wanted) }
        ensures taken { OnOk result (self.new ≡ record self.old { sent = self.old.wanted }) }
        ensures spent { OnErr result (self.new.is_spent ≡ true) }
        ensures again { self.old.is_spent ≡ true → IsErr result }
        ensures left { OnErr result (self.new.sent ≡ self.old.sent) }
    {
        if self.spent {
            return Err(AllocError);
        }
        self.spent = true;
        let renewed = self.plan.renew(alloc, &self.sent, self.is_taken);
        self.is_taken = false;
        are_ordered(&self.plan.wanted);
        renewed?;
        let batch = difference_at(alloc, &self.sent, &self.plan.wanted, &self.plan.touched)?;
        mem::swap(&mut self.sent, &mut self.plan.wanted);
        self.is_taken = true;
        self.spent = false;
        Ok(batch)
    }

    /// The entries that the switch holds once it has done all that was taken.
    pub fn sent(&self) -> &Tables
        ensures { result.now ≡ self.now.sent }
    {
        &self.sent
    }

    /// The entries that the switch is to hold: the cold start of what was handed in last, unless memory
    /// ran out.
    pub fn wanted(&self) -> &Tables
        ensures value { result.now ≡ self.now.wanted }
        ensures cold { self.now.is_spent ≡ false → result.now ≡ cold_at self.now.conf self.now.state self.now.dp }
    {
        if self.is_taken {
            &self.sent
        } else {
            &self.plan.wanted
        }
    }

    /// Whether memory ran out in an earlier call.
    pub fn is_spent(&self) -> bool
        ensures { result ≡ self.now.is_spent }
    {
        self.spent
    }
}
