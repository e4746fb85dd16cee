ghost use Rattle.std.specs.Prelude.{◌≡◌, ◌≢◌, ◌+◌, ◌-◌, ◌^◌, ◌≤◌, List, [], ◌∷◌, drop, Some, IfOk, if◌then◌else◌, vec_len, vec_capacity};
ghost use Rattle.std.specs.Option.{option_map};
ghost use Rattle.std.specs.Vec.Iter.{into_iter_items};
ghost use Rattle.fg_outside.specs.Counts.{counted, Rose};
ghost use Rattle.fg_outside.specs.FaultPlan.{fresh};
ghost use Rattle.fg_links.specs.declared.next.MemNext.{MemNext};
ghost use Rattle.fg_links.specs.Nexts.{next_of, links_of, links_in};
ghost use Rattle.fg_links.specs.Calls.{Appends, told_within};

use crate::link::Link;
use crate::next::{MemNext, MemNexts, Next};
use crate::poller::Poller;
use crate::told::Told;
use fg_outside::{CallNos, FailListed, FailNever, FaultPlan};
use net_base::NoMemory;
use std::alloc::Global;
use std::vec::IntoIter;

/// A poller in memory: it gives its list, and then says `Stop`.
#[derive(Drop)]
pub struct PollerInMemory<L, P> {
    nexts: IntoIter<MemNext<L>>,
    given: u32,
    told: Vec<Told>,
    room: usize,
    overfull: bool,
    plan: P,
    ghost few: { given + links_in (into_iter_items nexts) ≤ 2 ^ 32 - 1 },
    ghost held: { room ≤ vec_capacity told },
    ghost within: { vec_len told ≤ room },
}

/// A poller in memory, of which the listed calls of `next` fail. A failed call uses up nothing.
pub type MemPoller<L> = PollerInMemory<L, FailListed>;

/// A poller in memory that never fails.
pub type SurePoller<L> = PollerInMemory<L, FailNever>;

impl<L: Link + Drop> PollerInMemory<L, FailListed> {
    ghost use Rattle.fg_links.specs.PollerInMemory.{ahead_in, given_by, told_by, room_of, plan_of};

    /// A poller that gives this list, with room for so many calls of `quiet` and `gone`: from a
    /// further one on it doesn't tell them.
    pub fn new(
        alloc: Global,
        nexts: MemNexts<L>,
        room: usize,
        fail: CallNos,
    ) -> Result<MemPoller<L>, NoMemory>
        requires { links_in nexts ≤ 2 ^ 32 - 1 }
        ensures ahead { IfOk result (λ poller. ahead_in poller ≡ nexts) }
        ensures given { IfOk result (λ poller. given_by poller ≡ 0) }
        ensures told { IfOk result (λ poller. told_by poller ≡ Some []) }
        ensures room { IfOk result (λ poller. room_of poller ≡ room) }
        ensures plan { IfOk result (λ poller. plan_of poller ≡ fresh fail) }
        ensures faults { IfOk result (λ poller. ⟦<MemPoller<L> as Poller>⟧.faults poller ≡ 0) }
    {
        PollerInMemory::with_plan(alloc, nexts, room, FailListed::new(fail))
    }
}

impl<L: Link + Drop> PollerInMemory<L, FailNever> {
    ghost use Rattle.fg_links.specs.PollerInMemory.{ahead_in, given_by, told_by, room_of};

    /// The same, but no call fails.
    pub fn new(alloc: Global, nexts: MemNexts<L>, room: usize) -> Result<SurePoller<L>, NoMemory>
        requires { links_in nexts ≤ 2 ^ 32 - 1 }
        ensures ahead { IfOk result (λ poller. ahead_in poller ≡ nexts) }
        ensures given { IfOk result (λ poller. given_by poller ≡ 0) }
        ensures told { IfOk result (λ poller. told_by poller ≡ Some []) }
        ensures room { IfOk result (λ poller. room_of poller ≡ room) }
        ensures faults { IfOk result (λ poller. ⟦<SurePoller<L> as Poller>⟧.faults poller ≡ 0) }
    {
        PollerInMemory::with_plan(alloc, nexts, room, FailNever)
    }
}

impl<L: Link + Drop, P: Drop> PollerInMemory<L, P> {
    ghost use Rattle.fg_links.specs.PollerInMemory.{ahead_in, given_by, told_by, room_of, plan_of};

    // A poller that gives this list, and has given none of it.
    fn with_plan(
        alloc: Global,
        nexts: MemNexts<L>,
        room: usize,
        plan: P,
    ) -> Result<PollerInMemory<L, P>, NoMemory>
        requires { links_in nexts ≤ 2 ^ 32 - 1 }
        ensures ahead { IfOk result (λ poller. ahead_in poller ≡ nexts) }
        ensures given { IfOk result (λ poller. given_by poller ≡ 0) }
        ensures told { IfOk result (λ poller. told_by poller ≡ Some []) }
        ensures room { IfOk result (λ poller. room_of poller ≡ room) }
        ensures plan { IfOk result (λ poller. plan_of poller ≡ plan) }
    {
        Ok(PollerInMemory {
            nexts: nexts.into_vec().into_iter(),
            given: 0,
            told: Vec::with_capacity(alloc, room)?,
            room,
            overfull: false,
            plan,
        })
    }
}

impl<L, P> PollerInMemory<L, P> {
    ghost use Rattle.std.specs.Option.{option_copied};
    ghost use Rattle.fg_links.specs.PollerInMemory.{ahead_in, given_by, told_by, room_of, plan_of};

    /// What it was told by `quiet` and `gone`, in order; `None` exactly where there was no room for all
    /// of it.
    pub fn told(&self) -> Option<&[Told]>
        ensures { option_copied result ≡ told_by self.now }
    {
        if self.overfull {
            None
        } else {
            Some(self.told.as_slice())
        }
    }

    // Notes what it was told, where there is room.
    fn note(&mut self, what: Told)
        ensures told { told_by self.new ≡ told_within (room_of self.old) (told_by self.old) what }
        ensures ahead { ahead_in self.new ≡ ahead_in self.old }
        ensures given { given_by self.new ≡ given_by self.old }
        ensures plan { plan_of self.new ≡ plan_of self.old }
        ensures room { room_of self.new ≡ room_of self.old }
    {
        if self.told.len() < self.room {
            self.told.push_reserved(what);
        } else {
            self.overfull = true;
        }
    }
}

impl<L: Link + Drop, P: FaultPlan> Poller for PollerInMemory<L, P> {
    ghost use Rattle.fg_links.specs.PollerInMemory.{ahead_in, given_by, told_by, room_of, plan_of};

    type L = L;

    ghost given = { given_by };

    ghost ahead = { λ poller. Some (ahead_in poller) };

    ghost told = { told_by };

    ghost faults = { λ poller. P.faults (plan_of poller) };

    /// Gives the first of its list, or `Stop` behind the last. Fails exactly where the plan says so.
    fn next(&mut self) -> Next<L>
        ensures next { (list : List (MemNext L)) → Some (ahead_in self.old) ≡ Some list → result ≢ Next.Failed → result ≡ next_of list }
        ensures onward { result ≢ Next.Failed → Some (ahead_in self.new) ≡ option_map (drop 1) (Some (ahead_in self.old)) }
        ensures kept { result ≡ Next.Failed → Some (ahead_in self.new) ≡ Some (ahead_in self.old) }
        ensures given { given_by self.new ≡ given_by self.old + links_of result }
        ensures most { given_by self.new ≤ 2 ^ 32 - 1 }
        ensures told { told_by self.new ≡ told_by self.old }
        ensures failed { result ≡ Next.Failed → Rose (P.faults (plan_of self.old)) (P.faults (plan_of self.new)) }
        ensures no_fault { result ≢ Next.Failed → P.faults (plan_of self.new) ≡ P.faults (plan_of self.old) }
        ensures faults { P.faults (plan_of self.old) ≤ P.faults (plan_of self.new) }

        ensures answer { result ≡ (if P.fails (plan_of self.old) then Next.Failed else next_of (ahead_in self.old)) }
        ensures one_fault { result ≡ Next.Failed → P.faults (plan_of self.new) ≡ counted (P.faults (plan_of self.old)) }
        ensures plan { plan_of self.new ≡ P.after (plan_of self.old) }
        ensures room { room_of self.new ≡ room_of self.old }
    {
        if self.plan.next_call() {
            return Next::Failed;
        }
        match self.nexts.next() {
            Some(MemNext::New(link)) => {
                self.given += 1;
                Next::New(link)
            }
            Some(MemNext::Ready(link)) => Next::Ready(link),
            Some(MemNext::Moment(moment)) => Next::Moment(moment),
            None => Next::Stop,
        }
    }

    fn quiet(&mut self, link: u32)
        ensures told { Appends (told_by self.old) (Told.Quiet link ∷ []) (told_by self.new) }
        ensures ahead { Some (ahead_in self.new) ≡ Some (ahead_in self.old) }
        ensures given { given_by self.new ≡ given_by self.old }
        ensures faults { P.faults (plan_of self.new) ≡ P.faults (plan_of self.old) }

        ensures answer { told_by self.new ≡ told_within (room_of self.old) (told_by self.old) (Told.Quiet link) }
        ensures plan { plan_of self.new ≡ plan_of self.old }
        ensures room { room_of self.new ≡ room_of self.old }
    {
        self.note(Told::Quiet(link));
    }

    fn gone(&mut self, link: u32)
        ensures told { Appends (told_by self.old) (Told.Gone link ∷ []) (told_by self.new) }
        ensures ahead { Some (ahead_in self.new) ≡ Some (ahead_in self.old) }
        ensures given { given_by self.new ≡ given_by self.old }
        ensures faults { P.faults (plan_of self.new) ≡ P.faults (plan_of self.old) }

        ensures answer { told_by self.new ≡ told_within (room_of self.old) (told_by self.old) (Told.Gone link) }
        ensures plan { plan_of self.new ≡ plan_of self.old }
        ensures room { room_of self.new ≡ room_of self.old }
    {
        self.note(Told::Gone(link));
    }
}
