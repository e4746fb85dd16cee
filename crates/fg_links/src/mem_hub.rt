ghost use Rattle.std.specs.Prelude.{◌≡◌, ℕ, ◌+◌, ◌≤◌, [], ◌∷◌, ◌++◌, true, false, OnOk, OnErr, IfOk, IfSome, IfNone, vec_len, vec_capacity};
ghost use Rattle.std.specs.Ordering.{nat_cmp};
ghost use Rattle.std.specs.BTreeSet.{contains, btree_set_len};
ghost use Rattle.fg_outside.specs.FaultPlan.{fresh};
ghost use Rattle.fg_links.specs.Stories.{is_open_in, fits, fitting};

use crate::story::StoryStep;
use fg_outside::{
    CallNos, FailListed, FailNever, FaultPlan, Happening, Happenings, Hub, Said, Turn,
};
use net_base::{Bytes, NoMemory, TryCopy};
use std::alloc::{AllocError, Global};
use std::collections::BTreeSet;
use std::vec::IntoIter;

/// A hub in memory: it gives the turns of its list that fit what is open, and then says `Done`. It
/// takes every piece that is said on an open connection, and keeps its whole story.
#[derive(Drop)]
pub struct HubInMemory<P> {
    alloc: Global,
    turns: IntoIter<Happening>,
    conns: BTreeSet<u32>,
    story: Vec<StoryStep>,
    spent: bool,
    plan: P,
    ghost opened: { (conn : ℕ) → contains nat_cmp conns conn ≡ is_open_in story.items conn },
    ghost room: { vec_len story + btree_set_len conns ≤ vec_capacity story },
}

/// A hub in memory, of which the listed turns fail. A failed turn uses up nothing.
pub type MemHub = HubInMemory<FailListed>;

/// A hub in memory that never fails.
pub type SureHub = HubInMemory<FailNever>;

impl HubInMemory<FailListed> {
    ghost use Rattle.fg_links.specs.HubInMemory.{turns_of, story_of, is_spent, plan_of};

    /// A hub that gives these turns.
    pub fn new(alloc: Global, turns: Happenings, fail: CallNos) -> MemHub
        ensures turns { turns_of result ≡ turns }
        ensures story { story_of result ≡ [] }
        ensures spent { is_spent result ≡ false }
        ensures plan { plan_of result ≡ fresh fail }
        ensures faults { ⟦<MemHub as Hub>⟧.faults result ≡ 0 }
    {
        HubInMemory::with_plan(alloc, turns, FailListed::new(fail))
    }
}

impl HubInMemory<FailNever> {
    ghost use Rattle.fg_links.specs.HubInMemory.{turns_of, story_of, is_spent};

    /// The same, but no turn fails.
    pub fn new(alloc: Global, turns: Happenings) -> SureHub
        ensures turns { turns_of result ≡ turns }
        ensures story { story_of result ≡ [] }
        ensures spent { is_spent result ≡ false }
        ensures faults { ⟦<SureHub as Hub>⟧.faults result ≡ 0 }
    {
        HubInMemory::with_plan(alloc, turns, FailNever)
    }
}

impl<P> HubInMemory<P> {
    ghost use Rattle.fg_links.specs.declared.story.StoryStep.TheVariants as step;
    ghost use Rattle.fg_links.specs.HubInMemory.{turns_of, story_of, is_spent, plan_of};

    // A hub that gives these turns, and has given none of them.
    fn with_plan(alloc: Global, turns: Happenings, plan: P) -> HubInMemory<P>
        ensures turns { turns_of result ≡ turns }
        ensures story { story_of result ≡ [] }
        ensures spent { is_spent result ≡ false }
        ensures plan { plan_of result ≡ plan }
    {
        HubInMemory {
            alloc,
            turns: turns.into_vec().into_iter(),
            conns: BTreeSet::new(alloc),
            story: Vec::new(alloc),
            spent: false,
            plan,
        }
    }

    /// Its story so far.
    pub fn story(&self) -> &[StoryStep]
        ensures { result.now ≡ story_of self.now }
    {
        self.story.as_slice()
    }

    fn is_open(&self, conn: u32) -> bool
        ensures { result ≡ is_open_in (story_of self.now) conn }
    {
        self.conns.contains(&conn)
    }

    fn fits(&self, turn: &Happening) -> bool
        ensures { result ≡ fits (story_of self.now) turn.now }
    {
        match turn {
            Happening::Opened(conn) => !self.is_open(*conn),
            Happening::Heard { conn, .. } | Happening::Closed { conn, .. } => self.is_open(*conn),
            Happening::Moment(_) | Happening::Reload(_) => true,
        }
    }

    // Takes the next turn that fits off the list, and those before it.
    fn take_turn(&mut self) -> Option<Happening>
        ensures some { IfSome result (λ it. fitting (story_of self.old) (turns_of self.old) ≡ it ∷ turns_of self.new) }
        ensures none { IfNone result (fitting (story_of self.old) (turns_of self.old) ≡ []) }
        ensures none_left { IfNone result (turns_of self.new ≡ []) }
        ensures fits { IfSome result (λ it. fits (story_of self.old) it ≡ true) }
        ensures story { story_of self.new ≡ story_of self.old }
        ensures spent { is_spent self.new ≡ is_spent self.old }
        ensures plan { plan_of self.new ≡ plan_of self.old }
    {
        while let Some(turn) = self.turns.next() {
            if self.fits(&turn) {
                return Some(turn);
            }
        }
        None
    }

    // Writes a happening that fits into the story. An opening also makes the room for its closing.
    fn keep(&mut self, it: Happening) -> Result<(), NoMemory>
        requires { fits (story_of self.old) it ≡ true }
        ensures ok { OnOk result (story_of self.new ≡ story_of self.old ++ step.Gave it ∷ []) }
        ensures err { OnErr result (story_of self.new ≡ story_of self.old) }
        ensures turns { turns_of self.new ≡ turns_of self.old }
        ensures spent { is_spent self.new ≡ is_spent self.old }
        ensures plan { plan_of self.new ≡ plan_of self.old }
    {
        self.story.reserve(self.conns.len() + 2)?;
        match &it {
            Happening::Opened(conn) => {
                self.conns.insert(*conn)?;
            }
            Happening::Closed { conn, .. } => {
                self.conns.remove(conn);
            }
            _ => {}
        }
        self.story.push_reserved(StoryStep::Gave(it));
        Ok(())
    }

    // Gives the next turn that fits, or none where none is left.
    fn give(&mut self) -> Result<Option<Happening>, NoMemory>
        ensures some { IfOk result (λ given. IfSome given (λ it. fitting (story_of self.old) (turns_of self.old) ≡ it ∷ turns_of self.new)) }
        ensures none { IfOk result (λ given. IfNone given (fitting (story_of self.old) (turns_of self.old) ≡ [])) }
        ensures none_left { IfOk result (λ given. IfNone given (turns_of self.new ≡ [])) }
        ensures kept { IfOk result (λ given. IfSome given (λ it. story_of self.new ≡ story_of self.old ++ step.Gave it ∷ [])) }
        ensures done { IfOk result (λ given. IfNone given (story_of self.new ≡ story_of self.old)) }
        ensures err { OnErr result (story_of self.new ≡ story_of self.old) }
        ensures spent { is_spent self.new ≡ is_spent self.old }
        ensures plan { plan_of self.new ≡ plan_of self.old }
    {
        match self.take_turn() {
            None => Ok(None),
            Some(turn) => {
                let kept = turn.copy(self.alloc)?;
                self.keep(kept)?;
                Ok(Some(turn))
            }
        }
    }

    // Writes a piece said on an open connection into the story.
    fn keep_said(&mut self, conn: u32, piece: &[u8]) -> Result<(), NoMemory>
        ensures ok { OnOk result (story_of self.new ≡ story_of self.old ++ step.Said conn piece.now ∷ []) }
        ensures err { OnErr result (story_of self.new ≡ story_of self.old) }
        ensures turns { turns_of self.new ≡ turns_of self.old }
        ensures spent { is_spent self.new ≡ is_spent self.old }
        ensures plan { plan_of self.new ≡ plan_of self.old }
    {
        let piece = Bytes::from_slice(self.alloc, piece)?;
        self.story.reserve(self.conns.len() + 1)?;
        self.story.push_reserved(StoryStep::Said { conn, piece });
        Ok(())
    }
}

impl<P: FaultPlan> Hub for HubInMemory<P> {
    ghost use Rattle.fg_links.specs.HubInMemory.{story_of, plan_of, May};

    ghost may = { May P.fails P.after };

    ghost is_open = { λ hub conn. is_open_in (story_of hub) conn };

    ghost faults = { λ hub. P.faults (plan_of hub) };

    /// Gives the next turn of its list that fits. Fails exactly where the plan says so.
    fn turn(&mut self) -> Turn {
        if self.spent {
            return Turn::Memory;
        }
        if self.plan.next_call() {
            return Turn::Failed;
        }
        match self.give() {
            Ok(Some(turn)) => Turn::Happened(turn),
            Ok(None) => Turn::Done,
            Err(_) => {
                self.spent = true;
                Turn::Memory
            }
        }
    }

    fn say(&mut self, conn: u32, piece: &[u8]) -> Said {
        if self.spent {
            return Said::Memory;
        }
        if !self.is_open(conn) {
            return Said::Gone;
        }
        match self.keep_said(conn, piece) {
            Ok(()) => Said::Taken,
            Err(_) => {
                self.spent = true;
                Said::Memory
            }
        }
    }

    fn close(&mut self, conn: u32) {
        if self.conns.remove(&conn) {
            self.story.push_reserved(StoryStep::Closed(conn));
        }
    }
}
