ghost use Rattle.std.specs.Prelude.{◌≡◌, ◌↔◌, ℕ, ◌<◌, ◌≤◌, List, length, take, drop, min, Some, IfOk, OnOk, OnErr, IsErr, IsTrue};
ghost use Rattle.fg_outside.specs.Counts.{counted, Rose};
ghost use Rattle.fg_outside.specs.FaultPlan.{fresh};
ghost use Rattle.fg_outside.specs.Left.{prepended, IsAtEnd};

use crate::copy::copy_front;
use crate::fault::Failed;
use crate::fault_plan::{CallNos, FailListed, FailNever, FaultPlan};
use crate::source::Source;
use net_base::Bytes;

/// A source in memory, which tells what it has left.
#[derive(Debug, Drop)]
pub struct SourceInMemory<P> {
    bytes: Bytes,
    at: usize,
    plan: P,
    ghost within: { at ≤ length bytes },
}

/// A source in memory, of which the listed reads fail. A failed read takes nothing.
pub type MemSource = SourceInMemory<FailListed>;

/// A source in memory that never fails.
pub type SureSource = SourceInMemory<FailNever>;

impl SourceInMemory<FailListed> {
    ghost use Rattle.fg_outside.specs.SourceInMemory.{plan_of};

    /// A source of these bytes.
    pub fn new(bytes: Bytes, fail: CallNos) -> MemSource
        ensures left { ⟦<MemSource as Source>⟧.left result ≡ Some bytes }
        ensures plan { plan_of result ≡ fresh fail }
        ensures faults { ⟦<MemSource as Source>⟧.faults result ≡ 0 }
    {
        SourceInMemory {
            bytes,
            at: 0,
            plan: FailListed::new(fail),
        }
    }
}

impl SourceInMemory<FailNever> {
    /// The same, but no read fails.
    pub fn new(bytes: Bytes) -> SureSource
        ensures left { ⟦<SureSource as Source>⟧.left result ≡ Some bytes }
        ensures faults { ⟦<SureSource as Source>⟧.faults result ≡ 0 }
    {
        SourceInMemory {
            bytes,
            at: 0,
            plan: FailNever,
        }
    }
}

impl<P: FaultPlan> Source for SourceInMemory<P> {
    ghost use Rattle.fg_outside.specs.SourceInMemory.{left_in, plan_of};

    ghost left = { λ source. Some (left_in source) };

    ghost faults = { λ source. P.faults (plan_of source) };

    ghost may = { λ _ _. Unit {0} };

    /// Takes as much as the buffer has room for. Fails exactly where the plan says so. The buffer
    /// stays as it was behind what was taken.
    fn read(&mut self, buf: &mut [u8]) -> Result<usize, Failed>
        ensures within { IfOk result (λ n. n ≤ length buf.old) }
        ensures took { IfOk result (λ n. Some (left_in self.old) ≡ prepended (take n buf.new) (Some (left_in self.new))) }
        ensures end { 0 < length buf.old → IfOk result (λ n. n ≡ 0 → IsAtEnd (Some (left_in self.old))) }
        ensures kept { OnErr result (Some (left_in self.new) ≡ Some (left_in self.old)) }
        ensures failed { OnErr result (Rose (P.faults (plan_of self.old)) (P.faults (plan_of self.new))) }
        ensures no_fault { OnOk result (P.faults (plan_of self.new) ≡ P.faults (plan_of self.old)) }
        ensures faults { P.faults (plan_of self.old) ≤ P.faults (plan_of self.new) }
        ensures step { Unit {0} }

        ensures one_fault { OnErr result (P.faults (plan_of self.new) ≡ counted (P.faults (plan_of self.old))) }
        ensures count { IfOk result (λ n. n ≡ min (length buf.old) (length (left_in self.old))) }
        ensures behind { IfOk result (λ n. drop n buf.new ≡ drop n buf.old) }
        ensures unread { OnErr result (buf.new ≡ buf.old) }
        ensures planned { IsErr result ↔ IsTrue (P.fails (plan_of self.old)) }
        ensures plan { plan_of self.new ≡ P.after (plan_of self.old) }
    {
        if self.plan.next_call() {
            return Err(Failed);
        }
        let count = copy_front(&self.bytes.as_slice()[self.at..], buf);
        self.at += count;
        Ok(count)
    }
}
