ghost use Rattle.std.specs.Prelude.{◌≡◌, ◌⊎◌, ℕ, ◌+◌, ◌-◌, ◌^◌, ◌<◌, ◌≤◌, [], length, take, min, true, Some, IfOk, OnOk, OnErr, IsErr, vec_len, vec_capacity};
ghost use Rattle.fg_outside.specs.Counts.{counted, Rose};
ghost use Rattle.fg_outside.specs.FaultPlan.{fresh};
ghost use Rattle.fg_outside.specs.Wrote.{appended};

use crate::fault::Failed;
use crate::fault_plan::{CallNos, FailListed, FailNever, FaultPlan};
use crate::sink::Sink;
use net_base::NoMemory;
use std::alloc::Global;

/// A sink in memory, which tells what it has taken. A write that finds no room left fails.
#[derive(Debug, Drop)]
pub struct SinkInMemory<P> {
    bytes: Vec<u8>,
    room: usize,
    overflows: u64,
    plan: P,
    ghost held: { room ≤ vec_capacity bytes },
    ghost within: { vec_len bytes ≤ room },
    ghost full: { 0 < overflows → vec_len bytes ≡ room },
}

/// A sink in memory, of which the listed writes fail. A failed write takes nothing.
pub type MemSink = SinkInMemory<FailListed>;

/// A sink in memory that fails only where no room is left.
pub type SureSink = SinkInMemory<FailNever>;

impl SinkInMemory<FailListed> {
    ghost use Rattle.fg_outside.specs.SinkInMemory.{taken_by, room_of, plan_of};

    /// An empty sink with room for so many bytes, so that a write takes no memory.
    pub fn new(alloc: Global, room: usize, fail: CallNos) -> Result<MemSink, NoMemory>
        ensures empty { IfOk result (λ sink. taken_by sink ≡ []) }
        ensures room { IfOk result (λ sink. room_of sink ≡ room) }
        ensures plan { IfOk result (λ sink. plan_of sink ≡ fresh fail) }
        ensures wrote { IfOk result (λ sink. ⟦<MemSink as Sink>⟧.wrote sink ≡ Some []) }
        ensures faults { IfOk result (λ sink. ⟦<MemSink as Sink>⟧.faults sink ≡ 0) }
    {
        Ok(SinkInMemory {
            bytes: Vec::with_capacity(alloc, room)?,
            room,
            overflows: 0,
            plan: FailListed::new(fail),
        })
    }
}

impl SinkInMemory<FailNever> {
    ghost use Rattle.fg_outside.specs.SinkInMemory.{taken_by, room_of};

    /// The same, but no write fails that finds room.
    pub fn new(alloc: Global, room: usize) -> Result<SureSink, NoMemory>
        ensures empty { IfOk result (λ sink. taken_by sink ≡ []) }
        ensures room { IfOk result (λ sink. room_of sink ≡ room) }
        ensures wrote { IfOk result (λ sink. ⟦<SureSink as Sink>⟧.wrote sink ≡ Some []) }
        ensures faults { IfOk result (λ sink. ⟦<SureSink as Sink>⟧.faults sink ≡ 0) }
    {
        Ok(SinkInMemory {
            bytes: Vec::with_capacity(alloc, room)?,
            room,
            overflows: 0,
            plan: FailNever,
        })
    }
}

impl<P> SinkInMemory<P> {
    ghost use Rattle.fg_outside.specs.SinkInMemory.{taken_by, room_of, overflows_of};

    /// All bytes that were taken. Where a write has found no room left, they fill the room.
    pub fn as_slice(&self) -> &[u8]
        ensures bytes { result.now ≡ taken_by self.now }
        ensures within { length result.now ≤ room_of self.now }
        ensures full { 0 < overflows_of self.now → length result.now ≡ room_of self.now }
    {
        self.bytes.as_slice()
    }
}

impl<P: FaultPlan> Sink for SinkInMemory<P> {
    ghost use Rattle.fg_outside.specs.SinkInMemory.{taken_by, room_of, plan_of, faults_of};

    ghost wrote = { λ sink. Some (taken_by sink) };

    ghost faults = { faults_of P.faults };

    /// Takes as much as there is room for. Fails exactly where the plan says so or a piece that
    /// isn't empty finds no room left.
    fn write(&mut self, piece: &[u8]) -> Result<usize, Failed>
        ensures some { 0 < length piece.now → IfOk result (λ n. 0 < n) }
        ensures within { IfOk result (λ n. n ≤ length piece.now) }
        ensures took { IfOk result (λ n. Some (taken_by self.new)
            ≡ appended (Some (taken_by self.old)) (take n piece.now)) }
        ensures kept { OnErr result (Some (taken_by self.new) ≡ Some (taken_by self.old)) }
        ensures failed { OnErr result (Rose (faults_of P.faults self.old) (faults_of P.faults self.new)) }
        ensures no_fault { OnOk result (faults_of P.faults self.new ≡ faults_of P.faults self.old) }
        ensures faults { faults_of P.faults self.old ≤ faults_of P.faults self.new }

        ensures one_fault { OnErr result (faults_of P.faults self.new ≡ counted (faults_of P.faults self.old)) }
        ensures count { IfOk result (λ n. n ≡ min (length piece.now) (room_of self.old - length (taken_by self.old))) }
        ensures planned { P.fails (plan_of self.old) ≡ true → IsErr result }
        ensures cause { OnErr result ((P.fails (plan_of self.old) ≡ true)
            ⊎ ((0 < length piece.now) × (length (taken_by self.old) ≡ room_of self.old))) }
        ensures plan { plan_of self.new ≡ P.after (plan_of self.old) }
        ensures room { room_of self.new ≡ room_of self.old }
    {
        if self.plan.next_call() {
            return Err(Failed);
        }
        let count = piece.len().min(self.room - self.bytes.len());
        if count == 0 && !piece.is_empty() {
            self.overflows = self.overflows.saturating_add(1);
            return Err(Failed);
        }
        self.bytes.extend_from_slice(&piece[..count]).unwrap();
        Ok(count)
    }
}
