ghost use Rattle.std.specs.Prelude.{◌≡◌, ◌≢◌, ℕ, ◌-◌, ◌<◌, ◌≤◌, [], length, take, drop, Some, IfOk};
ghost use Rattle.fg_outside.specs.Counts.{counted, Rose};
ghost use Rattle.fg_outside.specs.FaultPlan.{fresh, is_listed, after_call};
ghost use Rattle.fg_outside.specs.Left.{prepended, IsAtEnd};
ghost use Rattle.fg_outside.specs.Wrote.{appended};
ghost use Rattle.fg_links.specs.Moved.{IfTook, UnlessTook, IfGave, UnlessGave, took_by, gave_by};

use crate::link::{Gave, Link, Took};
use fg_outside::{CallNos, FailListed, FailNever, FaultPlan, Sink, Source, SureSink, SureSource};
use net_base::{Bytes, NoMemory};
use std::alloc::Global;

/// A link in memory, which tells what it has left and what it was given. Its calls, reads and
/// writes together, are numbered from 1.
#[derive(Debug, Drop)]
pub struct LinkInMemory<P> {
    input: SureSource,
    output: SureSink,
    fail: P,
    wait: FailListed,
    faults: u64,
    unread: u64,
    unwritten: u64,
}

/// A link in memory, of which the calls listed as `fail` fail and those listed as `not_yet` answer
/// `NotYet`. Neither moves a byte. Of a number in both lists the call fails.
pub type MemLink = LinkInMemory<FailListed>;

/// A link in memory that fails only where a write finds no room left.
pub type SureLink = LinkInMemory<FailNever>;

impl LinkInMemory<FailListed> {
    ghost use Rattle.fg_links.specs.LinkInMemory.{left_in, given_to, room_of, fail_of, wait_of};

    /// A link that gives this input, with room for so many bytes, so that a write takes no memory.
    pub fn new(
        alloc: Global,
        input: Bytes,
        room: usize,
        fail: CallNos,
        not_yet: CallNos,
    ) -> Result<MemLink, NoMemory>
        ensures left { IfOk result (λ link. left_in link ≡ input) }
        ensures given { IfOk result (λ link. given_to link ≡ []) }
        ensures room { IfOk result (λ link. room_of link ≡ room) }
        ensures fail { IfOk result (λ link. fail_of link ≡ fresh fail) }
        ensures wait { IfOk result (λ link. wait_of link ≡ fresh not_yet) }
        ensures faults { IfOk result (λ link. ⟦<MemLink as Link>⟧.faults link ≡ 0) }
        ensures unread { IfOk result (λ link. ⟦<MemLink as Link>⟧.unread link ≡ 0) }
        ensures unwritten { IfOk result (λ link. ⟦<MemLink as Link>⟧.unwritten link ≡ 0) }
    {
        Ok(LinkInMemory {
            input: SureSource::new(input),
            output: SureSink::new(alloc, room)?,
            fail: FailListed::new(fail),
            wait: FailListed::new(not_yet),
            faults: 0,
            unread: 0,
            unwritten: 0,
        })
    }
}

impl LinkInMemory<FailNever> {
    ghost use Rattle.fg_links.specs.LinkInMemory.{left_in, given_to, room_of, wait_of};

    /// The same, but no call fails, unless a write finds no room left.
    pub fn new(
        alloc: Global,
        input: Bytes,
        room: usize,
        not_yet: CallNos,
    ) -> Result<SureLink, NoMemory>
        ensures left { IfOk result (λ link. left_in link ≡ input) }
        ensures given { IfOk result (λ link. given_to link ≡ []) }
        ensures room { IfOk result (λ link. room_of link ≡ room) }
        ensures wait { IfOk result (λ link. wait_of link ≡ fresh not_yet) }
        ensures faults { IfOk result (λ link. ⟦<SureLink as Link>⟧.faults link ≡ 0) }
        ensures unread { IfOk result (λ link. ⟦<SureLink as Link>⟧.unread link ≡ 0) }
        ensures unwritten { IfOk result (λ link. ⟦<SureLink as Link>⟧.unwritten link ≡ 0) }
    {
        Ok(LinkInMemory {
            input: SureSource::new(input),
            output: SureSink::new(alloc, room)?,
            fail: FailNever,
            wait: FailListed::new(not_yet),
            faults: 0,
            unread: 0,
            unwritten: 0,
        })
    }
}

impl<P> LinkInMemory<P> {
    ghost use Rattle.fg_links.specs.LinkInMemory.{given_to};

    /// All bytes that writes gave it.
    pub fn written(&self) -> &[u8]
        ensures { result.now ≡ given_to self.now }
    {
        self.output.as_slice()
    }
}

impl<P: FaultPlan> Link for LinkInMemory<P> {
    ghost use Rattle.fg_links.specs.LinkInMemory.{left_in, given_to, room_of, fail_of, wait_of, faults_of, unread_of, unwritten_of};

    ghost left = { λ link. Some (left_in link) };

    ghost wrote = { λ link. Some (given_to link) };

    ghost faults = { faults_of };

    ghost unread = { unread_of };

    ghost unwritten = { unwritten_of };

    /// Takes as much as the buffer has room for; `End` where nothing is left for a buffer that has
    /// room. Fails and waits exactly where its lists say so.
    fn read(&mut self, buf: &mut [u8]) -> Took
        ensures some { 0 < length buf.old → IfTook result (λ n. 0 < n) }
        ensures within { IfTook result (λ n. n ≤ length buf.old) }
        ensures took { IfTook result (λ n. Some (left_in self.old) ≡ prepended (take n buf.new) (Some (left_in self.new))) }
        ensures kept { UnlessTook result (Some (left_in self.new) ≡ Some (left_in self.old)) }
        ensures end { result ≡ Took.End → IsAtEnd (Some (left_in self.old)) }
        ensures wrote { Some (given_to self.new) ≡ Some (given_to self.old) }
        ensures failed { result ≡ Took.Failed → Rose (faults_of self.old) (faults_of self.new) }
        ensures no_fault { result ≢ Took.Failed → faults_of self.new ≡ faults_of self.old }
        ensures faults { faults_of self.old ≤ faults_of self.new }
        ensures not_yet { result ≡ Took.NotYet → Rose (unread_of self.old) (unread_of self.new) }
        ensures no_wait { result ≢ Took.NotYet → unread_of self.new ≡ unread_of self.old }
        ensures unread { unread_of self.old ≤ unread_of self.new }
        ensures unwritten { unwritten_of self.new ≡ unwritten_of self.old }

        ensures answer { result ≡ took_by (P.fails (fail_of self.old)) (is_listed (wait_of self.old)) (length buf.old) (length (left_in self.old)) }
        ensures behind { IfTook result (λ n. drop n buf.new ≡ drop n buf.old) }
        ensures untouched { UnlessTook result (buf.new ≡ buf.old) }
        ensures one_fault { result ≡ Took.Failed → faults_of self.new ≡ counted (faults_of self.old) }
        ensures one_wait { result ≡ Took.NotYet → unread_of self.new ≡ counted (unread_of self.old) }
        ensures fail { fail_of self.new ≡ P.after (fail_of self.old) }
        ensures wait { wait_of self.new ≡ after_call (wait_of self.old) }
        ensures room { room_of self.new ≡ room_of self.old }
    {
        let waits = self.wait.next_call();
        if self.fail.next_call() {
            self.faults = self.faults.saturating_add(1);
            return Took::Failed;
        }
        if waits {
            self.unread = self.unread.saturating_add(1);
            return Took::NotYet;
        }
        match self.input.read(buf) {
            Ok(0) if !buf.is_empty() => Took::End,
            Ok(count) => Took::Some(count),
            Err(_) => unreachable!(),
        }
    }

    /// Takes as much as there is room for. Fails exactly where its lists say so or a piece that isn't
    /// empty finds no room left, and waits exactly where its lists say so.
    fn write(&mut self, piece: &[u8]) -> Gave
        ensures some { 0 < length piece.now → IfGave result (λ n. 0 < n) }
        ensures within { IfGave result (λ n. n ≤ length piece.now) }
        ensures gave { IfGave result (λ n. Some (given_to self.new) ≡ appended (Some (given_to self.old)) (take n piece.now)) }
        ensures kept { UnlessGave result (Some (given_to self.new) ≡ Some (given_to self.old)) }
        ensures left { Some (left_in self.new) ≡ Some (left_in self.old) }
        ensures failed { result ≡ Gave.Failed → Rose (faults_of self.old) (faults_of self.new) }
        ensures no_fault { result ≢ Gave.Failed → faults_of self.new ≡ faults_of self.old }
        ensures faults { faults_of self.old ≤ faults_of self.new }
        ensures not_yet { result ≡ Gave.NotYet → Rose (unwritten_of self.old) (unwritten_of self.new) }
        ensures no_wait { result ≢ Gave.NotYet → unwritten_of self.new ≡ unwritten_of self.old }
        ensures unwritten { unwritten_of self.old ≤ unwritten_of self.new }
        ensures unread { unread_of self.new ≡ unread_of self.old }

        ensures answer { result ≡ gave_by (P.fails (fail_of self.old)) (is_listed (wait_of self.old)) (length piece.now) (room_of self.old - length (given_to self.old)) }
        ensures one_fault { result ≡ Gave.Failed → faults_of self.new ≡ counted (faults_of self.old) }
        ensures one_wait { result ≡ Gave.NotYet → unwritten_of self.new ≡ counted (unwritten_of self.old) }
        ensures fail { fail_of self.new ≡ P.after (fail_of self.old) }
        ensures wait { wait_of self.new ≡ after_call (wait_of self.old) }
        ensures room { room_of self.new ≡ room_of self.old }
    {
        let waits = self.wait.next_call();
        if self.fail.next_call() {
            self.faults = self.faults.saturating_add(1);
            return Gave::Failed;
        }
        if waits {
            self.unwritten = self.unwritten.saturating_add(1);
            return Gave::NotYet;
        }
        match self.output.write(piece) {
            Ok(count) => Gave::Some(count),
            Err(_) => {
                self.faults = self.faults.saturating_add(1);
                Gave::Failed
            }
        }
    }
}
