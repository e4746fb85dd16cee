ghost use Rattle.std.specs.Prelude.{◌≡◌, ◌≢◌, ◌≤◌, ◌+◌, ℕ, true, false, [], Some, None};
ghost use Rattle.fg_outside.specs.Counts.{Rose};
ghost use Rattle.fg_outside.specs.HubStep.{HubStep, turned, said, closed};
ghost use Rattle.fg_outside.specs.Steps.{Went};
ghost use Rattle.recording.specs.declared.record.Record.{Record};
ghost use Rattle.recording.specs.Reader.{part_of, refused_of};

use crate::conns::Conns;
use crate::own::own_of;
use crate::reader::{Reader, Stop};
use crate::record::Record;
use crate::refused::RecordRefused;
use fg_outside::{Happening, Hub, Said, Source, Turn};
use std::alloc::Global;

/// A hub that gives the turns of a recording. It reads one record at a time, and never past a
/// record; it waits for nobody. At the end, and at a refused record, its turn is `Done`. It takes
/// every piece that is said on an open connection, and keeps nothing of it.
#[derive(Debug, Drop)]
pub struct ScriptHub<S> {
    reader: Reader<S>,
    // The connections that are open in the recording and weren't closed.
    live: Conns,
    // The record whose moment was told, and whose own is still to be told.
    waiting: Option<Record>,
    spent: bool,
    ghost between: { (waiting ≡ None → ⊥) → part_of reader ≡ [] },
    ghost accepted: { (waiting ≡ None → ⊥) → refused_of reader ≡ None },
}

impl<S: Source> ScriptHub<S> {
    ghost use Rattle.recording.specs.Reader.{place_of};
    ghost use Rattle.recording.specs.Script.{source_in, is_spent, is_live, refusal_in, StandsFor, TellsOwn, ReadsOn};

    /// A hub that gives the turns of what the source has left.
    pub fn new(alloc: Global, source: S) -> ScriptHub<S>
        ensures starts { StandsFor S.left (S.left source) result [] None [] }
        ensures source { source_in result ≡ source }
        ensures running { is_spent result ≡ false }
    {
        ScriptHub {
            reader: Reader::new(alloc, source),
            live: Conns::new(alloc),
            waiting: None,
            spent: false,
        }
    }

    /// The source.
    pub fn into_source(self) -> S
        ensures { result ≡ source_in self }
    {
        self.reader.into_source()
    }

    /// The refused record, once it was reached.
    pub fn refused(&self) -> Option<RecordRefused>
        ensures { result ≡ refusal_in self.now }
    {
        self.reader.refused()
    }

    // Tells what the record that waits tells of its own, if anything.
    fn tell_own(&mut self) -> Option<Turn>
        ensures nothing { self.old.waiting ≡ None → (result ≡ None) × (self.new ≡ self.old) }
        ensures gone { self.new.waiting ≡ None }
        ensures reader { self.new.reader ≡ self.old.reader }
        ensures not_failed { result ≢ Some Turn.Failed }
        ensures told { (r : Record) → self.old.waiting ≡ Some r → TellsOwn r self.old result self.new }
    {
        let record = self.waiting.take()?;
        let is_live = self.live.has(record.conn);
        if self.live.go_on(record.kind, record.conn).is_err() {
            self.spent = true;
            return Some(Turn::Memory);
        }
        own_of(record, is_live).map(Turn::Happened)
    }

    // Reads the next record, which then waits, and tells its moment, if it does so.
    fn read_on(&mut self) -> Option<Turn>
        requires { self.old.waiting ≡ None }

        ensures step { ReadsOn S.left self.old result self.new }
        ensures more { result ≡ None → self.new.reader.count ≡ self.old.reader.count + 1 }
        ensures failed { result ≡ Some Turn.Failed → Rose (S.faults (source_in self.old)) (S.faults (source_in self.new)) }
        ensures no_fault { result ≢ Some Turn.Failed → S.faults (source_in self.new) ≡ S.faults (source_in self.old) }
        ensures faults { S.faults (source_in self.old) ≤ S.faults (source_in self.new) }
        ensures source { Went S.may (source_in self.old) (source_in self.new) }
    {
        let last = self.reader.moment();
        match self.reader.next() {
            Ok(record) => {
                let moment = record.moment;
                let tells = last < moment || record.kind.is_moment();
                self.waiting = Some(record);
                tells.then_some(Turn::Happened(Happening::Moment(moment)))
            }
            Err(Stop::End) => Some(Turn::Done),
            Err(Stop::Refused(_)) => Some(Turn::Done),
            Err(Stop::Failed) => Some(Turn::Failed),
            Err(Stop::Memory) => {
                self.spent = true;
                Some(Turn::Memory)
            }
        }
    }
}

impl<S: Source> Hub for ScriptHub<S> {
    ghost use Rattle.recording.specs.Script.{source_in, is_live, answer_of, ScriptStep};

    ghost may = { λ old step new. ScriptStep S.left S.may old step new };

    ghost is_open = { λ hub conn. is_live hub conn };

    ghost faults = { λ hub. S.faults (source_in hub) };

    fn turn(&mut self) -> Turn {
        if self.spent {
            return Turn::Memory;
        }
        loop {
            match self.tell_own() {
                Some(turn) => return turn,
                None => {}
            }
            match self.read_on() {
                Some(turn) => return turn,
                None => {}
            }
        }
    }

    fn say(&mut self, conn: u32, _piece: &[u8]) -> Said {
        if self.spent {
            Said::Memory
        } else if self.live.has(conn) {
            Said::Taken
        } else {
            Said::Gone
        }
    }

    fn close(&mut self, conn: u32) {
        self.live.remove(conn);
    }
}
