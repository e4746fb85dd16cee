ghost use Rattle.std.specs.Prelude.{◌≡◌, ◌≢◌, ◌≤◌, ◌+◌, false, Ok, IfOk, OnErr};
ghost use Rattle.fg_outside.specs.Counts.{Rose, counted};
ghost use Rattle.fg_outside.specs.declared.hub.Turn.TheVariants.{Memory};
ghost use Rattle.fg_outside.specs.HubStep.{turned};

use crate::recorder::Recorder;
use fg_outside::{Hub, Said, Sink, Turn};
use net_base::NoMemory;
use std::alloc::{AllocError, Global};

/// A hub that passes on the turns of its hub, and before it gives a happening writes its record to a sink: the
/// whole record in one piece, with the last moment, or of a moment with that. A connection that is closed is
/// closed in the recording too.
///
/// Where a record may not stand behind the others (a piece of more than 1,048,576 bytes, a moment before the
/// last one, a connection that isn't open there, or too many records), or a write fails, nothing more is
/// written, and this turn and each later one fails. Of an end by a fault an end is written, and of a text of
/// more than 1,048,576 bytes one byte 0: neither is a configuration.
///
/// Once memory ran out it is spent: each later turn and each piece said is answered so, and nothing more is
/// written.
#[derive(Debug, Drop)]
pub struct RecordingHub<H, S> {
    hub: H,
    recorder: Recorder<S>,
    // How many turns failed since the recording broke.
    failures: u64,
    spent: bool,
}

impl<H: Hub, S: Sink> RecordingHub<H, S> {
    ghost use Rattle.recording_hub.specs.RecordingHub.{hub_in, sink_in, has_failed, is_spent, faults_of, IsAskedOnce, IsBegun, Counts, Does, GoesAlong};
    ghost use Rattle.recording_hub.specs.Recorder.{Rests};

    /// A hub, and a sink that takes its recording behind what it has taken.
    pub fn new(alloc: Global, hub: H, sink: S) -> RecordingHub<H, S>
        ensures begun { IsBegun result }
        ensures hub { hub_in result ≡ hub }
        ensures sink { sink_in result ≡ sink }
    {
        RecordingHub {
            hub,
            recorder: Recorder::new(alloc, sink),
            failures: 0,
            spent: false,
        }
    }

    /// Whether a record had no place behind the others, or wasn't written whole.
    pub fn has_failed(&self) -> bool
        ensures { result ≡ has_failed self.now }
    {
        self.recorder.is_broken()
    }

    /// The hub and the sink.
    pub fn into_parts(self) -> (H, S)
        ensures hub { result.0 ≡ hub_in self }
        ensures sink { result.1 ≡ sink_in self }
    {
        (self.hub, self.recorder.into_sink())
    }

    // A turn that fails since the recording is broken.
    fn fail(&mut self) -> Turn
        ensures failed { result ≡ Turn.Failed }
        ensures counted { self.new ≡ record self.old { failures = counted self.old.failures } }
        ensures rises { self.old.failures ≤ self.new.failures }
    {
        self.failures = self.failures.saturating_add(1);
        Turn::Failed
    }

    // The next turn of the hub, once its record is written.
    fn next_turn(&mut self) -> Result<Turn, NoMemory>
        requires { is_spent self.old ≡ false }
        ensures does { IfOk result (λ turn. Does H.may S.wrote S.faults self.old (turned turn) self.new) }
        ensures asked { OnErr result (IsAskedOnce H.may (hub_in self.old) (hub_in self.new)) }
        ensures rests { OnErr result (Rests S.wrote self.old.recorder self.new.recorder) }
        ensures counts { IfOk result (λ turn. Counts H.faults S.faults self.old (turned turn) self.new) }
        ensures memory { OnErr result (Counts H.faults S.faults self.old (turned Memory) self.new) }
        ensures along { GoesAlong H.may self.old self.new }
        ensures spent { is_spent self.new ≡ is_spent self.old }

        ensures failed { result ≡ Ok Turn.Failed → Rose (faults_of H.faults self.old) (faults_of H.faults self.new) }
        ensures no_fault { result ≢ Ok Turn.Failed → faults_of H.faults self.new ≡ faults_of H.faults self.old }
        ensures faults { faults_of H.faults self.old ≤ faults_of H.faults self.new }
    {
        if self.recorder.is_broken() {
            return Ok(self.fail());
        }
        match self.hub.turn() {
            Turn::Happened(it) => {
                self.recorder.note(&it)?;
                if self.recorder.is_broken() {
                    return Ok(self.fail());
                }
                Ok(Turn::Happened(it))
            }
            Turn::Done => Ok(Turn::Done),
            Turn::Failed => Ok(Turn::Failed),
            Turn::Memory => Err(AllocError),
        }
    }
}

impl<H: Hub, S: Sink> Hub for RecordingHub<H, S> {
    ghost use Rattle.recording_hub.specs.RecordingHub.{hub_in, faults_of, RecordingStep};

    ghost may = { RecordingStep H.may H.faults S.wrote S.faults };

    ghost is_open = { λ it conn. H.is_open (hub_in it) conn };

    ghost faults = { faults_of H.faults };

    fn turn(&mut self) -> Turn {
        if self.spent {
            return Turn::Memory;
        }
        match self.next_turn() {
            Err(_) => {
                self.spent = true;
                Turn::Memory
            }
            Ok(turn) => turn,
        }
    }

    fn say(&mut self, conn: u32, piece: &[u8]) -> Said {
        if self.spent {
            return Said::Memory;
        }
        let answer = self.hub.say(conn, piece);
        self.spent = answer == Said::Memory;
        answer
    }

    fn close(&mut self, conn: u32) {
        self.hub.close(conn);
        if self.spent {
            return;
        }
        match self.recorder.note_closing(conn) {
            Ok(()) => {}
            Err(_) => self.spent = true,
        }
    }
}
