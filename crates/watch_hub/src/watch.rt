ghost use Rattle.std.specs.Prelude.{◌≡◌, ◌≢◌, ◌≤◌, Ok, IfOk, OnErr};
ghost use Rattle.fg_outside.specs.Counts.{Rose};
ghost use Rattle.fg_outside.specs.HubStep.{turned};

use crate::file_watch::FileWatch;
use fg_outside::{Files, Hub, Said, Turn};
use net_base::{Bytes, NoMemory, Text};
use std::alloc::{AllocError, Global};

/// A hub beside which a configuration file is watched. It passes on the turns of its hub. With a moment that is
/// long enough after the last look it looks at the file; where the text of that has changed, the next turn is a
/// reload with it. A look that fails, or finds that a needed file isn't there, changes nothing.
///
/// Once it answered want of memory it is spent: each later turn and each piece said is answered so too.
#[derive(Debug, Drop)]
pub struct Watch<H, F> {
    hub: H,
    file: FileWatch<F>,
    spent: bool,
}

impl<H: Hub, F: Files> Watch<H, F> {
    ghost use Rattle.watch_hub.specs.Watch.{hub_in, files_in, is_spent, IsAsked, IsBegun, Does, GoesAlong};

    /// A hub, and the named file of these files with what it includes, whose text was `first` up to now. A look
    /// comes at a moment that is at least `every` milliseconds after the last one, the first being measured from
    /// moment 0.
    pub fn new(alloc: Global, hub: H, files: F, name: Text, first: Bytes, every: u64) -> Watch<H, F>
        ensures begun { IsBegun result name first every }
        ensures hub { hub_in result ≡ hub }
        ensures files { files_in result ≡ files }
    {
        Watch {
            hub,
            file: FileWatch::new(alloc, files, name, first, every),
            spent: false,
        }
    }

    /// The hub and the files.
    pub fn into_parts(self) -> (H, F)
        ensures hub { result.0 ≡ hub_in self }
        ensures files { result.1 ≡ files_in self }
    {
        (self.hub, self.file.into_files())
    }

    // The next turn: a reload with the text that waits, or else what the hub gives, with a look where one is due.
    fn next_turn(&mut self) -> Result<Turn, NoMemory>
        ensures does { IfOk result (λ turn. Does H.may F.contents F.faults F.absences self.old (turned turn) self.new) }
        ensures asked { OnErr result (IsAsked H.may (hub_in self.old) (hub_in self.new)) }
        ensures along { GoesAlong H.may F.faults F.absences self.old self.new }
        ensures spent { is_spent self.new ≡ is_spent self.old }

        ensures failed { result ≡ Ok Turn.Failed → Rose (H.faults (hub_in self.old)) (H.faults (hub_in self.new)) }
        ensures no_fault { result ≢ Ok Turn.Failed → H.faults (hub_in self.new) ≡ H.faults (hub_in self.old) }
        ensures faults { H.faults (hub_in self.old) ≤ H.faults (hub_in self.new) }
    {
        if self.file.waits() {
            return Ok(Turn::Happened(self.file.tell()?));
        }
        match self.hub.turn() {
            Turn::Happened(it) => {
                self.file.take_in(&it)?;
                Ok(Turn::Happened(it))
            }
            Turn::Done => Ok(Turn::Done),
            Turn::Failed => Ok(Turn::Failed),
            Turn::Memory => Err(AllocError),
        }
    }
}

impl<H: Hub, F: Files> Hub for Watch<H, F> {
    ghost use Rattle.watch_hub.specs.Watch.{hub_in, WatchStep};

    ghost may = { WatchStep H.may F.contents F.faults F.absences };

    ghost is_open = { λ watch conn. H.is_open (hub_in watch) conn };

    ghost faults = { λ watch. H.faults (hub_in watch) };

    /// `Done` and `Failed` exactly where the hub's turn in this call answers so.
    fn turn(&mut self) -> Turn {
        if self.spent {
            return Turn::Memory;
        }
        match self.next_turn() {
            Ok(turn) => turn,
            Err(_) => {
                self.spent = true;
                Turn::Memory
            }
        }
    }

    fn say(&mut self, conn: u32, piece: &[u8]) -> Said {
        if self.spent {
            return Said::Memory;
        }
        match self.hub.say(conn, piece) {
            Said::Memory => {
                self.spent = true;
                Said::Memory
            }
            answer => answer,
        }
    }

    fn close(&mut self, conn: u32) {
        self.hub.close(conn);
    }
}
