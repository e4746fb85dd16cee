ghost use Rattle.std.specs.Prelude.{◌≡◌, true, false, IfOk, OnOk, OnErr};

use crate::look::look_at;
use fg_outside::{Files, Happening};
use net_base::{Bytes, NoMemory, Text, TryCopy};
use std::alloc::Global;

/// A configuration file that is looked at from time to time, and the text that it last had.
#[derive(Debug, Drop)]
pub struct FileWatch<F> {
    alloc: Global,
    files: F,
    name: Text,
    // How long after a look the next one is due, in milliseconds.
    every: u64,
    // The moment of the last look, in milliseconds; 0 before the first.
    looked: u64,
    last: Bytes,
    // Whether the last text is still to be told.
    waits: bool,
}

impl<F: Files> FileWatch<F> {
    ghost use Rattle.fg_outside.specs.declared.hub.Happening.TheVariants.{Reload};
    ghost use Rattle.watch_hub.specs.FileWatch.{Keeps, Looks};
    ghost use Rattle.watch_hub.specs.Watched.{differs, is_due, is_look, last_after, moment_of};

    /// A file that had this text, and wasn't looked at yet.
    pub fn new(alloc: Global, files: F, name: Text, first: Bytes, every: u64) -> FileWatch<F>
        ensures files { result.files ≡ files }
        ensures name { result.name ≡ name }
        ensures every { result.every ≡ every }
        ensures looked { result.looked ≡ 0 }
        ensures last { result.last ≡ first }
        ensures waits { result.waits ≡ false }
    {
        FileWatch {
            alloc,
            files,
            name,
            every,
            looked: 0,
            last: first,
            waits: false,
        }
    }

    /// The files.
    pub fn into_files(self) -> F
        ensures { result ≡ self.files }
    {
        self.files
    }

    /// Whether the last text is still to be told.
    pub fn waits(&self) -> bool
        ensures { result ≡ self.now.waits }
    {
        self.waits
    }

    /// Tells the last text. After `NoMemory` it still waits.
    pub fn tell(&mut self) -> Result<Happening, NoMemory>
        ensures told { IfOk result (λ it. it ≡ Reload self.old.last) }
        ensures ok { OnOk result (self.new ≡ record self.old { waits = false }) }
        ensures err { OnErr result (self.new ≡ self.old) }
    {
        let text = self.last.copy(self.alloc)?;
        self.waits = false;
        Ok(Happening::Reload(text))
    }

    // Whether a look is due at this moment. At one before the last look none is.
    fn is_due(&self, moment: u64) -> bool
        ensures { result ≡ is_due self.now.every self.now.looked moment }
    {
        moment >= self.looked && moment - self.looked >= self.every
    }

    // Takes the text that a look found, if it did so. One that differs from the last text waits.
    fn take_text(&mut self, found: Option<Bytes>)
        requires { self.old.waits ≡ false }
        ensures { self.new ≡ record self.old { last = last_after self.old.last found; waits = differs self.old.last found } }
    {
        if let Some(text) = found {
            self.waits = text.as_slice() != self.last.as_slice();
            self.last = text;
        }
    }

    // Looks at the file at this moment.
    fn look(&mut self, moment: u64) -> Result<(), NoMemory>
        requires { self.old.waits ≡ false }
        ensures ok { OnOk result (Looks F.contents F.faults F.absences moment self.old self.new) }
        ensures keeps { Keeps F.faults F.absences self.old self.new }
    {
        self.looked = moment;
        let found = look_at(self.alloc, &mut self.files, self.name.as_str())?;
        self.take_text(found);
        Ok(())
    }

    /// Takes in what happens, with a look where one is due then.
    pub fn take_in(&mut self, it: &Happening) -> Result<(), NoMemory>
        requires { self.old.waits ≡ false }
        ensures look { is_look self.old.every self.old.looked it.now ≡ true
            → OnOk result (Looks F.contents F.faults F.absences (moment_of it.now) self.old self.new) }
        ensures no_look { is_look self.old.every self.old.looked it.now ≡ false → OnOk result (self.new ≡ self.old) }
        ensures keeps { Keeps F.faults F.absences self.old self.new }
    {
        match it {
            Happening::Moment(moment) => {
                if self.is_due(*moment) {
                    self.look(*moment)
                } else {
                    Ok(())
                }
            }
            _ => Ok(()),
        }
    }
}
