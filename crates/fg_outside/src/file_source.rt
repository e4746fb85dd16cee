ghost use Rattle.std.specs.Prelude.{◌≡◌, ◌≢◌, ◌⊎◌, ℕ, ◌-◌, ◌^◌, ◌<◌, ◌≤◌, List, length, take, min, None, Some, IfOk, OnOk, OnErr};
ghost use Rattle.fg_outside.specs.Counts.{Rose};
ghost use Rattle.fg_outside.specs.Contents.{Tells};
ghost use Rattle.fg_outside.specs.Left.{prepended, IsAtEnd};

use crate::copy::copy_front;
use crate::fault::Failed;
use crate::files::Files;
use crate::source::Source;
use net_base::Text;

// How many bytes are read ahead at once.
const AHEAD_LEN: usize = 4096;

/// A file as a source, read from place to place. It tells what is left of the file where the files
/// tell that it is there. A read fails where the files fail and where the file isn't there, and
/// counts both.
#[derive(Debug, Drop)]
pub struct FileSource<F> {
    files: F,
    name: Text,
    ahead: [u8; AHEAD_LEN],
    start: usize,
    end: usize,
    place: u64,
    missing: u64,
    ghost ordered: { start ≤ end },
    ghost within: { end ≤ 4096 },
}

impl<F: Files> FileSource<F> {
    ghost use Rattle.fg_outside.specs.FileSource.{files_of, name_of, missing_of, left_in, faults_of, KeepsFiles};

    /// The named file of these files, from its start.
    pub fn new(files: F, name: Text) -> FileSource<F>
        ensures left { (file : List ℕ) → Tells (F.contents files) name (Some file) → left_in F.contents result ≡ Some file }
        ensures files { files_of result ≡ files }
        ensures name { name_of result ≡ name }
        ensures faults { faults_of F.faults result ≡ min (F.faults files) (2 ^ 64 - 1) }
        ensures missing { missing_of result ≡ 0 }
    {
        FileSource {
            files,
            name,
            ahead: [0; AHEAD_LEN],
            start: 0,
            end: 0,
            place: 0,
            missing: 0,
        }
    }

    /// The files, with all that they counted.
    pub fn into_files(self) -> F
        ensures { result ≡ files_of self }
    {
        self.files
    }

    // Reads ahead from the place, where nothing is left of what was read ahead before.
    fn read_ahead(&mut self) -> Result<(), Failed>
        requires { self.old.start ≡ self.old.end }

        ensures left { left_in F.contents self.new ≡ left_in F.contents self.old }
        ensures end { OnOk result (self.new.end ≡ self.new.start → IsAtEnd (left_in F.contents self.new)) }

        ensures failed { OnErr result (Rose (faults_of F.faults self.old) (faults_of F.faults self.new)) }
        ensures no_fault { OnOk result (faults_of F.faults self.new ≡ faults_of F.faults self.old) }
        ensures faults { faults_of F.faults self.old ≤ faults_of F.faults self.new }
        ensures no_absence { OnOk result (F.absences (files_of self.new) ≡ F.absences (files_of self.old)) }

        ensures cause { OnErr result (Rose (F.faults (files_of self.old)) (F.faults (files_of self.new))
            ⊎ Rose (F.absences (files_of self.old)) (F.absences (files_of self.new))) }
        ensures present { (file : List ℕ) → Tells (F.contents (files_of self.old)) (name_of self.old) (Some file)
            → OnErr result (Rose (F.faults (files_of self.old)) (F.faults (files_of self.new))) }
        ensures step { KeepsFiles F.contents F.faults F.absences F.refused self.old self.new }
        ensures named { OnErr result (F.refused (files_of self.new) ≡ name_of self.new) }
        ensures not_named { OnOk result (F.refused (files_of self.new) ≡ F.refused (files_of self.old)) }
    {
        let name = self.name.as_str();
        match self.files.read_at(name, self.place, &mut self.ahead)? {
            None => {
                self.missing = self.missing.saturating_add(1);
                Err(Failed)
            }
            Some(n) => {
                self.place += n as u64;
                self.start = 0;
                self.end = n;
                Ok(())
            }
        }
    }

    // Takes what was read ahead, as much as the buffer has room for.
    fn take_ahead(&mut self, buf: &mut [u8]) -> usize
        ensures took { left_in F.contents self.old ≡ prepended (take result buf.new) (left_in F.contents self.new) }
        ensures count { result ≡ min (length buf.old) (self.old.end - self.old.start) }
        ensures files { files_of self.new ≡ files_of self.old }
        ensures missing { missing_of self.new ≡ missing_of self.old }
        ensures name { name_of self.new ≡ name_of self.old }
    {
        let count = copy_front(&self.ahead[self.start..self.end], buf);
        self.start += count;
        count
    }
}

impl<F: Files> Source for FileSource<F> {
    ghost use Rattle.fg_outside.specs.FileSource.{files_of, name_of, left_in, faults_of, KeepsFiles};

    ghost left = { left_in F.contents };

    ghost faults = { faults_of F.faults };

    ghost may = { KeepsFiles F.contents F.faults F.absences F.refused };

    /// Takes what was read ahead, as much as the buffer has room for, and reads ahead where nothing
    /// of that is left. Fails only where the files failed or told that the file isn't there.
    fn read(&mut self, buf: &mut [u8]) -> Result<usize, Failed>
        ensures within { IfOk result (λ n. n ≤ length buf.old) }
        ensures took { IfOk result (λ n. left_in F.contents self.old ≡ prepended (take n buf.new) (left_in F.contents self.new)) }
        ensures end { 0 < length buf.old → IfOk result (λ n. n ≡ 0 → IsAtEnd (left_in F.contents self.old)) }
        ensures kept { OnErr result (left_in F.contents self.new ≡ left_in F.contents self.old) }
        ensures failed { OnErr result (Rose (faults_of F.faults self.old) (faults_of F.faults self.new)) }
        ensures no_fault { OnOk result (faults_of F.faults self.new ≡ faults_of F.faults self.old) }
        ensures faults { faults_of F.faults self.old ≤ faults_of F.faults self.new }
        ensures step { KeepsFiles F.contents F.faults F.absences F.refused self.old self.new }
        ensures no_absence { OnOk result (F.absences (files_of self.new) ≡ F.absences (files_of self.old)) }

        ensures cause { OnErr result (Rose (F.faults (files_of self.old)) (F.faults (files_of self.new))
            ⊎ Rose (F.absences (files_of self.old)) (F.absences (files_of self.new))) }
        ensures present { (file : List ℕ) → Tells (F.contents (files_of self.old)) (name_of self.old) (Some file)
            → OnErr result (Rose (F.faults (files_of self.old)) (F.faults (files_of self.new))) }
        ensures files_faults { F.faults (files_of self.old) ≤ F.faults (files_of self.new) }
        ensures files_absences { F.absences (files_of self.old) ≤ F.absences (files_of self.new) }
        ensures contents { F.contents (files_of self.new) ≡ F.contents (files_of self.old) }
        ensures name { name_of self.new ≡ name_of self.old }
        ensures named { OnErr result (F.refused (files_of self.new) ≡ name_of self.new) }
        ensures not_named { OnOk result (F.refused (files_of self.new) ≡ F.refused (files_of self.old)) }
    {
        if self.start == self.end && !buf.is_empty() {
            self.read_ahead()?;
        }
        Ok(self.take_ahead(buf))
    }
}
