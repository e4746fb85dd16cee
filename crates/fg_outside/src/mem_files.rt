ghost use Rattle.std.specs.Prelude.{◌≡◌, ◌↔◌, ℕ, ◌+◌, ◌-◌, ◌^◌, ◌<◌, ◌≤◌, List, [], length, drop, min, Option, Some, None, IfOk, IfSome, IfNone, OnSome, OnOk, OnErr, IsErr, IsTrue};
ghost use Rattle.std.specs.Option.{option_copied, option_map};
ghost use Rattle.fg_outside.specs.Counts.{counted, Rose};
ghost use Rattle.fg_outside.specs.Contents.{refreshed, Tells, ReadsAt};
ghost use Rattle.fg_outside.specs.FaultPlan.{fresh};
ghost use Rattle.fg_outside.specs.Folders.{contents_of};
ghost use Rattle.fg_outside.specs.FilesInMemory.{held_in, absences_of, refused_of, plan_of};

use crate::fault::Failed;
use crate::fault_plan::{CallNos, FailListed, FailNever, FaultPlan};
use crate::files::Files;
use crate::held::{Folders, HeldFile};
use crate::refused_name::RefusedName;

/// Files in memory, which tell what they hold.
#[derive(Debug, Drop)]
pub struct FilesInMemory<P> {
    folders: Folders,
    at: usize,
    absences: u64,
    refused: RefusedName,
    plan: P,
}

/// Files in memory, of which the listed calls of `read_at` fail. A failed call reads nothing.
pub type MemFiles = FilesInMemory<FailListed>;

/// Files in memory that never fail.
pub type SureFiles = FilesInMemory<FailNever>;

impl FilesInMemory<FailListed> {
    /// Files that hold the first folder, and after each refresh the next. The last one stays;
    /// with none no file is there.
    pub fn new(folders: Folders, fail: CallNos) -> MemFiles
        ensures contents { ⟦<MemFiles as Files>⟧.contents result ≡ Some (contents_of folders) }
        ensures plan { plan_of result ≡ fresh fail }
        ensures faults { ⟦<MemFiles as Files>⟧.faults result ≡ 0 }
        ensures absences { ⟦<MemFiles as Files>⟧.absences result ≡ 0 }
    {
        FilesInMemory {
            folders,
            at: 0,
            absences: 0,
            refused: RefusedName::of(&""),
            plan: FailListed::new(fail),
        }
    }
}

impl FilesInMemory<FailNever> {
    /// The same, but no call fails.
    pub fn new(folders: Folders) -> SureFiles
        ensures contents { ⟦<SureFiles as Files>⟧.contents result ≡ Some (contents_of folders) }
        ensures faults { ⟦<SureFiles as Files>⟧.faults result ≡ 0 }
        ensures absences { ⟦<SureFiles as Files>⟧.absences result ≡ 0 }
    {
        FilesInMemory {
            folders,
            at: 0,
            absences: 0,
            refused: RefusedName::of(&""),
            plan: FailNever,
        }
    }
}

impl<P: FaultPlan> Files for FilesInMemory<P> {
    ghost contents = { held_in };

    ghost faults = { λ files. P.faults (plan_of files) };

    ghost absences = { absences_of };

    ghost refused = { refused_of };

    /// Fails exactly where the plan says so. Reads as much as the buffer has room for, which stays as
    /// it was behind what was read, and whole where nothing was.
    fn read_at(&mut self, name: &str, from: u64, buf: &mut [u8]) -> Result<Option<usize>, Failed>
        ensures contents { held_in self.new ≡ held_in self.old }
        ensures faults { P.faults (plan_of self.old) ≤ P.faults (plan_of self.new) }
        ensures absences { absences_of self.old ≤ absences_of self.new }

        ensures present { (file : List ℕ) → Tells (held_in self.old) name.now (Some file)
            → IfOk result (λ got. (n : ℕ) × (got ≡ Some n) × ReadsAt file from buf.new n) }
        ensures missing { Tells (held_in self.old) name.now None → IfOk result (λ got. got ≡ None) }
        ensures count { IfOk result (λ got. IfSome got (λ n. n ≤ length buf.old)) }
        ensures end { IfOk result (λ got. IfSome got (λ n. from + n ≤ 2 ^ 64 - 1)) }

        ensures absent { IfOk result (λ got. IfNone got (Rose (absences_of self.old) (absences_of self.new))) }
        ensures found { IfOk result (λ got. OnSome got (absences_of self.new ≡ absences_of self.old)) }
        ensures untouched { OnErr result (absences_of self.new ≡ absences_of self.old) }
        ensures failed { OnErr result (Rose (P.faults (plan_of self.old)) (P.faults (plan_of self.new))) }
        ensures no_fault { OnOk result (P.faults (plan_of self.new) ≡ P.faults (plan_of self.old)) }

        ensures named { OnErr result (refused_of self.new ≡ name.now) }
        ensures not_there { IfOk result (λ got. IfNone got (refused_of self.new ≡ name.now)) }
        ensures not_refused { IfOk result (λ got. OnSome got (refused_of self.new ≡ refused_of self.old)) }

        ensures one_absence { IfOk result (λ got. IfNone got (absences_of self.new ≡ counted (absences_of self.old))) }
        ensures one_fault { OnErr result (P.faults (plan_of self.new) ≡ counted (P.faults (plan_of self.old))) }

        ensures as_many { (file : List ℕ) → Tells (held_in self.old) name.now (Some file)
            → IfOk result (λ got. got ≡ Some (min (length buf.old) (length file - from))) }
        ensures behind { IfOk result (λ got. IfSome got (λ n. drop n buf.new ≡ drop n buf.old)) }
        ensures no_file { IfOk result (λ got. IfNone got (buf.new ≡ buf.old)) }
        ensures unread { OnErr result (buf.new ≡ buf.old) }

        ensures planned { IsErr result ↔ IsTrue (P.fails (plan_of self.old)) }
        ensures plan { plan_of self.new ≡ P.after (plan_of self.old) }
    {
        if self.plan.next_call() {
            self.refused = RefusedName::of(&name);
            return Err(Failed);
        }
        match file_at(&self.folders, self.at, name) {
            None => {
                self.absences = self.absences.saturating_add(1);
                self.refused = RefusedName::of(&name);
                Ok(None)
            }
            Some(file) => Ok(Some(read_piece(file.bytes.as_slice(), from, buf))),
        }
    }

    fn refresh(&mut self)
        ensures contents { held_in self.new ≡ refreshed (held_in self.old) }
        ensures faults { P.faults (plan_of self.new) ≡ P.faults (plan_of self.old) }
        ensures absences { absences_of self.new ≡ absences_of self.old }
        ensures refused { refused_of self.new ≡ refused_of self.old }
        ensures plan { plan_of self.new ≡ plan_of self.old }
    {
        if self.at < last_place(&self.folders) {
            self.at += 1;
        }
    }
}

// The place of the last folder; 0 where there is none.
fn last_place(folders: &Folders) -> usize
    ensures { result ≡ length folders.now - 1 }
{
    folders.len().saturating_sub(1)
}

// The file of this name after so many refreshes.
fn file_at<'a>(folders: &'a Folders, count: usize, name: &str) -> Option<&'a HeldFile>
    ensures { option_map (λ file. file.bytes) (option_copied result) ≡ contents_of folders.now count name.now }
{
    let place = count.min(last_place(folders));
    folders.get(place)?.find(name)
}

// Copies bytes of a file from a place to the front of the buffer, and says how many.
fn read_piece(file: &[u8], from: u64, buf: &mut [u8]) -> usize
    ensures reads { ReadsAt file.now from buf.new result }
    ensures count { result ≤ length buf.old }
    ensures end { from + result ≤ 2 ^ 64 - 1 }
    ensures as_many { result ≡ min (length buf.old) (length file.now - from) }
    ensures behind { drop result buf.new ≡ drop result buf.old }
{
    let start = file.len().min(from as usize);
    let count = buf.len().min(file.len() - start);
    buf[..count].copy_from_slice(&file[start..start + count]);
    count
}
