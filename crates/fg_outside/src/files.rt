ghost use Rattle.std.specs.Prelude.{◌≡◌, ℕ, ◌+◌, ◌-◌, ◌^◌, ◌<◌, ◌≤◌, ◌⊎◌, List, length, take, Option, Some, None, true, false, OnOk, IfOk, IfSome, IfNone, OnErr, IsErrOf, OnSome};
ghost use Rattle.fg_outside.specs.Counts.{Rose};
ghost use Rattle.fg_outside.specs.declared.files.ReadRefused.TheVariants.{Failed, Memory};
ghost use Rattle.fg_outside.specs.Contents.{refreshed, Tells, ReadsAt};

use crate::fault::Failed;
use net_base::{Bytes, NoMemory};
use std::alloc::Global;

/// Files by name, read in pieces. A file has at most 2^64 - 1 bytes.
pub trait Files {
    /// What the files hold after so many more refreshes, by name, where they tell it.
    ghost contents: { Self → Option (ℕ → List ℕ → Option (List ℕ)) };

    /// How often a call failed.
    ghost faults: { Self → ℕ };

    /// How often a file wasn't there.
    ghost absences: { Self → ℕ };

    /// The name at which a read last failed or found no file.
    ghost refused: { Self → List ℕ };

    /// Reads bytes of the named file, from a place counted from 0, into the front of `buf`, and
    /// says how many; 0 for a buffer that isn't empty means that the file ends there. `None` where
    /// no file has the name.
    fn read_at(&mut self, name: &str, from: u64, buf: &mut [u8]) -> Result<Option<usize>, Failed>
        ensures contents { contents self.new ≡ contents self.old }
        ensures faults { faults self.old ≤ faults self.new }
        ensures absences { absences self.old ≤ absences self.new }

        ensures present { (file : List ℕ) → Tells (contents self.old) name.now (Some file)
            → IfOk result (λ got. (n : ℕ) × (got ≡ Some n) × ReadsAt file from buf.new n) }
        ensures missing { Tells (contents self.old) name.now None → IfOk result (λ got. got ≡ None) }
        ensures count { IfOk result (λ got. IfSome got (λ n. n ≤ length buf.old)) }
        ensures end { IfOk result (λ got. IfSome got (λ n. from + n ≤ 2 ^ 64 - 1)) }

        ensures absent { IfOk result (λ got. IfNone got (Rose (absences self.old) (absences self.new))) }
        ensures found { IfOk result (λ got. OnSome got (absences self.new ≡ absences self.old)) }
        ensures untouched { OnErr result (absences self.new ≡ absences self.old) }
        ensures failed { OnErr result (Rose (faults self.old) (faults self.new)) }
        ensures no_fault { OnOk result (faults self.new ≡ faults self.old) }

        ensures named { OnErr result (refused self.new ≡ name.now) }
        ensures not_there { IfOk result (λ got. IfNone got (refused self.new ≡ name.now)) }
        ensures not_refused { IfOk result (λ got. OnSome got (refused self.new ≡ refused self.old)) };

    /// Goes on to what the files hold next. It alone changes what they hold.
    fn refresh(&mut self)
        ensures contents { contents self.new ≡ refreshed (contents self.old) }
        ensures faults { faults self.new ≡ faults self.old }
        ensures absences { absences self.new ≡ absences self.old }
        ensures refused { refused self.new ≡ refused self.old };
}

/// Why a file wasn't read whole.
#[derive(Clone, Copy, Debug, PartialEq, Eq)]
pub enum ReadRefused {
    /// No file has the name.
    Absent,
    /// A read failed.
    Failed,
    /// Memory ran out.
    Memory,
}

impl From<Failed> for ReadRefused {
    ghost from_gives = { λ _ refused. refused ≡ Failed };

    fn from(_: Failed) -> ReadRefused {
        ReadRefused::Failed
    }
}

impl From<NoMemory> for ReadRefused {
    ghost from_gives = { λ _ refused. refused ≡ Memory };

    fn from(_: NoMemory) -> ReadRefused {
        ReadRefused::Memory
    }
}

// How many bytes are read at once.
const PIECE_LEN: usize = 4096;

/// The first `most` bytes of the named file, or all of it where it is shorter. `Absent` exactly
/// where no file has the name.
pub fn read_whole<F: Files>(
    alloc: Global,
    files: &mut F,
    name: &str,
    most: usize,
) -> Result<Bytes, ReadRefused>
    ensures present { (file : List ℕ) → Tells (F.contents files.old) name.now (Some file)
        → IfOk result (λ bytes. bytes ≡ take most file) }
    ensures most { IfOk result (λ bytes. length bytes ≤ most) }

    ensures missing { Tells (F.contents files.old) name.now None
        → IsErrOf result ReadRefused.Absent ⊎ IsErrOf result ReadRefused.Failed }
    ensures absent_only { (told : Option (List ℕ)) → Tells (F.contents files.old) name.now told
        → IsErrOf result ReadRefused.Absent → told ≡ None }
    ensures absent { IsErrOf result ReadRefused.Absent → Rose (F.absences files.old) (F.absences files.new) }
    ensures failed { IsErrOf result ReadRefused.Failed → Rose (F.faults files.old) (F.faults files.new) }
    ensures no_absence { (IsErrOf result ReadRefused.Absent → ⊥) → F.absences files.new ≡ F.absences files.old }
    ensures no_fault { (IsErrOf result ReadRefused.Failed → ⊥) → F.faults files.new ≡ F.faults files.old }
    ensures named { IsErrOf result ReadRefused.Failed → F.refused files.new ≡ name.now }
    ensures not_there { IsErrOf result ReadRefused.Absent → F.refused files.new ≡ name.now }
    ensures not_refused { (IsErrOf result ReadRefused.Failed → ⊥) → (IsErrOf result ReadRefused.Absent → ⊥)
        → F.refused files.new ≡ F.refused files.old }

    ensures contents { F.contents files.new ≡ F.contents files.old }
    ensures faults { F.faults files.old ≤ F.faults files.new }
    ensures absences { F.absences files.old ≤ F.absences files.new }
{
    let mut bytes = Bytes::new(alloc);
    loop {
        let from = bytes.len();
        let room = PIECE_LEN.min(most - from);
        let mut buf = [0; PIECE_LEN];
        let piece = &mut buf[..room];
        match files.read_at(name, from as u64, piece)? {
            None => return Err(ReadRefused::Absent),
            Some(0) => return Ok(bytes),
            Some(n) => {
                bytes.append(&piece[..n])?;
                if bytes.len() == most {
                    return Ok(bytes);
                }
            }
        }
    }
}
