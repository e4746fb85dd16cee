//! One look at a configuration file.

ghost use Rattle.std.specs.Prelude.{◌≡◌, ◌≤◌, ◌⊎◌, ℕ, List, Some, None, IfOk, IfSome, IfNone, OnSome};
ghost use Rattle.fg_outside.specs.Contents.{Tells, refreshed};
ghost use Rattle.fg_outside.specs.Counts.{Rose};
ghost use Rattle.watch_hub.specs.Look.{Finds, front_of};
ghost use Rattle.watch_hub.specs.Causes.{cause_of};

use conf_gather::{LoadRefused, gather};
use fg_outside::{Files, ReadRefused, read_whole};
use net_base::{Bytes, NoMemory};
use std::alloc::{AllocError, Global};
use yaml_subset::print_yaml;

/// How many bytes are told of a file that is refused: one more than a text may have, so that a longer one is
/// seen to be too long.
const FRONT_LEN: usize = 1_048_577;

/// Why there is no tree.
#[derive(Clone, Copy, Debug)]
enum Unread {
    /// A read failed, or a needed file isn't there.
    Missing,
    /// What was read is refused.
    Refused,
    /// Memory ran out.
    Memory,
}

fn cause_of(refused: LoadRefused) -> Unread
    ensures { result ≡ cause_of refused }
{
    match refused {
        LoadRefused::Read(_) => Unread::Missing,
        LoadRefused::Absent(_) => Unread::Missing,
        LoadRefused::Memory => Unread::Memory,
        LoadRefused::Yaml(_, _) => Unread::Refused,
        LoadRefused::Conf(_) => Unread::Refused,
        LoadRefused::IncludeTwice(_) => Unread::Refused,
        LoadRefused::IncludeDepth(_) => Unread::Refused,
    }
}

/// The front of the main file; `None` where a read failed or it isn't there.
fn read_front<F: Files>(alloc: Global, files: &mut F, name: &str) -> Result<Option<Bytes>, NoMemory>
    ensures front { (file : List ℕ) → Tells (F.contents files.old) name.now (Some file)
        → IfOk result (λ text. IfSome text (λ front. front ≡ front_of file)) }
    ensures missing { Tells (F.contents files.old) name.now None → IfOk result (λ text. text ≡ None) }
    ensures unread { (file : List ℕ) → Tells (F.contents files.old) name.now (Some file)
        → IfOk result (λ text. IfNone text (Rose (F.faults files.old) (F.faults files.new))) }

    ensures none { IfOk result (λ text. IfNone text
        (Rose (F.faults files.old) (F.faults files.new) ⊎ Rose (F.absences files.old) (F.absences files.new))) }
    ensures no_fault { IfOk result (λ text. OnSome text (F.faults files.new ≡ F.faults files.old)) }
    ensures contents { F.contents files.new ≡ F.contents files.old }
    ensures faults { F.faults files.old ≤ F.faults files.new }
    ensures absences { F.absences files.old ≤ F.absences files.new }
{
    match read_whole(alloc, files, name, FRONT_LEN) {
        Ok(front) => Ok(Some(front)),
        Err(ReadRefused::Absent) => Ok(None),
        Err(ReadRefused::Failed) => Ok(None),
        Err(ReadRefused::Memory) => Err(AllocError),
    }
}

/// The text that a file has now, gathered with its includes: the canonical text of the tree, or where what was
/// read is refused, the front of the main file. `None` where a read failed or a needed file isn't there.
fn read_text<F: Files>(alloc: Global, files: &mut F, name: &str) -> Result<Option<Bytes>, NoMemory>
    ensures finds { IfOk result (λ text. Finds (F.contents files.new) name.now text
        (Rose (F.faults files.old) (F.faults files.new)) (Rose (F.absences files.old) (F.absences files.new))) }
    ensures no_fault { IfOk result (λ text. OnSome text (F.faults files.new ≡ F.faults files.old)) }
    ensures contents { F.contents files.new ≡ F.contents files.old }
    ensures faults { F.faults files.old ≤ F.faults files.new }
    ensures absences { F.absences files.old ≤ F.absences files.new }
{
    match gather(alloc, files, name) {
        Ok(tree) => Ok(Some(print_yaml(alloc, &tree)?)),
        Err(refused) => match cause_of(refused) {
            Unread::Missing => Ok(None),
            Unread::Refused => read_front(alloc, files, name),
            Unread::Memory => Err(AllocError),
        },
    }
}

/// The text that a look finds: the files are refreshed once, and the file of this name is read anew with all
/// that it includes.
pub fn look_at<F: Files>(
    alloc: Global,
    files: &mut F,
    name: &str,
) -> Result<Option<Bytes>, NoMemory>
    ensures finds { IfOk result (λ text. Finds (F.contents files.new) name.now text
        (Rose (F.faults files.old) (F.faults files.new)) (Rose (F.absences files.old) (F.absences files.new))) }
    ensures no_fault { IfOk result (λ text. OnSome text (F.faults files.new ≡ F.faults files.old)) }
    ensures refreshed { F.contents files.new ≡ refreshed (F.contents files.old) }
    ensures faults { F.faults files.old ≤ F.faults files.new }
    ensures absences { F.absences files.old ≤ F.absences files.new }
{
    files.refresh();
    read_text(alloc, files, name)
}
