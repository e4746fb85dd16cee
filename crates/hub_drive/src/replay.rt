ghost use Rattle.std.specs.Prelude.{◌≡◌, ◌≢◌, ◌≤◌, ◌<◌, ◌-◌, ◌^◌, ◌⊎◌, ℕ, List, Some, None, true, false, IfOk, OnOk, OnErr};
ghost use Rattle.fg_outside.specs.Contents.{Tells};
ghost use Rattle.fg_outside.specs.Counts.{Rose};
ghost use Rattle.hub_drive.specs.Replay.{ReadsSource, Replays, RunsSource, replayed_by};

use crate::drive::{Drove, drive};
use crate::machine::Machine;
use crate::sayings::Outlet;
use fg_outside::{Failed, FileSource, Files, Sink, Source};
use net_base::{NoMemory, Text};
use recording::{RecordRefused, ScriptHub};
use std::alloc::Global;

/// How a replay ended.
#[derive(Clone, Copy, Debug, PartialEq, Eq)]
pub enum Replayed {
    /// The recording was read to its end, or to its first refused record.
    Read(Option<RecordRefused>),
    /// The recording isn't there, or a read failed.
    Unread,
    /// As many turns were taken as there may be, 2^64 - 1.
    Spent,
    /// A write failed.
    WriteFault,
    /// Memory ran out.
    Memory,
}

pub(crate) fn replayed_by(drove: Drove, refused: Option<RecordRefused>) -> Replayed
    ensures { result ≡ replayed_by drove refused }
{
    match drove {
        Drove::Done => Replayed::Read(refused),
        Drove::HubFault => Replayed::Unread,
        Drove::Spent => Replayed::Spent,
        Drove::WriteFault => Replayed::WriteFault,
        Drove::Memory => Replayed::Memory,
    }
}

/// Whether there is a file of this name. The buffer has no room, so that nothing of the file is taken, which may
/// be a pipe.
pub(crate) fn is_there<F: Files>(files: &mut F, name: &str) -> Result<bool, Failed>
    ensures missing { Tells (F.contents files.old) name.now None → IfOk result (λ there. there ≡ false) }
    ensures there { (bytes : List ℕ) → Tells (F.contents files.old) name.now (Some bytes) → IfOk result (λ there. there ≡ true) }
    ensures absent { IfOk result (λ there. there ≡ false → Rose (F.absences files.old) (F.absences files.new)) }
    ensures failed { OnErr result (Rose (F.faults files.old) (F.faults files.new)) }
    ensures no_fault { OnOk result (F.faults files.new ≡ F.faults files.old) }
    ensures absent_name { IfOk result (λ there. there ≡ false → F.refused files.new ≡ name.now) }
    ensures failed_name { OnErr result (F.refused files.new ≡ name.now) }
    ensures contents { F.contents files.new ≡ F.contents files.old }
    ensures faults { F.faults files.old ≤ F.faults files.new }
    ensures absences { F.absences files.old ≤ F.absences files.new }
{
    Ok(files.read_at(name, 0, &mut [])?.is_some())
}

/// Runs a machine, if there was memory for it, on the recording that a source gives, and gives the source back.
fn run_source<M: Machine + Drop, S: Source, O: Sink, E: Sink>(
    alloc: Global,
    machine: Result<M, NoMemory>,
    outlet: Outlet,
    source: S,
    out: &mut O,
    err: &mut E,
) -> (Drove, Option<RecordRefused>, S)
    ensures runs { (w : M.runs.State) → IfOk machine (λ made. M.runs.stands made w) → RunsSource M.runs.works outlet S.left S.may w source
        (O.wrote out.old) (O.wrote out.new) (E.wrote err.old) (E.wrote err.new) result.0 result.1 }
    ensures reads { ReadsSource S.left S.may source result.2 }

    ensures fault { result.0 ≡ Drove.HubFault → Rose (S.faults source) (S.faults result.2) }
    ensures no_fault { result.0 ≢ Drove.HubFault → S.faults result.2 ≡ S.faults source }
    ensures write_fault { result.0 ≡ Drove.WriteFault → Rose (O.faults out.old) (O.faults out.new) ⊎ Rose (E.faults err.old) (E.faults err.new) }
    ensures no_write_fault { result.0 ≢ Drove.WriteFault → (O.faults out.new ≡ O.faults out.old) × (E.faults err.new ≡ E.faults err.old) }
    ensures out_faults { O.faults out.old ≤ O.faults out.new }
    ensures err_faults { E.faults err.old ≤ E.faults err.new }
{
    let mut hub = ScriptHub::new(alloc, source);
    let drove = drive(alloc, machine, &mut hub, outlet, u64::MAX, out, err);
    let refused = hub.refused();
    (drove, refused, hub.into_source())
}

/// Runs a machine, if there was memory for it, on the recording of this name, one record at a time, and gives the
/// files back. By the outlet stand on `out` its records or what it prints; on `err` its lines.
pub fn replay<M: Machine + Drop, F: Files, O: Sink, E: Sink>(
    alloc: Global,
    machine: Result<M, NoMemory>,
    outlet: Outlet,
    files: F,
    name: Text,
    out: &mut O,
    err: &mut E,
) -> (Replayed, F)
    // The story is that of the recording, and what is written is what the machine says and prints of it.
    ensures replayed { (w : M.runs.State) → IfOk machine (λ made. M.runs.stands made w)
        → Replays M.runs.works outlet (F.contents files) name (Rose (F.absences files) (F.absences result.1)) (Rose (F.faults files) (F.faults result.1)) w
        (O.wrote out.old) (O.wrote out.new) (E.wrote err.old) (E.wrote err.new) result.0 }

    // A recording that isn't there is told as such, and one that is there only where a read failed.
    ensures missing { Tells (F.contents files) name None → result.0 ≡ Replayed.Unread }
    ensures there { (bytes : List ℕ) → Tells (F.contents files) name (Some bytes) → result.0 ≡ Replayed.Unread → Rose (F.faults files) (F.faults result.1) }

    // The file that was refused last is then the recording, unless the count of faults stood at its last value.
    ensures named { result.0 ≡ Replayed.Unread → F.faults files < 2 ^ 64 - 1 → F.refused result.1 ≡ name }

    // No read that failed is passed over, or tried again in silence.
    ensures no_fault { result.0 ≢ Replayed.Unread → F.faults files < 2 ^ 64 - 1 → F.faults result.1 ≡ F.faults files }

    ensures write_fault { result.0 ≡ Replayed.WriteFault → Rose (O.faults out.old) (O.faults out.new) ⊎ Rose (E.faults err.old) (E.faults err.new) }
    ensures no_write_fault { result.0 ≢ Replayed.WriteFault → (O.faults out.new ≡ O.faults out.old) × (E.faults err.new ≡ E.faults err.old) }

    // The files are handed back.
    ensures contents { F.contents result.1 ≡ F.contents files }
    ensures faults { F.faults files ≤ F.faults result.1 }
    ensures absences { F.absences files ≤ F.absences result.1 }
    ensures out_faults { O.faults out.old ≤ O.faults out.new }
    ensures err_faults { E.faults err.old ≤ E.faults err.new }
{
    let mut files = files;
    if !is_there(&mut files, name.as_str()).unwrap_or(false) {
        return (Replayed::Unread, files);
    }
    let source = FileSource::new(files, name);
    let (drove, refused, source) = run_source(alloc, machine, outlet, source, out, err);
    (replayed_by(drove, refused), source.into_files())
}
