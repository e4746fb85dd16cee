ghost use Rattle.std.specs.Prelude.{◌≡◌, ◌≢◌, ◌-◌, ◌^◌, ◌<◌, ◌≤◌, IfOk};
ghost use Rattle.fg_outside.specs.Counts.{Rose};
ghost use Rattle.faucet_top.specs.Given.{GivesRun, NamesUnread};
ghost use Rattle.faucet_top.specs.Status.{number_of_status};

use crate::deliver::{Status, deliver_out_of_memory, deliver_replayed};
use fg_outside::{Files, Sink};
use hub_drive::replay::replay;
use hub_drive::{Machine, Outlet};
use net_base::{NoMemory, Text, TryCopy};
use std::alloc::Global;

/// Runs a machine, if there was memory for it, on a recording, and says how that ended.
pub fn run_recording<M: Machine + Drop, F: Files, O: Sink, E: Sink>(
    alloc: Global,
    machine: Result<M, NoMemory>,
    outlet: Outlet,
    recording: &Text,
    files: F,
    out: &mut O,
    err: &mut E,
) -> (Status, F)
    ensures gives { (w : M.runs.State) → IfOk machine (λ made. M.runs.stands made w)
        → GivesRun M.runs.works outlet (F.contents files) (Rose (F.absences files) (F.absences result.1)) (Rose (F.faults files) (F.faults result.1)) recording.now w
        (number_of_status result.0) (O.wrote out.old) (O.wrote out.new) (E.wrote err.old) (E.wrote err.new)
        (O.faults out.old) (O.faults out.new) (E.faults err.old) (E.faults err.new) }
    ensures named { (w : M.runs.State) → IfOk machine (λ made. M.runs.stands made w)
        → result.0 ≡ Status.Unread → F.faults files < 2 ^ 64 - 1 → NamesUnread (F.refused result.1) (E.wrote err.old) (E.wrote err.new) }
    ensures no_read_fault { result.0 ≢ Status.Unread → result.0 ≢ Status.WriteFault → F.faults files < 2 ^ 64 - 1 → F.faults result.1 ≡ F.faults files }

    ensures contents { F.contents result.1 ≡ F.contents files }
    ensures faults { F.faults files ≤ F.faults result.1 }
    ensures absences { F.absences files ≤ F.absences result.1 }
    ensures out_faults { O.faults out.old ≤ O.faults out.new }
    ensures err_faults { E.faults err.old ≤ E.faults err.new }
{
    let Ok(name) = recording.copy(alloc) else {
        return (deliver_out_of_memory(err), files);
    };
    let (replayed, files) = replay(alloc, machine, outlet, files, name, out, err);
    (deliver_replayed(err, recording.as_str(), replayed), files)
}
