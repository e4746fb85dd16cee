//! A run over a recording in silence, for what is known behind it.

ghost use Rattle.std.specs.Prelude.{◌≡◌, ◌≢◌, ◌≤◌, None};
ghost use Rattle.std.specs.List.{flat_map};
ghost use Rattle.fg_outside.specs.Contents.{Tells as FilesTell};
ghost use Rattle.fg_outside.specs.Counts.{Rose};
ghost use Rattle.hub_drive.specs.Driven.{Goes, Tells};
ghost use Rattle.hub_drive.specs.Driving.{deeds_by};
ghost use Rattle.hub_drive.specs.Replay.{GivesBack, ReadsSource};
ghost use Rattle.hub_drive.specs.Still.{Ended, RunsStill, Took};

use crate::drive::Drove;
use crate::machine::Machine;
use crate::replay::{Replayed, is_there, replayed_by};
use crate::sayings::Outlet;
use ctl_life::Saying;
use fg_outside::{FileSource, Files, Hub, Source, Turn};
use net_base::Text;
use recording::{RecordRefused, ScriptHub};
use std::alloc::Global;

/// Closes at the hub the connection that a saying closes, if it closes one.
fn close_one<H: Hub>(hub: &mut H, saying: &Saying)
    ensures told { Tells H.may hub.old (deeds_by Outlet.Nowhere saying.now) hub.new }
    ensures faults { H.faults hub.new ≡ H.faults hub.old }
{
    match saying {
        Saying::Send { .. } => {}
        Saying::Close { conn, .. } => hub.close(*conn),
        Saying::Line(_) => {}
    }
}

/// Closes at the hub all that is closed, in order.
fn close_all<H: Hub>(hub: &mut H, sayings: &[Saying])
    ensures told { Tells H.may hub.old (flat_map (deeds_by Outlet.Nowhere) sayings.now) hub.new }
    ensures faults { H.faults hub.new ≡ H.faults hub.old }
{
    for saying in sayings {
        close_one(hub, saying);
    }
}

/// Runs a machine on the turns of a hub, `most` of them at most. What it closes is closed there, and all else that
/// it says is dropped.
fn take_turns<M: Machine, H: Hub>(alloc: Global, machine: &mut M, hub: &mut H, most: u64) -> Drove
    ensures took { (w : M.runs.State) → M.runs.stands machine.old w → Took M.runs.works H.may most w (M.runs.stands machine.new) hub.old hub.new result }
    ensures goes { Goes H.may hub.old hub.new }

    ensures no_write_fault { result ≢ Drove.WriteFault }
    ensures hub_fault { result ≡ Drove.HubFault → Rose (H.faults hub.old) (H.faults hub.new) }
    ensures no_hub_fault { result ≢ Drove.HubFault → H.faults hub.new ≡ H.faults hub.old }
    ensures hub_faults { H.faults hub.old ≤ H.faults hub.new }
{
    for _ in 0..most {
        match hub.turn() {
            Turn::Happened(what) => {
                let Ok(taken) = machine.turn(alloc, &what) else {
                    return Drove::Memory;
                };
                close_all(hub, taken.sayings.as_slice());
            }
            Turn::Done => return Drove::Done,
            Turn::Failed => return Drove::HubFault,
            Turn::Memory => return Drove::Memory,
        }
    }
    Drove::Spent
}

/// Runs a machine on the recording that a source gives, and gives the source back.
fn run_source<M: Machine, S: Source>(
    alloc: Global,
    machine: &mut M,
    source: S,
) -> (Drove, Option<RecordRefused>, S)
    ensures runs { (w : M.runs.State) → M.runs.stands machine.old w → RunsStill M.runs.works S.left S.may w (M.runs.stands machine.new) source result.0 result.1 }
    ensures reads { ReadsSource S.left S.may source result.2 }

    ensures no_write_fault { result.0 ≢ Drove.WriteFault }
    ensures fault { result.0 ≡ Drove.HubFault → Rose (S.faults source) (S.faults result.2) }
    ensures no_fault { result.0 ≢ Drove.HubFault → S.faults result.2 ≡ S.faults source }
{
    let mut hub = ScriptHub::new(alloc, source);
    let drove = take_turns(alloc, machine, &mut hub, u64::MAX);
    let refused = hub.refused();
    (drove, refused, hub.into_source())
}

/// Runs a machine on the recording of this name, one record at a time, and gives the files back. What it closes is
/// closed, and all else that it says is dropped. Where the recording was read to its end, or to its first refused
/// record, the machine is what it is behind that. No write is made, so none fails.
pub fn run_still<M: Machine, F: Files>(
    alloc: Global,
    machine: &mut M,
    files: F,
    name: Text,
) -> (Replayed, F)
    ensures ended { (w : M.runs.State) → M.runs.stands machine.old w
        → Ended M.runs.works (F.contents files) name (Rose (F.absences files) (F.absences result.1)) (Rose (F.faults files) (F.faults result.1)) w (M.runs.stands machine.new) result.0 }

    // A recording that isn't there is told as such.
    ensures missing { FilesTell (F.contents files) name None → result.0 ≡ Replayed.Unread }
    ensures no_write_fault { result.0 ≢ Replayed.WriteFault }
    ensures back { GivesBack F.contents F.faults F.absences F.refused name files result.1 (result.0 ≡ Replayed.Unread) }
{
    let mut files = files;
    if !is_there(&mut files, name.as_str()).unwrap_or(false) {
        return (Replayed::Unread, files);
    }
    let source = FileSource::new(files, name);
    let (drove, refused, source) = run_source(alloc, machine, source);
    (replayed_by(drove, refused), source.into_files())
}
