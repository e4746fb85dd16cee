ghost use Rattle.std.specs.Prelude.{◌≡◌, ◌≢◌, ◌≤◌, ◌⊎◌, ℕ, List};
ghost use Rattle.fg_outside.specs.Counts.{Rose};
ghost use Rattle.watch_hub.specs.Watch.{IsBegun, files_in, hub_in};
ghost use Rattle.ctl_recorded.specs.RecordedRun.{ServesRecorded, StandsTo, ended_by};

use conf_types::{Conf, Tally};
use ctl_drive::Steered;
use fg_outside::{Files, Hub, Sink};
use hub_drive::drive::drive;
use hub_drive::{Drove, Outlet};
use recording_hub::RecordingHub;
use recording_hub::laws::{
    a_way_is_recorded, a_whole_recording_counts_the_hubs_faults, the_hub_goes_along,
};
use std::alloc::Global;
use watch_hub::Watch;
use watch_hub::laws::{
    a_watch_is_spent_only_where_it_says_so, a_way_to_want_of_memory_tells_the_watched_story,
    the_counts_of_its_files_stand, what_holds_of_its_calls_holds_of_its_hubs,
};

/// How serving ended of which a recording was written.
#[derive(Clone, Copy, Debug, PartialEq, Eq)]
pub enum RecordedEnd {
    /// As driving ended. The recording is whole, unless a write of lines failed or memory ran out.
    By(Drove),
    /// The recording broke off: a record had no place behind the others, or wasn't written whole.
    BrokeOff,
}

/// What is served, and what takes the recording of it.
#[derive(Debug, Drop)]
pub struct RecordedService<H, F, S> {
    /// The configuration that the controller begins with.
    pub conf: Conf,
    /// The hub, and the file that is followed.
    pub watch: Watch<H, F>,
    /// What takes the recording.
    pub sink: S,
    /// The most turns that are taken.
    pub most: u64,
}

/// What serving came to, where the recording is broken or not.
fn ended_by(drove: Drove, is_broken: bool) -> RecordedEnd
    ensures { result ≡ ended_by drove is_broken }
{
    if !is_broken {
        return RecordedEnd::By(drove);
    }
    match drove {
        Drove::Done | Drove::HubFault | Drove::Spent => RecordedEnd::BrokeOff,
        Drove::WriteFault => RecordedEnd::By(Drove::WriteFault),
        Drove::Memory => RecordedEnd::By(Drove::Memory),
    }
}

/// Does what `ctl_serve::serve` does, and writes to a sink a recording of what happens to the controller: a record
/// of each happening, whole and before it is given, reloads among them. Where that breaks off, serving ends. Gives
/// the hub, the files and the sink back.
pub fn serve_recorded<H: Hub, F: Files, S: Sink, O: Sink, E: Sink, T: Tally + Drop>(
    alloc: Global,
    service: RecordedService<H, F, S>,
    out: &mut O,
    err: &mut E,
    units: T,
) -> (RecordedEnd, H, F, S)
    // The story is that of the hub with the reloads of the looks between, the hub is told what the controller says of it, and
    // the sink took a recording of it.
    ensures serves { (name text : List ℕ) (every : ℕ) → IsBegun service.watch name text every
        → ServesRecorded H.may F.contents F.faults name text every service.most service.conf (hub_in service.watch) result.1 (files_in service.watch) result.2 (S.wrote service.sink) (S.wrote result.3)
        (StandsTo (E.wrote err.old) (E.wrote err.new) result.0) result.0 }
    ensures out { O.wrote out.new ≡ O.wrote out.old }

    ensures hub_fault { result.0 ≡ RecordedEnd.By Drove.HubFault → Rose (H.faults (hub_in service.watch)) (H.faults result.1) }
    ensures no_hub_fault { result.0 ≢ RecordedEnd.By Drove.HubFault → H.faults result.1 ≡ H.faults (hub_in service.watch) }
    ensures write_fault { result.0 ≡ RecordedEnd.By Drove.WriteFault → Rose (O.faults out.old) (O.faults out.new) ⊎ Rose (E.faults err.old) (E.faults err.new) }
    ensures no_write_fault { result.0 ≢ RecordedEnd.By Drove.WriteFault → (O.faults out.new ≡ O.faults out.old) × (E.faults err.new ≡ E.faults err.old) }

    // Hub, files and sink are handed back.
    ensures hub_faults { H.faults (hub_in service.watch) ≤ H.faults result.1 }
    ensures files_faults { F.faults (files_in service.watch) ≤ F.faults result.2 }
    ensures absences { F.absences (files_in service.watch) ≤ F.absences result.2 }
    ensures sink_faults { S.faults service.sink ≤ S.faults result.3 }
    ensures out_faults { O.faults out.old ≤ O.faults out.new }
    ensures err_faults { E.faults err.old ≤ E.faults err.new }
{
    a_watch_is_spent_only_where_it_says_so::<H, F>();
    a_way_to_want_of_memory_tells_the_watched_story::<H, F>();
    the_counts_of_its_files_stand::<H, F>();
    what_holds_of_its_calls_holds_of_its_hubs::<H, F>();
    a_way_is_recorded::<Watch<H, F>, S>();
    a_whole_recording_counts_the_hubs_faults::<Watch<H, F>, S>();
    the_hub_goes_along::<Watch<H, F>, S>();
    let RecordedService {
        conf,
        watch,
        sink,
        most,
    } = service;
    let mut recorded = RecordingHub::new(alloc, watch, sink);
    let machine = Steered::new(alloc, conf, units);
    let drove = drive(alloc, machine, &mut recorded, Outlet::Hub, most, out, err);
    let end = ended_by(drove, recorded.has_failed());
    let (watch_after, sink_after) = recorded.into_parts();
    let (hub_after, files_after) = watch_after.into_parts();
    (end, hub_after, files_after, sink_after)
}
