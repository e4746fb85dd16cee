ghost use Rattle.std.specs.Prelude.{◌≡◌, ◌≢◌, ◌≤◌, None};
ghost use Rattle.fg_outside.specs.Counts.{Rose};
ghost use Rattle.command_line.specs.Recorded.{recorded_meaning};
ghost use Rattle.faucet_top.specs.Given.{BreaksOff, Delivers, IsStatus};
ghost use Rattle.recorded_top.specs.RecordedAnswer.{GivesRecorded};

use crate::deliver::deliver_usage;
use crate::serve::serve_and_record;
use command_line::read_recorded_words;
use faucet_top::deliver_out_of_memory;
use fg_outside::{Files, Hub, Sink};
use net_base::Names;
use std::alloc::Global;

/// Does what the words ask for, and gives the exit status, the files, the hub and the sink back.
///
/// `CONFIG --events N --record FILE`, with the other options of `serve`, does what `serve` does, and writes to the
/// sink a recording of what happens to the controller, record by record, each whole and before the controller
/// hears of it. Any other words have no meaning. A refusal is one line on `err`. Statuses: those of `serve`, and 4
/// with the line `FILE: write fault` where the recording broke off.
pub fn faucet_recorded<F: Files, H: Hub, S: Sink, O: Sink, E: Sink>(
    alloc: Global,
    words: &Names,
    files: F,
    hub: H,
    sink: S,
    out: &mut O,
    err: &mut E,
) -> (u8, F, H, S)
    // One reply was given: what happened at the hub, what that was told, which texts the looks at the file had, what was
    // written on the streams, and which recording the sink took. Where the words have no meaning or the configuration is
    // refused, hub and sink are as they were.
    ensures gives { GivesRecorded H.may F.contents F.faults S.wrote (Rose (F.absences files) (F.absences result.1)) (Rose (F.faults files) (F.faults result.1)) (F.refused result.1) (recorded_meaning words.now)
        hub result.2 files result.1 sink result.3
        (λ a. Delivers a result.0 (O.wrote out.old) (O.wrote out.new) (E.wrote err.old) (E.wrote err.new)
        (O.faults out.old) (O.faults out.new) (E.faults err.old) (E.faults err.new))
        (λ a. BreaksOff a result.0 (O.wrote out.old) (O.wrote out.new) (E.wrote err.old) (E.wrote err.new)
        (O.faults out.old) (O.faults out.new) (E.faults err.old) (E.faults err.new)) }

    ensures statuses { IsStatus result.0 }
    ensures hub_fault { result.0 ≡ 6 → Rose (H.faults hub) (H.faults result.2) }
    ensures no_hub_fault { result.0 ≢ 6 → result.0 ≢ 4 → H.faults result.2 ≡ H.faults hub }

    // Files, hub and sink are handed back.
    ensures hub { recorded_meaning words.now ≡ None → result.2 ≡ hub }
    ensures sink { recorded_meaning words.now ≡ None → result.3 ≡ sink }
    ensures hub_faults { H.faults hub ≤ H.faults result.2 }
    ensures faults { F.faults files ≤ F.faults result.1 }
    ensures absences { F.absences files ≤ F.absences result.1 }
    ensures sink_faults { S.faults sink ≤ S.faults result.3 }
    ensures out_faults { O.faults out.old ≤ O.faults out.new }
    ensures err_faults { E.faults err.old ≤ E.faults err.new }
{
    match read_recorded_words(alloc, words) {
        Ok(Some(job)) => {
            let (status, files, hub, sink) = serve_and_record(
                alloc, &job, files, hub, sink, out, err,
            );
            (status.number(), files, hub, sink)
        }
        Ok(None) => (deliver_usage(err).number(), files, hub, sink),
        Err(_) => (deliver_out_of_memory(err).number(), files, hub, sink),
    }
}
