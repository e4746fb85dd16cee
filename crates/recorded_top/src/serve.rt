ghost use Rattle.std.specs.Prelude.{◌≡◌, ◌≢◌, ◌≤◌};
ghost use Rattle.fg_outside.specs.Counts.{Rose};
ghost use Rattle.faucet_top.specs.declared.deliver.Status.TheVariants.{HubFault, WriteFault};
ghost use Rattle.faucet_top.specs.Given.{BreaksOff, Delivers};
ghost use Rattle.faucet_top.specs.Status.{number_of_status};
ghost use Rattle.recorded_top.specs.RecordedAnswer.{RepliesRecorded};

use crate::deliver::deliver_recorded;
use command_line::RecordedServe;
use conf_load::load_with_text;
use ctl_recorded::{RecordedService, serve_recorded};
use faucet_top::{Status, Units, deliver_out_of_memory, deliver_refusal};
use fg_outside::{Files, Hub, Sink};
use net_base::TryCopy;
use std::alloc::Global;
use watch_hub::Watch;

/// Runs the controller of a configuration file on a hub, follows the file, writes a recording of it to a sink, and
/// says how that ended.
pub fn serve_and_record<F: Files, H: Hub, S: Sink, O: Sink, E: Sink>(
    alloc: Global,
    job: &RecordedServe,
    files: F,
    hub: H,
    sink: S,
    out: &mut O,
    err: &mut E,
) -> (Status, F, H, S)
    ensures replies { RepliesRecorded H.may F.contents F.faults S.wrote (Rose (F.absences files) (F.absences result.1)) (Rose (F.faults files) (F.faults result.1)) (F.refused result.1) job.now
        hub result.2 files result.1 sink result.3
        (λ a. Delivers a (number_of_status result.0) (O.wrote out.old) (O.wrote out.new) (E.wrote err.old) (E.wrote err.new)
        (O.faults out.old) (O.faults out.new) (E.faults err.old) (E.faults err.new))
        (λ a. BreaksOff a (number_of_status result.0) (O.wrote out.old) (O.wrote out.new) (E.wrote err.old) (E.wrote err.new)
        (O.faults out.old) (O.faults out.new) (E.faults err.old) (E.faults err.new)) }
    ensures hub_fault { result.0 ≡ HubFault → Rose (H.faults hub) (H.faults result.2) }
    ensures no_hub_fault { result.0 ≢ HubFault → result.0 ≢ WriteFault → H.faults result.2 ≡ H.faults hub }

    ensures hub_faults { H.faults hub ≤ H.faults result.2 }
    ensures faults { F.faults files ≤ F.faults result.1 }
    ensures absences { F.absences files ≤ F.absences result.1 }
    ensures sink_faults { S.faults sink ≤ S.faults result.3 }
    ensures out_faults { O.faults out.old ≤ O.faults out.new }
    ensures err_faults { E.faults err.old ≤ E.faults err.new }
{
    let mut files = files;
    let config = &job.config;
    let (conf, text) = match load_with_text(alloc, &mut files, config.as_str()) {
        Ok(loaded) => loaded,
        Err(why) => {
            let status = deliver_refusal(err, config.as_str(), &why);
            return (status, files, hub, sink);
        }
    };
    let Ok(name) = config.copy(alloc) else {
        return (deliver_out_of_memory(err), files, hub, sink);
    };
    let watch = Watch::new(alloc, hub, files, name, text, job.reload_ms);
    let service = RecordedService {
        conf,
        watch,
        sink,
        most: job.events,
    };
    let (end, hub, files, sink) = serve_recorded(alloc, service, out, err, Units::new());
    let status = deliver_recorded(err, job.record_file.as_str(), end);
    (status, files, hub, sink)
}
