ghost use Rattle.std.specs.Prelude.{◌≡◌, ◌≢◌, ◌≤◌};
ghost use Rattle.fg_outside.specs.Counts.{Rose};
ghost use Rattle.faucet_top.specs.Given.{BreaksOff, Delivers};
ghost use Rattle.faucet_top.specs.Serving.{RepliesServe};
ghost use Rattle.faucet_top.specs.Status.{number_of_status};

use crate::deliver::{Status, deliver_out_of_memory, deliver_refusal, deliver_served};
use crate::units::Units;
use conf_load::load_with_text;
use ctl_serve::serve;
use fg_outside::{Files, Hub, Sink};
use net_base::{Text, TryCopy};
use std::alloc::Global;
use watch_hub::Watch;

/// How many turns are taken at most, and how long after a look at the file the next one is due, in milliseconds.
#[derive(Clone, Copy, Debug, PartialEq, Eq)]
pub struct Pace {
    pub events: u64,
    pub reload_ms: u64,
}

/// Runs the controller of a configuration file on a hub, follows the file, and says how that ended.
pub fn serve_switches<F: Files, H: Hub, O: Sink, E: Sink>(
    alloc: Global,
    config: &Text,
    pace: Pace,
    files: F,
    hub: H,
    out: &mut O,
    err: &mut E,
) -> (Status, F, H)
    ensures replies { RepliesServe H.may F.contents F.faults (Rose (F.absences files) (F.absences result.1)) (Rose (F.faults files) (F.faults result.1)) (F.refused result.1) config.now pace.reload_ms pace.events
        hub result.2 files result.1
        (λ a. Delivers a (number_of_status result.0) (O.wrote out.old) (O.wrote out.new) (E.wrote err.old) (E.wrote err.new)
        (O.faults out.old) (O.faults out.new) (E.faults err.old) (E.faults err.new))
        (λ a. BreaksOff a (number_of_status result.0) (O.wrote out.old) (O.wrote out.new) (E.wrote err.old) (E.wrote err.new)
        (O.faults out.old) (O.faults out.new) (E.faults err.old) (E.faults err.new)) }
    ensures hub_fault { result.0 ≡ Status.HubFault → Rose (H.faults hub) (H.faults result.2) }
    ensures no_hub_fault { result.0 ≢ Status.HubFault → result.0 ≢ Status.WriteFault → H.faults result.2 ≡ H.faults hub }

    ensures hub_faults { H.faults hub ≤ H.faults result.2 }
    ensures faults { F.faults files ≤ F.faults result.1 }
    ensures absences { F.absences files ≤ F.absences result.1 }
    ensures out_faults { O.faults out.old ≤ O.faults out.new }
    ensures err_faults { E.faults err.old ≤ E.faults err.new }
{
    let mut files = files;
    let (conf, text) = match load_with_text(alloc, &mut files, config.as_str()) {
        Ok(loaded) => loaded,
        Err(why) => {
            let status = deliver_refusal(err, config.as_str(), &why);
            return (status, files, hub);
        }
    };
    let Ok(name) = config.copy(alloc) else {
        return (deliver_out_of_memory(err), files, hub);
    };
    let watch = Watch::new(alloc, hub, files, name, text, pace.reload_ms);
    let (drove, hub, files) = serve(alloc, conf, watch, pace.events, out, err, Units::new());
    (deliver_served(err, drove), files, hub)
}
