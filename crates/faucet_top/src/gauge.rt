ghost use Rattle.std.specs.Prelude.{◌≡◌, ◌≢◌, ◌≤◌};
ghost use Rattle.fg_outside.specs.Counts.{Rose};
ghost use Rattle.faucet_top.specs.Answer.{Answer};
ghost use Rattle.faucet_top.specs.Given.{Delivers};
ghost use Rattle.faucet_top.specs.Status.{number_of_status};
ghost use Rattle.faucet_top.specs.Watching.{RepliesWatch};

use crate::deliver::{Status, deliver_refusal, deliver_served};
use fg_outside::{Files, Hub, Sink};
use gauge_drive::DrivenGauge;
use gauge_load::load_gauge;
use hub_drive::Outlet;
use hub_drive::drive::drive;
use std::alloc::Global;

/// Runs the Gauge of a configuration file on a hub, for at most so many happenings, and says how that ended.
pub fn watch_switches<F: Files, H: Hub, O: Sink, E: Sink>(
    alloc: Global,
    config: &str,
    events: u64,
    files: &mut F,
    hub: &mut H,
    out: &mut O,
    err: &mut E,
) -> Status
    ensures replies { (a : Answer) × RepliesWatch H.may (F.contents files.old) (Rose (F.absences files.old) (F.absences files.new)) (Rose (F.faults files.old) (F.faults files.new)) (F.refused files.new) config.now events hub.old hub.new a
        × Delivers a (number_of_status result) (O.wrote out.old) (O.wrote out.new) (E.wrote err.old) (E.wrote err.new)
        (O.faults out.old) (O.faults out.new) (E.faults err.old) (E.faults err.new) }
    ensures no_read_fault { result ≢ Status.Unread → result ≢ Status.WriteFault → F.faults files.new ≡ F.faults files.old }
    ensures hub_fault { result ≡ Status.HubFault → Rose (H.faults hub.old) (H.faults hub.new) }
    ensures no_hub_fault { result ≢ Status.HubFault → result ≢ Status.WriteFault → H.faults hub.new ≡ H.faults hub.old }

    ensures hub_faults { H.faults hub.old ≤ H.faults hub.new }
    ensures contents { F.contents files.new ≡ F.contents files.old }
    ensures faults { F.faults files.old ≤ F.faults files.new }
    ensures absences { F.absences files.old ≤ F.absences files.new }
    ensures out_faults { O.faults out.old ≤ O.faults out.new }
    ensures err_faults { E.faults err.old ≤ E.faults err.new }
{
    let conf = match load_gauge(alloc, files, config) {
        Ok(conf) => conf,
        Err(why) => return deliver_refusal(err, config, &why),
    };
    let machine = DrivenGauge::new(alloc, conf);
    let drove = drive(alloc, machine, hub, Outlet::Hub, events, out, err);
    deliver_served(err, drove)
}
