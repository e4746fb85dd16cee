//! `trace` and `walk`: what becomes of a frame behind a recording.

ghost use Rattle.std.specs.Prelude.{◌≡◌, ◌≢◌, ◌-◌, ◌^◌, ◌<◌, ◌≤◌, IsTrue};
ghost use Rattle.fg_outside.specs.Counts.{Rose};
ghost use Rattle.pkt_view.specs.Frame.{has_type};
ghost use Rattle.faucet_top.specs.Follow.{traced_in};
ghost use Rattle.faucet_top.specs.Given.{GivesFollow, NamesUnread};
ghost use Rattle.faucet_top.specs.Status.{number_of_status};

use crate::asked::Asked;
use crate::deliver::{
    Status, deliver_followed, deliver_missing, deliver_out_of_memory, deliver_refusal,
};
use crate::units::Units;
use conf_load::load;
use fg_outside::{Files, Sink};
use pkt_view::packet_of;
use std::alloc::Global;
use trace_story::{follow, missing_in};

/// Runs the controller of a configuration file on a recording, and shows what becomes behind it of a frame.
pub fn follow_frame<F: Files, O: Sink, E: Sink>(
    alloc: Global,
    asked: &Asked,
    files: F,
    out: &mut O,
    err: &mut E,
) -> (Status, F)
    requires typed { IsTrue (has_type asked.now.frame.now) }
    ensures gives { GivesFollow asked.now.how (F.contents files) (Rose (F.absences files) (F.absences result.1)) (Rose (F.faults files) (F.faults result.1)) (F.refused result.1) (traced_in asked.now)
        (number_of_status result.0) (O.wrote out.old) (O.wrote out.new) (E.wrote err.old) (E.wrote err.new)
        (O.faults out.old) (O.faults out.new) (E.faults err.old) (E.faults err.new) }
    ensures named { result.0 ≡ Status.Unread → F.faults files < 2 ^ 64 - 1 → NamesUnread (F.refused result.1) (E.wrote err.old) (E.wrote err.new) }
    ensures no_read_fault { result.0 ≢ Status.Unread → result.0 ≢ Status.WriteFault → F.faults files < 2 ^ 64 - 1 → F.faults result.1 ≡ F.faults files }

    ensures contents { F.contents result.1 ≡ F.contents files }
    ensures faults { F.faults files ≤ F.faults result.1 }
    ensures absences { F.absences files ≤ F.absences result.1 }
    ensures out_faults { O.faults out.old ≤ O.faults out.new }
    ensures err_faults { E.faults err.old ≤ E.faults err.new }
{
    let mut files = files;
    let config = asked.config.as_str();
    let conf = match load(alloc, &mut files, config) {
        Ok(conf) => conf,
        Err(why) => return (deliver_refusal(err, config, &why), files),
    };
    if let Some(missing) = missing_in(&conf, asked.dp, asked.port) {
        return (deliver_missing(err, asked, missing), files);
    }
    let packet = match packet_of(alloc, asked.frame.as_slice()) {
        Ok(Some(packet)) => packet,
        Ok(None) => unreachable!(),
        Err(_) => return (deliver_out_of_memory(err), files),
    };
    let units = Units::new();
    let (followed, files) = follow(
        alloc,
        conf,
        asked.how,
        asked.recording,
        asked.dp,
        asked.port,
        &packet,
        files,
        units,
    );
    (deliver_followed(out, err, asked, followed), files)
}
