//! `bgp` and `bgp-serve`: the speaker for the BGP peer of a router.

ghost use Rattle.std.specs.Prelude.{◌≡◌, ◌≢◌, ◌-◌, ◌^◌, ◌<◌, ◌≤◌, IfOk};
ghost use Rattle.fg_outside.specs.Counts.{Rose};
ghost use Rattle.bgp_drive.specs.Speech.{StandsFor};
ghost use Rattle.faucet_top.specs.Answer.{Answer};
ghost use Rattle.faucet_top.specs.Given.{Delivers, GivesBgp, NamesUnread, speaking_with};
ghost use Rattle.faucet_top.specs.Speaking.{RepliesSpeak};
ghost use Rattle.faucet_top.specs.Status.{number_of_status};

use crate::deliver::{Status, deliver_lacks, deliver_refusal, deliver_served};
use crate::replay::run_recording;
use bgp_drive::DrivenSpeaker;
use bgp_load::{LoadedPeer, load_peer};
use fg_outside::{Files, Hub, Sink};
use hub_drive::Outlet;
use hub_drive::drive::drive;
use net_base::{NoMemory, Text};
use std::alloc::Global;

/// A speaker for a peer, to which nothing happened yet.
fn speaker_for(alloc: Global, peer: LoadedPeer) -> Result<DrivenSpeaker, NoMemory>
    ensures { IfOk result (λ made. StandsFor made (speaking_with peer)) }
{
    DrivenSpeaker::new(alloc, peer.peering, peer.vlan, peer.tree)
}

/// Runs the speaker for the peer of a router, by a configuration file, on a recording, and says how that ended.
pub fn speak_on_recording<F: Files, O: Sink, E: Sink>(
    alloc: Global,
    config: &str,
    router: &str,
    recording: &Text,
    files: F,
    out: &mut O,
    err: &mut E,
) -> (Status, F)
    ensures gives { GivesBgp (F.contents files) (Rose (F.absences files) (F.absences result.1)) (Rose (F.faults files) (F.faults result.1)) (F.refused result.1) config.now router.now recording.now
        (number_of_status result.0) (O.wrote out.old) (O.wrote out.new) (E.wrote err.old) (E.wrote err.new)
        (O.faults out.old) (O.faults out.new) (E.faults err.old) (E.faults err.new) }
    ensures named { result.0 ≡ Status.Unread → F.faults files < 2 ^ 64 - 1 → NamesUnread (F.refused result.1) (E.wrote err.old) (E.wrote err.new) }
    ensures no_read_fault { result.0 ≢ Status.Unread → result.0 ≢ Status.WriteFault → F.faults files < 2 ^ 64 - 1 → F.faults result.1 ≡ F.faults files }

    ensures contents { F.contents result.1 ≡ F.contents files }
    ensures faults { F.faults files ≤ F.faults result.1 }
    ensures absences { F.absences files ≤ F.absences result.1 }
    ensures out_faults { O.faults out.old ≤ O.faults out.new }
    ensures err_faults { E.faults err.old ≤ E.faults err.new }
{
    let mut files = files;
    match load_peer(alloc, &mut files, config, router) {
        Ok(Ok(peer)) => {
            let machine = speaker_for(alloc, peer);
            run_recording(alloc, machine, Outlet::Nowhere, recording, files, out, err)
        }
        Ok(Err(lacks)) => (deliver_lacks(err, config, router, lacks), files),
        Err(why) => (deliver_refusal(err, config, &why), files),
    }
}

/// Runs the speaker for the peer of a router, by a configuration file, on a hub, for at most so many happenings, and
/// says how that ended.
pub fn speak_on_hub<F: Files, H: Hub, O: Sink, E: Sink>(
    alloc: Global,
    config: &str,
    router: &str,
    events: u64,
    files: &mut F,
    hub: &mut H,
    out: &mut O,
    err: &mut E,
) -> Status
    ensures replies { (a : Answer) × RepliesSpeak H.may (F.contents files.old) (Rose (F.absences files.old) (F.absences files.new)) (Rose (F.faults files.old) (F.faults files.new)) (F.refused files.new) config.now router.now events hub.old hub.new a
        × Delivers a (number_of_status result) (O.wrote out.old) (O.wrote out.new) (E.wrote err.old) (E.wrote err.new)
        (O.faults out.old) (O.faults out.new) (E.faults err.old) (E.faults err.new) }
    ensures no_read_fault { result ≢ Status.Unread → result ≢ Status.WriteFault → F.faults files.new ≡ F.faults files.old }
    ensures hub_fault { result ≡ Status.HubFault → Rose (H.faults hub.old) (H.faults hub.new) }
    ensures no_hub_fault { result ≢ Status.HubFault → result ≢ Status.WriteFault → H.faults hub.new ≡ H.faults hub.old }

    ensures hub_faults { H.faults hub.old ≤ H.faults hub.new }
    ensures contents { F.contents files.new ≡ F.contents files.old }
    ensures faults { F.faults files.old ≤ F.faults files.new }
    ensures absences { F.absences files.old ≤ F.absences files.new }
    ensures out_faults { O.faults out.old ≤ O.faults out.new }
    ensures err_faults { E.faults err.old ≤ E.faults err.new }
{
    let peer = match load_peer(alloc, files, config, router) {
        Ok(Ok(peer)) => peer,
        Ok(Err(lacks)) => return deliver_lacks(err, config, router, lacks),
        Err(why) => return deliver_refusal(err, config, &why),
    };
    let machine = speaker_for(alloc, peer);
    let drove = drive(alloc, machine, hub, Outlet::Hub, events, out, err);
    deliver_served(err, drove)
}
