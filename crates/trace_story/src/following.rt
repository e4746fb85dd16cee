//! A packet behind what a recording tells.

ghost use Rattle.std.specs.Prelude.{◌≡◌, ◌⊎◌, None};
ghost use Rattle.fg_outside.specs.Contents.{Tells};
ghost use Rattle.fg_outside.specs.Counts.{Rose};
ghost use Rattle.ctl_world.specs.World.{World};
ghost use Rattle.hub_drive.specs.Replay.{GivesBack};
ghost use Rattle.ctl_drive.specs.Controller.{StandsFor};
ghost use Rattle.trace_story.specs.Followed.{Follows, IsShown, is_whole};
ghost use Rattle.trace_story.specs.Shown.{shown};

use crate::showing::{How, Shown, show};
use conf_types::{Conf, Tally};
use ctl_drive::Steered;
use fg_outside::Files;
use hub_drive::Replayed;
use hub_drive::still::run_still;
use net_base::{PortNo, Text, TryCopy};
use of_match::Packet;
use std::alloc::Global;

/// What came of following a packet.
#[derive(Debug, Drop)]
pub enum Followed {
    /// The recording is whole, and this is shown.
    Showed(Shown),
    /// The run over the recording ended so, and nothing is shown.
    Ended(Replayed),
}

/// Whether the recording was read to its end.
fn is_whole(replayed: Replayed) -> bool
    ensures { result ≡ is_whole replayed }
{
    match replayed {
        Replayed::Read(refused) => refused.is_none(),
        _ => false,
    }
}

/// What is shown of a packet by what a machine knows.
fn show_behind<T: Tally + Drop>(
    alloc: Global,
    machine: Steered<T>,
    how: How,
    dp: &str,
    port: PortNo,
    packet: &Packet,
) -> Followed
    requires known { (w : World) × StandsFor machine w }
    ensures { (w : World) → StandsFor machine w → IsShown (shown how w dp.now port packet.now) result }
{
    let (core, mut units) = machine.into_parts();
    match show(alloc, &core, how, dp, port, packet, &mut units) {
        Ok(shown) => Followed::Showed(shown),
        Err(_) => Followed::Ended(Replayed::Memory),
    }
}

/// Runs the controller of a configuration on the recording of this name, one record at a time, drops what it says,
/// and then follows a packet that comes in by a port of the datapath with a name. Gives the files back.
pub fn follow<F: Files, T: Tally + Drop>(
    alloc: Global,
    conf: Conf,
    how: How,
    recording: &Text,
    dp: &Text,
    port: PortNo,
    packet: &Packet,
    files: F,
    units: T,
) -> (Followed, F)
    ensures follows { Follows how (F.contents files) recording.now (Rose (F.absences files) (F.absences result.1)) (Rose (F.faults files) (F.faults result.1)) conf dp.now port packet.now result.0 }

    // A recording that isn't there is told as such, but for want of memory.
    ensures missing { Tells (F.contents files) recording.now None → (result.0 ≡ Followed.Ended Replayed.Unread) ⊎ (result.0 ≡ Followed.Ended Replayed.Memory) }
    ensures back { GivesBack F.contents F.faults F.absences F.refused recording.now files result.1 (result.0 ≡ Followed.Ended Replayed.Unread) }
{
    let Ok(mut machine) = Steered::new(alloc, conf, units) else {
        return (Followed::Ended(Replayed::Memory), files);
    };
    let Ok(name) = recording.copy(alloc) else {
        return (Followed::Ended(Replayed::Memory), files);
    };
    let (replayed, files) = run_still(alloc, &mut machine, files, name);
    if !is_whole(replayed) {
        return (Followed::Ended(replayed), files);
    }
    let followed = show_behind(alloc, machine, how, dp.as_str(), port, packet);
    (followed, files)
}
