//! What the definitions of this crate come to, in the words of hubs and recordings.

ghost use Rattle.std.specs.Prelude.{◌≡◌, false, List, map};
ghost use Rattle.fg_outside.specs.declared.hub.Happening.{Happening};
ghost use Rattle.fg_outside.specs.HubStep.{HubStep, Leads, story};
ghost use Rattle.recording_hub.specs.declared.recording_hub.RecordingHub.{RecordingHub};
ghost use Rattle.recording_hub.specs.Recorded.{held};
ghost use Rattle.recording_hub.specs.RecordingHub.{faults_of, has_failed, hub_in, IsBegun};
ghost use Rattle.recording_hub.specs.RecordedStory.{RecordedStory, AreHeld};

use crate::RecordingHub;
use fg_outside::laws::{stories_join, ways_join};
use fg_outside::{Hub, Sink};

/// Whichever way a hub goes at whose start nothing was recorded: its sink took a recording of its story.
pub fn a_way_is_recorded<H: Hub, S: Sink>()
    ensures { (from to : RecordingHub H S) (steps : List HubStep) → IsBegun from
        → Leads ⟦<RecordingHub<H, S> as Hub>⟧.may from steps to
        → RecordedStory H.may S.wrote from (story steps) to }
{
    stories_join();
}

/// Whichever way it goes, its hub goes a way too.
pub fn the_hub_goes_along<H: Hub, S: Sink>()
    ensures { (from to : RecordingHub H S) (steps : List HubStep) → Leads ⟦<RecordingHub<H, S> as Hub>⟧.may from steps to
        → (way : List HubStep) × Leads H.may (hub_in from) way (hub_in to) }
{
    ways_join::<H>();
}

/// Whichever way it goes on which the recording stays whole: its count of faults is its hub's.
pub fn a_whole_recording_counts_the_hubs_faults<H: Hub, S: Sink>()
    ensures { (from to : RecordingHub H S) (steps : List HubStep) → IsBegun from → Leads ⟦<RecordingHub<H, S> as Hub>⟧.may from steps to
        → has_failed to ≡ false → faults_of H.faults to ≡ H.faults (hub_in to) }
{}

/// Happenings that records hold as they are give the same turns when they are read.
pub fn what_is_held_is_told_as_it_was()
    ensures { (its : List Happening) → AreHeld its → map held its ≡ its }
{}
