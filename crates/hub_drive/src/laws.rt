//! What the definitions of this crate come to, in the words of hubs and recordings, and that what comes is bytes.

ghost use Rattle.std.specs.Prelude.{◌≡◌, ◌<◌, ℕ, List};
ghost use Rattle.std.specs.List.{AllByRecursion};
ghost use Rattle.fg_outside.specs.declared.hub.Happening.{Happening};
ghost use Rattle.fg_outside.specs.HubStep.{Event, happenings};
ghost use Rattle.recording.specs.Turns.{closings};
ghost use Rattle.hub_drive.specs.Driven.{CameAsBytes};
ghost use Rattle.hub_drive.specs.Driving.{closings_of, deeds, deeds_of, IsFront};

use crate::machine::Machine;
use crate::sayings::Outlet;
use fg_outside::Happening;

/// Where a hub gave and was told what belongs to a story, what happened at it is that story, and the connections
/// that were closed are those that the machine closes in it.
pub fn what_was_told_is_the_story<M: Machine>(outlet: Outlet)
    ensures happened { (w : M.runs.State) (hs : List Happening) (events : List Event) → deeds events ≡ deeds_of M.runs.works outlet w hs → happenings events ≡ hs }
    ensures closed { (w : M.runs.State) (hs : List Happening) (events : List Event) (given : ℕ) → deeds events ≡ deeds_of M.runs.works outlet w hs
        → closings given events ≡ closings_of M.runs.works given w hs }
{}

/// Where it gave and was told a front of that, the same holds of a front of the story and of the closings.
pub fn what_was_told_is_a_front_of_the_story<M: Machine>(outlet: Outlet)
    ensures happened { (w : M.runs.State) (hs : List Happening) (events : List Event) → IsFront (deeds events) (deeds_of M.runs.works outlet w hs) → IsFront (happenings events) hs }
    ensures closed { (w : M.runs.State) (hs : List Happening) (events : List Event) (given : ℕ) → IsFront (deeds events) (deeds_of M.runs.works outlet w hs)
        → IsFront (closings given events) (closings_of M.runs.works given w hs) }
{}

fn are_bytes(_bytes: &[u8])
    ensures { AllByRecursion (λ byte. byte < 256) _bytes.now }
{}

/// What came on a connection is bytes, whichever hub gave it: a recording, or one of links.
pub fn a_happening_is_of_bytes(what: &Happening)
    ensures { CameAsBytes what.now }
{
    match what {
        Happening::Heard { piece, .. } => are_bytes(piece.as_slice()),
        _ => {}
    }
}
