//! What hubs in memory keep.
ghost use Rattle.std.specs.Prelude.{◌≡◌, List};
ghost use Rattle.std.specs.List.{fold};
ghost use Rattle.fg_outside.specs.HubStep.{HubStep, Leads, story};
ghost use Rattle.fg_links.specs.declared.mem_hub.HubInMemory.{HubInMemory};
ghost use Rattle.fg_links.specs.HubInMemory.{story_of};
ghost use Rattle.fg_links.specs.Stories.{kept};

use crate::HubInMemory;
use fg_outside::laws::stories_join;
use fg_outside::{FaultPlan, Hub};

/// Whichever way a hub in memory goes, what it keeps is the story of that way: its happenings, the
/// pieces that were taken, and the closings of what was open.
pub fn a_hub_in_memory_keeps_its_story<P: FaultPlan>()
    ensures { (from to : HubInMemory P) (steps : List HubStep) → Leads ⟦<HubInMemory<P> as Hub>⟧.may from steps to
        → story_of to ≡ fold kept (story_of from) (story steps) }
{
    stories_join();
}
