//! What the definitions of this crate come to, in the words of files and hubs.

ghost use Rattle.std.specs.Prelude.{◌≡◌, ◌≤◌, ◌-◌, ℕ, Bool, List, length, take, true, false, None, Err};
ghost use Rattle.std.specs.List.{AllByRecursion};
ghost use Rattle.fg_outside.specs.HubStep.{HubStep, Event, Leads, story};
ghost use Rattle.fg_links.specs.HubInMemory.{lacks_memory};
ghost use Rattle.conf_gather.specs.declared.refused.LoadRefused.TheVariants.{Absent};
ghost use Rattle.conf_gather.specs.Gathered.{Held, gathered};
ghost use Rattle.watch_hub.specs.declared.watch.Watch.{Watch};
ghost use Rattle.watch_hub.specs.Look.{text_of};
ghost use Rattle.watch_hub.specs.Watch.{files_in, hub_in, is_spent, waits_in};
ghost use Rattle.watch_hub.specs.WatchedStory.{PutsIn, WatchedPart, WatchedStory, spoken};

use crate::Watch;
use fg_outside::laws::{stories_join, ways_join};
use fg_outside::{Files, Hub};

/// Files give a text but where a file that has to be there isn't.
pub fn files_have_no_text_where_one_is_missing()
    ensures missing { (held : Held) (name file : List ℕ) → gathered held name ≡ Err (Absent file) → text_of held name ≡ None }
    ensures only_missing { (held : Held) (name : List ℕ) → text_of held name ≡ None → (file : List ℕ) × (gathered held name ≡ Err (Absent file)) }
{}

/// Whichever way a watch goes that isn't spent at its end, and at whose start no text waits: its story is that of its hub
/// with the reloads of its looks between.
pub fn a_way_tells_the_watched_story<H: Hub, F: Files>()
    ensures { (from to : Watch H F) (steps : List HubStep) → waits_in from ≡ false → is_spent to ≡ false
        → Leads ⟦<Watch<H, F> as Hub>⟧.may from steps to
        → WatchedStory H.may F.contents F.faults from (story steps) to }
{
    stories_join();
}

/// What holds of each call on such a way holds of each call of its hub, too.
pub fn what_holds_of_its_calls_holds_of_its_hubs<H: Hub, F: Files>()
    ensures { (holds : HubStep → Bool) (from to : Watch H F) (steps : List HubStep) → waits_in from ≡ false → is_spent to ≡ false
        → AllByRecursion (λ step. holds step ≡ true) steps → Leads ⟦<Watch<H, F> as Hub>⟧.may from steps to
        → (told : WatchedStory H.may F.contents F.faults from (story steps) to) × AllByRecursion (λ step. holds step ≡ true) told.hub.steps }
{
    stories_join();
}

/// Whichever way a watch goes, it isn't spent behind it, where no call on the way answered want of memory.
pub fn a_watch_is_spent_only_where_it_says_so<H: Hub, F: Files>()
    ensures { (from to : Watch H F) (steps : List HubStep) → is_spent from ≡ false → AllByRecursion (λ step. lacks_memory step ≡ false) steps
        → Leads ⟦<Watch<H, F> as Hub>⟧.may from steps to → is_spent to ≡ false }
{}

/// Whichever way a watch goes that isn't spent at its start, and at whose start no text waits, where no call but the last
/// answered want of memory: its story is that of its hub with the reloads of its looks between, but for a happening that
/// the last turn lost.
pub fn a_way_to_want_of_memory_tells_the_watched_story<H: Hub, F: Files>()
    ensures { (from to : Watch H F) (steps : List HubStep) → waits_in from ≡ false → is_spent from ≡ false
        → AllByRecursion (λ step. lacks_memory step ≡ false) (take (length steps - 1) steps)
        → Leads ⟦<Watch<H, F> as Hub>⟧.may from steps to
        → WatchedPart H.may F.contents F.faults from (story steps) to }
{
    stories_join();
}

/// Whichever way a watch goes, the counts of its files don't fall.
pub fn the_counts_of_its_files_stand<H: Hub, F: Files>()
    ensures faults { (from to : Watch H F) (steps : List HubStep) → Leads ⟦<Watch<H, F> as Hub>⟧.may from steps to
        → F.faults (files_in from) ≤ F.faults (files_in to) }
    ensures absences { (from to : Watch H F) (steps : List HubStep) → Leads ⟦<Watch<H, F> as Hub>⟧.may from steps to
        → F.absences (files_in from) ≤ F.absences (files_in to) }
{}

/// Whichever way a watch goes, its hub goes a way too.
pub fn the_hub_goes_along<H: Hub, F: Files>()
    ensures { (from to : Watch H F) (steps : List HubStep) → Leads ⟦<Watch<H, F> as Hub>⟧.may from steps to
        → (way : List HubStep) × Leads H.may (hub_in from) way (hub_in to) }
{
    ways_join::<H>();
}

/// What was said and closed is the same with reloads put in between.
pub fn reloads_say_nothing()
    ensures { (events with_reloads : List Event) → PutsIn events with_reloads → spoken with_reloads ≡ spoken events }
{}
