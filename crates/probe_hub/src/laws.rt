//! What the definitions of this crate come to, in the words of hubs, links and probes.

ghost use Rattle.std.specs.Prelude.{◌≡◌, ◌≤◌, ◌<◌, ◌+◌, ◌-◌, ℕ, List, length, take, Option, true, false, Some, None};
ghost use Rattle.std.specs.List.{AllByRecursion};
ghost use Rattle.fg_outside.specs.HubStep.{HubStep, Leads, story};
ghost use Rattle.fg_links.specs.HubInMemory.{lacks_memory};
ghost use Rattle.probe_hub.specs.declared.links.LinkEnd.{LinkEnd};
ghost use Rattle.probe_hub.specs.declared.links.LinkWatch.{LinkWatch};
ghost use Rattle.probe_hub.specs.declared.marks.Mark.{Mark};
ghost use Rattle.probe_hub.specs.declared.peer.Peer.{Peer};
ghost use Rattle.probe_hub.specs.declared.probe_hub.ProbeHub.{ProbeHub};
ghost use Rattle.probe_hub.specs.Marks.{mark_of};
ghost use Rattle.probe_hub.specs.Peer.{is_of, losing};
ghost use Rattle.probe_hub.specs.ProbeHub.{hub_in, is_spent};
ghost use Rattle.probe_hub.specs.ProbedStory.{Probed, ProbedPart, ProbedStory};
ghost use Rattle.probe_hub.specs.declared.known.Known.{Known};
ghost use Rattle.probe_hub.specs.declared.links.Links.{Links};
ghost use Rattle.probe_hub.specs.Known.{begun, renewed};
ghost use Rattle.probe_hub.specs.Quiet.{AreUnwatched, IsQuiet, ReadUnwatched};
ghost use Rattle.fg_outside.specs.HubStep.{Event};

use crate::ProbeHub;
use crate::reader::ReadsLinks;
use fg_outside::Hub;

/// A port of a watched link that its switch last told up gets lost exactly from the moment on at which its window is
/// over, and not before.
pub fn a_port_is_lost_once_its_window_is_over()
    ensures over { (moment : ℕ) (end : LinkEnd) (watch : LinkWatch) (p : Peer) (mark : Mark) → end.watch ≡ Some watch → is_of end.dp p.dp ≡ true
        → mark_of p.marks end.port ≡ Some mark → mark.lost ≡ false → mark.since + watch.window ≤ moment → losing moment end p ≡ Some mark }
    ensures before { (moment : ℕ) (end : LinkEnd) (watch : LinkWatch) (p : Peer) (mark : Mark) → end.watch ≡ Some watch
        → mark_of p.marks end.port ≡ Some mark → moment < mark.since + watch.window → losing moment end p ≡ None }
    ensures unwatched { (moment : ℕ) (end : LinkEnd) (p : Peer) → end.watch ≡ None → losing moment end p ≡ None }
{}

/// Whichever way it goes that isn't spent at its end: its story is its hub's with the probes that are said, and with
/// what is told of links.
pub fn a_way_is_probed<H: Hub, R: ReadsLinks>()
    ensures { (from to : ProbeHub H R) (steps : List HubStep) → is_spent to ≡ false
        → Leads ⟦<ProbeHub<H, R> as Hub>⟧.may from steps to
        → ProbedStory H.may R.links_of from (story steps) to }
{}

/// Whichever way it goes that isn't spent at its start, where no call but the last answered want of memory: its story is such a
/// one, but for a happening that the last turn lost, with a front of the probes that come with it.
pub fn a_way_to_want_of_memory_is_probed<H: Hub, R: ReadsLinks>()
    ensures { (from to : ProbeHub H R) (steps : List HubStep) → is_spent from ≡ false
        → AllByRecursion (λ step. lacks_memory step ≡ false) (take (length steps - 1) steps)
        → Leads ⟦<ProbeHub<H, R> as Hub>⟧.may from steps to
        → ProbedPart H.may R.links_of from (story steps) to }
{}

/// Whichever way it goes, it isn't spent behind it, where no call on the way answered want of memory.
pub fn it_is_spent_only_where_it_says_so<H: Hub, R: ReadsLinks>()
    ensures { (from to : ProbeHub H R) (steps : List HubStep) → is_spent from ≡ false → AllByRecursion (λ step. lacks_memory step ≡ false) steps
        → Leads ⟦<ProbeHub<H, R> as Hub>⟧.may from steps to → is_spent to ≡ false }
{}

/// Whichever way it goes, its hub goes a way too.
pub fn the_hub_goes_along<H: Hub, R: ReadsLinks>()
    ensures { (from to : ProbeHub H R) (steps : List HubStep) → Leads ⟦<ProbeHub<H, R> as Hub>⟧.may from steps to
        → (way : List HubStep) × Leads H.may (hub_in from) way (hub_in to) }
{}

/// Where no link is watched, by no configuration that is read, both stories are equal.
pub fn without_watched_links_both_stories_are_equal()
    ensures equal { (read : List ℕ → Option Links) (from to : Known) (hub user : List Event) → ReadUnwatched read → IsQuiet from
        → Probed read from hub user to → user ≡ hub }
    ensures first { IsQuiet begun }
    ensures set { (next : Links) (k : Known) → AreUnwatched next.ends → IsQuiet k → IsQuiet (renewed next k) }
{}
