//! What serving comes to on links. The function's contract is the law, and its body is at most calls of the laws
//! that it rests on.

ghost use Rattle.std.specs.Prelude.{◌≡◌, ℕ, List, Some};
ghost use Rattle.fg_outside.specs.declared.hub.Happening.{Happening};
ghost use Rattle.fg_outside.specs.HubStep.{story};
ghost use Rattle.fg_outside.specs.Wrote.{appended};
ghost use Rattle.link_hub.specs.Hub.{live_at, IsFresh};
ghost use Rattle.ctl_world.specs.World.{World};
ghost use Rattle.hub_drive.specs.declared.drive.Drove.{Drove};
ghost use Rattle.ctl_serve.specs.Served.{Served};
ghost use Rattle.law_served.specs.Messages.{AllTaken, messages_on};

use fg_links::Poller;
use fg_outside::{Files, Hub};
use link_hub::LinkHub;
use link_hub::laws::open_links_are_served_in_order;
use watch_hub::laws::reloads_say_nothing;

/// Where a controller was served on the links of a poller, beside a watched file: on a connection that is open and on
/// which no message was answered as gone, what its link was given since it opened and what waits are together just the
/// messages that the controller said on it, in order and without a gap.
pub fn a_link_is_given_what_the_controller_says<P: Poller, F: Files>()
    ensures { (poller : _) (hub_old hub_new : _) (files_old files_new : F) (name text : List ℕ) (every most : ℕ) (w : World) (happened : List Happening) (end : Drove)
        → IsFresh poller hub_old
        → (served : Served ⟦<LinkHub<P> as Hub>⟧.may F.contents F.faults name text every most w happened end hub_old hub_new files_old files_new)
        → (conn : ℕ) (live : _) → live_at hub_new conn ≡ Some live → AllTaken conn (story served.steps)
        → appended (P.L.wrote live.opened.value) (messages_on conn w happened) ≡ appended (P.L.wrote live.link) live.unsent }
{
    open_links_are_served_in_order::<P>();
    reloads_say_nothing();
}
