//! What holds of the definitions. A function's contract is the law, and its body is at most calls of the
//! laws that it rests on.

ghost use Rattle.std.specs.Prelude.{◌≡◌, ◌++◌, ◌∷◌, [], codes, ℕ, false, List, Option, Err};
ghost use Rattle.fg_outside.specs.declared.hub.Happening.TheVariants.{Reload};
ghost use Rattle.conf_types.specs.Valid.{IsValid};
ghost use Rattle.of13_codec.specs.declared.message.Message.{Message};
ghost use Rattle.switch_session.specs.declared.closing.Closing.{Closing};
ghost use Rattle.ctl_world.specs.declared.said.Said.TheVariants.{Line};
ghost use Rattle.ctl_world.specs.Connections.{is_open};
ghost use Rattle.ctl_world.specs.Ends.{close, ended};
ghost use Rattle.ctl_world.specs.World.{IsSound, World};
ghost use Rattle.ctl_settle.specs.declared.plans.Held.{Held};
ghost use Rattle.ctl_settle.specs.Plans.{AreHeld, Fit};
ghost use Rattle.ctl_settle.specs.Rest.{AreInOrder, IsAtRest};
ghost use Rattle.ctl_settle.specs.Settling.{settle};
ghost use Rattle.ctl_life.specs.Life.{read, feed, open_conn};
ghost use Rattle.ctl_core.specs.Hearing.{hear_frame};
ghost use Rattle.ctl_core.specs.Reloading.{accepted, reload};
ghost use Rattle.ctl_core.specs.Turns.{pass, turn};

use conf_check::laws::an_accepted_configuration_is_valid;
pub use ctl_settle::laws::{
    a_batch_leads_to_the_cold_start, a_batch_leaves_the_state, a_settling_leaves_it_at_rest,
    a_settling_leaves_nothing_waiting, alike_worlds_rest_alike, asks_leave_the_state,
    what_rests_settles_as_it_is,
};

/// Whatever a frame says, what was learned stays valid.
pub fn a_frame_leaves_it_sound()
    ensures heard { (said : Option (Message × ℕ)) (number : ℕ) (w : World) → IsValid w.conf → IsSound w → IsSound (hear_frame said number w) }
    ensures read { (number : ℕ) (w : World) → IsSound w → IsSound (read number w) }
{}

/// What opens and what comes leaves it valid.
pub fn what_comes_leaves_it_sound()
    ensures opened { (number : ℕ) (w : World) → IsSound w → IsSound (open_conn number w) }
    ensures fed { (number : ℕ) (piece : List ℕ) (w : World) → IsSound w → IsSound (feed number piece w) }
{}

/// The clock leaves it valid.
pub fn a_moment_leaves_it_sound()
    ensures { (moment : ℕ) (w : World) → IsValid w.conf → IsSound w → IsSound (pass moment w) }
{}

/// A reload, refused or accepted, leaves it valid.
pub fn a_reload_leaves_it_sound()
    ensures { (text : List ℕ) (w : World) → IsValid w.conf → IsSound w → IsSound (reload (accepted text) w) }
{
    an_accepted_configuration_is_valid();
}

/// Connections stay by number, and what was noted of each in key order, whatever happens. What opens is
/// new.
pub fn what_happens_keeps_connections_in_order()
    ensures opened { (number : ℕ) (w : World) → is_open w.conns number ≡ false → AreInOrder w → AreInOrder (open_conn number w) }
    ensures fed { (number : ℕ) (piece : List ℕ) (w : World) → AreInOrder w → AreInOrder (feed number piece w) }
    ensures read { (number : ℕ) (w : World) → AreInOrder w → AreInOrder (read number w) }
    ensures heard { (said : Option (Message × ℕ)) (number : ℕ) (w : World) → AreInOrder w → AreInOrder (hear_frame said number w) }
    ensures closed { (cause : Closing) (number : ℕ) (w : World) → AreInOrder w → AreInOrder (close cause number w) }
    ensures ended { (cause : Closing) (number : ℕ) (w : World) → AreInOrder w → AreInOrder (ended cause number w) }
    ensures passed { (moment : ℕ) (w : World) → AreInOrder w → AreInOrder (pass moment w) }
    ensures reloaded { (text : List ℕ) (w : World) → AreInOrder w → AreInOrder (reload (accepted text) w) }
    ensures settled { (w : World) → AreInOrder w → AreInOrder (settle w) }
{
    a_settling_leaves_nothing_waiting();
}

/// Whatever happens, the plans that are kept stay those of what was noted on their connections. What opens has none.
pub fn what_happens_keeps_the_plans()
    ensures opened { (number : ℕ) (w : World) (held : List Held) → is_open w.conns number ≡ false → AreHeld w held → Fit (open_conn number w).conns held }
    ensures heard { (said : Option (Message × ℕ)) (number : ℕ) (w : World) (held : List Held) → Fit w.conns held → Fit (hear_frame said number w).conns held }
    ensures closed { (cause : Closing) (number : ℕ) (w : World) (held : List Held) → Fit w.conns held → Fit (close cause number w).conns held }
    ensures ended { (cause : Closing) (number : ℕ) (w : World) (held : List Held) → Fit w.conns held → Fit (ended cause number w).conns held }
    ensures passed { (moment : ℕ) (w : World) (held : List Held) → Fit w.conns held → Fit (pass moment w).conns held }
    ensures reloaded { (text : List ℕ) (w : World) (held : List Held) → Fit w.conns held → Fit (reload (accepted text) w).conns held }
{}

/// A reload that is refused changes nothing, where nothing waits to be said: all that is said is the line
/// that tells why.
pub fn a_refused_reload_changes_nothing()
    ensures { (text cause : List ℕ) (w : World) → IsAtRest w → accepted text ≡ Err cause
        → turn (Reload text) w ≡ record w { said = Line (codes "reload: " ++ cause) ∷ [] } }
{
    alike_worlds_rest_alike();
    what_rests_settles_as_it_is();
}
