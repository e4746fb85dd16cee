//! What a controller knows and says by what happened and what it said alone: its configuration, the moment, which
//! connections are open, which lines are said, and why connections are closed. The functions are empty but for calls
//! of the laws that they rest on, and their contracts are the laws.

ghost use Rattle.std.specs.Prelude.{◌≡◌, ◌++◌, ◌∷◌, [], codes, ℕ, true, List, Option, None, Err};
ghost use Rattle.std.specs.List.{AllByRecursion};
ghost use Rattle.fg_outside.specs.declared.hub.Happening.{Happening};
ghost use Rattle.fg_outside.specs.declared.hub.Happening.TheVariants.{Reload};
ghost use Rattle.conf_types.specs.declared.datapath.Dp.{Dp};
ghost use Rattle.conf_types.specs.Configuration.{Configuration};
ghost use Rattle.conf_types.specs.State.{State};
ghost use Rattle.of13_codec.specs.declared.message.Message.{Message};
ghost use Rattle.ctl_world.specs.declared.said.Said.{Said};
ghost use Rattle.ctl_world.specs.declared.said.Said.TheVariants.{Line};
ghost use Rattle.ctl_world.specs.Connections.{is_open};
ghost use Rattle.ctl_world.specs.World.{World, first};
ghost use Rattle.plan_units.specs.Laws.{IsSetting};
ghost use Rattle.plan_units.specs.Units.{plan};
ghost use Rattle.ctl_core.specs.Hearing.{hear_frame, unfit};
ghost use Rattle.ctl_core.specs.Reloading.{accepted};
ghost use Rattle.ctl_core.specs.Story.{behind};
ghost use Rattle.ctl_core.specs.Turns.{turn};
ghost use Rattle.law_lives.specs.Causes.{HasHeardCause, HaveTheirCauses, IsWithin};
ghost use Rattle.law_lives.specs.Known.{conf_by, moment_by, open_by};
ghost use Rattle.law_lives.specs.Lines.{HaveTheirLines};
ghost use Rattle.law_lives.specs.Told.{as_told};

use ctl_core::laws::a_refused_reload_changes_nothing;
use law_entries::doable::each_entry_can_be_done;
use law_entries::lengths::each_entry_is_short;
use law_stories::laws::after_each_turn_it_rests;

/// Whatever happens, the configuration is that of the last reload that was accepted, or else the first; the moment is the
/// greatest that was shown; and open are the connections that opened, and that neither ended nor were closed since.
pub fn what_is_known_is_told()
    ensures configuration { (conf : Configuration) (story : List Happening) → (behind (first conf) story).conf ≡ conf_by conf story }
    ensures moment { (conf : Configuration) (story : List Happening) → (behind (first conf) story).moment.0 ≡ moment_by story }
    ensures opened { (conf : Configuration) (story : List Happening) (number : ℕ)
        → is_open (behind (first conf) story).conns number ≡ open_by number (as_told (first conf) story) }
{}

/// Whatever happened, a reload that is refused says its one line, and changes nothing.
pub fn a_refused_reload_says_its_line_alone()
    ensures { (conf : Configuration) (story : List Happening) (text cause : List ℕ) → accepted text ≡ Err cause
        → turn (Reload text) (behind (first conf) story) ≡ record (behind (first conf) story) { said = Line (codes "reload: " ++ cause) ∷ [] } }
{
    a_refused_reload_changes_nothing();
    after_each_turn_it_rests();
}

/// Whatever happens, a line is said for each end of an open connection and for each reload that is refused, before anything
/// else in its turn, one right behind each closing that is said, and no other.
pub fn lines_tell_what_ends_and_what_is_refused()
    ensures { (conf : Configuration) (story : List Happening) → HaveTheirLines [] (as_told (first conf) story) }
{}

/// Whatever happens, each closing has its cause. At a moment exactly the connections are closed on which no byte came for 60
/// seconds. Where a frame is heard on an open connection, that is closed for what the frame says, and another one only as the
/// one of the datapath that the switch says to be.
pub fn each_closing_has_its_cause()
    ensures turns { (conf : Configuration) (story : List Happening) → HaveTheirCauses [] (as_told (first conf) story) }
    ensures frames { (heard : Option (Message × ℕ)) (number : ℕ) (w : World) → is_open w.conns number ≡ true
        → (more : List Said) × ((hear_frame heard number w).said ≡ w.said ++ more) × AllByRecursion (HasHeardCause w heard number) more }
{}

/// A datapath whose switch isn't turned away has each table that an entry of its plan stands in or leads on to.
pub fn an_accepted_datapath_has_the_tables_of_its_plan()
    ensures { (conf : Configuration) (now : State) (d : Dp) (n_tables auxiliary : ℕ) → IsSetting conf now d → unfit conf d.id n_tables auxiliary ≡ None
        → AllByRecursion (IsWithin n_tables) (plan conf now d) }
{
    each_entry_is_short();
    each_entry_can_be_done();
}
