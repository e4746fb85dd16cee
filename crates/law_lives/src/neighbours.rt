//! When neighbours are asked, and which frames switches are told to send, whatever happens. The functions are empty but
//! for calls of the laws that they rest on, and their contracts are the laws.

ghost use Rattle.std.specs.Prelude.{◌≡◌, ℕ, List, false};
ghost use Rattle.std.specs.List.{AllByRecursion};
ghost use Rattle.fg_outside.specs.declared.hub.Happening.{Happening};
ghost use Rattle.conf_types.specs.declared.state.NeighRec.{NeighRec};
ghost use Rattle.conf_types.specs.Configuration.{Configuration};
ghost use Rattle.conf_types.specs.Valid.{IsValid};
ghost use Rattle.neighbour_resolve.specs.Due.{is_gateway};
ghost use Rattle.switch_session.specs.declared.closing.Closing.{Closing};
ghost use Rattle.ctl_world.specs.Ends.{ended};
ghost use Rattle.ctl_world.specs.World.{World, first};
ghost use Rattle.ctl_life.specs.Life.{open_conn};
ghost use Rattle.ctl_core.specs.Reloading.{accepted, reload};
ghost use Rattle.ctl_core.specs.Turns.{pass};
ghost use Rattle.law_stories.specs.Settlings.{settlings};
ghost use Rattle.law_lives.specs.Steps.{frames};
ghost use Rattle.law_lives.specs.Outs.{AnswersTheHeard, AsksTheDue, outs};
ghost use Rattle.law_lives.specs.Tries.{IsFirstRun, Settling, moments_of, ten_tries, told_of};

use ctl_world::laws::{alike_worlds_run_alike, what_is_said_is_alike};
use law_stories::laws::what_the_laws_rest_on;

/// Whatever the moments are at which turns settle: a neighbour that no route leads over and that is left alone is asked at the
/// first of them at or behind that at which it is due, at the first at or behind the end of each wait, ten times in all, and at
/// the first at or behind the end of the last wait it is given up.
pub fn a_neighbour_is_tried_ten_times_whenever_turns_settle()
    ensures { (conf : Configuration) (n : NeighRec) (before : List NeighRec) (settlings : List Settling) (after : List NeighRec)
        → IsFirstRun conf n before settlings after → is_gateway conf n ≡ false → told_of n settlings ≡ ten_tries n (moments_of settlings) }
{}

/// Whatever happens, in each settling the neighbours that are due are asked or given up, until none is; each ask is one PACKET_OUT
/// for each running datapath of its group with edge ports of the VLAN, and no other PACKET_OUT is said.
pub fn each_ask_is_sent_once_and_nothing_else()
    ensures { (conf : Configuration) (story : List Happening) → IsValid conf → AllByRecursion AsksTheDue (settlings (first conf) story) }
{
    what_the_laws_rest_on();
    alike_worlds_run_alike();
    what_is_said_is_alike();
}

/// Whatever happens, where a frame is heard that is to be answered its answer is sent, once, and before the settling behind it
/// nothing else.
pub fn each_answer_is_sent_once_and_nothing_else()
    ensures { (conf : Configuration) (story : List Happening) → IsValid conf → AllByRecursion AnswersTheHeard (frames (first conf) story) }
{
    what_the_laws_rest_on();
}

/// Before the settling, nothing that opens, ends, is shown or is loaded tells a switch to send a frame.
pub fn nothing_else_is_sent()
    ensures opened { (number : ℕ) (w : World) → outs (open_conn number w).said ≡ outs w.said }
    ensures ended { (cause : Closing) (number : ℕ) (w : World) → outs (ended cause number w).said ≡ outs w.said }
    ensures passed { (moment : ℕ) (w : World) → outs (pass moment w).said ≡ outs w.said }
    ensures reloaded { (text : List ℕ) (w : World) → outs (reload (accepted text) w).said ≡ outs w.said }
{}
