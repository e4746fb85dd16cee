//! The laws. A function's contract is the law, and its body is at most calls of the laws that it rests on.

ghost use Rattle.std.specs.Prelude.{◌≡◌, List};
ghost use Rattle.fg_outside.specs.declared.hub.Happening.{Happening};
ghost use Rattle.conf_types.specs.Configuration.{Configuration};
ghost use Rattle.ctl_core.specs.Story.{behind};
ghost use Rattle.ctl_world.specs.World.{first};
ghost use Rattle.gauge_poll.specs.Monitoring.{Monitor, anew, behind as watched, lines_of, turn};
ghost use Rattle.law_turns.specs.Closings.{causes, closings};
ghost use Rattle.law_turns.specs.Reloads.{is_refused, is_reload, unsaid, without};

use ctl_core::laws::a_refused_reload_changes_nothing;
use law_stories::laws::after_each_turn_it_rests;

/// Whatever happens to a controller, what it knows is what it would know had no reload come that is refused. So each
/// further turn says the same.
pub fn refused_reloads_change_nothing_of_a_story()
    ensures { (conf : Configuration) (story : List Happening)
        → unsaid (behind (first conf) story) ≡ unsaid (behind (first conf) (without is_refused story)) }
{
    a_refused_reload_changes_nothing();
    after_each_turn_it_rests();
}

/// Whatever happens to a Gauge, it knows and gives what it would had no reload come.
pub fn reloads_change_nothing_of_a_gauge()
    ensures known { (m : Monitor) (story : List Happening) → anew (watched m story) ≡ anew (watched m (without is_reload story)) }
    ensures lines { (m : Monitor) (story : List Happening) → lines_of m story ≡ lines_of m (without is_reload story) }
{}

/// What a Gauge closes in a turn are just the connections that the happening gives cause to close, in order, each for its cause: with
/// bytes of an open connection that one, for a header or a frame that spells no message, flow statistics in which an entry is wrong, a
/// HELLO that doesn't speak OpenFlow 1.3, an ERROR, or features of a datapath that isn't configured or of an auxiliary connection, and
/// the older one of its datapath; with a moment those on which no byte came for 60 seconds.
pub fn each_closing_of_a_gauge_has_its_cause()
    ensures { (what : Happening) (m : Monitor) → closings (turn what m).said.world.said ≡ causes what m }
{}
