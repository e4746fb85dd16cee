//! What holds of the definitions. The functions do nothing: their contracts are the laws.

ghost use Rattle.std.specs.Prelude.{◌≡◌, ◌++◌, ℕ, true, false, Bool, List, [], Some, None, option_and_then, slice_get};
ghost use Rattle.std.specs.Option.{option_map_or};
ghost use Rattle.net_base.specs.declared.numbers.DpId.{DpId};
ghost use Rattle.fg_outside.specs.declared.hub.EndCause.{EndCause};
ghost use Rattle.fg_outside.specs.declared.hub.Happening.{Happening};
ghost use Rattle.fg_outside.specs.declared.hub.Happening.TheVariants.{Opened, Heard, Closed, Moment as Shown, Reload};
ghost use Rattle.conf_types.specs.declared.datapath.Dp.{Dp};
ghost use Rattle.gauge_conf.specs.declared.gauge.GaugeConf.{GaugeConf};
ghost use Rattle.gauge_conf.specs.declared.gauge.Watcher.{Watcher};
ghost use Rattle.of13_codec.specs.declared.message.Message.{Message};
ghost use Rattle.of13_codec.specs.declared.ports.PortStats.{PortStats};
ghost use Rattle.flow_stats.specs.declared.flow.Flow.{Flow};
ghost use Rattle.prom_text.specs.Blocks.{flow_block, port_block};
ghost use Rattle.ctl_world.specs.declared.conns.Conn.{Conn};
ghost use Rattle.ctl_world.specs.Connections.{conn_of, conn_with, is_open};
ghost use Rattle.ctl_life.specs.Silence.{show};
ghost use Rattle.gauge_poll.specs.declared.telling.Telling.{Telling};
ghost use Rattle.gauge_poll.specs.Apart.{AreApart};
ghost use Rattle.gauge_poll.specs.Due.{last_polled, looked_at};
ghost use Rattle.gauge_poll.specs.Lines.{few_flows, few_ports, told_lines};
ghost use Rattle.gauge_poll.specs.Monitoring.{Monitor, begun, behind, hear_frame, hear_message, lines_on, turn};
ghost use Rattle.gauge_poll.specs.Polls.{Said, is_due, polls_dp};
ghost use Rattle.gauge_poll.specs.Requests.{AreAsked, found_polls};
ghost use Rattle.gauge_poll.specs.Telling.{is_telling};

use prom_text::laws::what_doesnt_count_may_go;

/// No turn but one with bytes of an open connection gives a line or a block; a message gives those that it
/// tells (`told_lines`) where its connection's datapath runs, and those alone; and none tells any but a reply
/// with counters of ports or of flow entries, and a PORT_STATUS.
pub fn a_turn_gives_lines_for_what_is_heard_alone()
    ensures opened { (number : ℕ) (m : Monitor) → (turn (Opened number) m).lines ≡ [] }
    ensures closed { (number : ℕ) (cause : EndCause) (m : Monitor) → (turn (Closed number cause) m).lines ≡ [] }
    ensures shown { (moment : ℕ) (m : Monitor) → (turn (Shown moment) m).lines ≡ [] }
    ensures reloaded { (text : List ℕ) (m : Monitor) → (turn (Reload text) m).lines ≡ [] }
    ensures shut { (number : ℕ) (piece : List ℕ) (m : Monitor) → is_open m.said.world.conns number ≡ false → (turn (Heard number piece) m).lines ≡ [] }
    ensures message { (msg : Message) (xid number : ℕ) (m : Monitor) → (hear_message msg xid number m).lines ≡ m.lines ++ lines_on msg xid number m }
    ensures no_message { (number : ℕ) (m : Monitor) → (hear_frame None number m).lines ≡ m.lines }
    ensures others { (place : ℕ) (ws : List Watcher) (s : Said) (conn : ℕ) (told : Telling) (xid : ℕ) (d : Dp)
        → is_telling told ≡ false → told_lines place ws s conn told xid d ≡ [] }
{}

/// In every story, polls of one watcher on one connection, since that was opened, lie at least its interval
/// apart.
pub fn polls_are_an_interval_apart()
    ensures { (g : GaugeConf) (story : List Happening) → AreApart (begun g).watchers (behind (begun g) story).said.polls }
{}

/// A poll that is due comes at the first Moment: where a watcher polls a datapath that runs on a connection
/// once the connections were looked after, and its poll on that is due then, its newest poll on it is of
/// this turn behind it.
pub fn a_due_poll_comes()
    ensures { (moment place : ℕ) (m : Monitor) (w : Watcher) (dp : DpId) (c : Conn)
        → slice_get m.watchers place ≡ Some w → polls_dp w dp ≡ true
        → conn_of (looked_at moment m).world.conns dp ≡ Some c → is_due w place c.number (looked_at moment m) ≡ true
        → last_polled c.number place (turn (Shown moment) m).said ≡ Some (show moment m.said.world).moment }
{}

/// The polls that a turn adds are the requests for counters that it says, in order: each on its connection,
/// of all ports or of all flow entries by its kind, and with its transaction id. No other request for
/// counters is said.
pub fn polls_are_the_requests_that_are_said()
    ensures { (what : Happening) (m : Monitor) → AreAsked (found_polls what m) (turn what m).said }
{}

/// What is left out of what waits counts in no block: a block of what waits and of a last part is that of all
/// items that came.
pub fn what_waits_gives_the_block_of_all()
    ensures ports { (d : Dp) (xs ys : List PortStats) → port_block d (few_ports xs ++ ys) ≡ port_block d (xs ++ ys) }
    ensures flows { (d : Dp) (xs ys : List Flow) → flow_block d (few_flows xs ++ ys) ≡ flow_block d (xs ++ ys) }
{
    what_doesnt_count_may_go();
}
