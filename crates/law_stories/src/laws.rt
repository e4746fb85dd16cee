//! What holds of all that can happen to a controller, of what it knows. A function's contract is the law, and
//! its body is at most calls of the laws that it rests on.

ghost use Rattle.std.specs.Prelude.{◌≡◌, ◌⊎◌, ◌<◌, List, Some, true, is_some};
ghost use Rattle.std.specs.List.{AllByRecursion};
ghost use Rattle.net_base.specs.declared.numbers.DpId.{DpId};
ghost use Rattle.fg_outside.specs.declared.hub.Happening.{Happening};
ghost use Rattle.of_match.specs.FlowTables.{IsInKeyOrder};
ghost use Rattle.conf_types.specs.Configuration.{Configuration};
ghost use Rattle.conf_types.specs.Lists.{EachBefore};
ghost use Rattle.conf_types.specs.State.{is_running};
ghost use Rattle.conf_types.specs.Valid.{IsValid};
ghost use Rattle.ctl_world.specs.declared.conns.Conn.{Conn};
ghost use Rattle.ctl_world.specs.Connections.{conn_of};
ghost use Rattle.ctl_world.specs.World.{IsSound, first, running};
ghost use Rattle.ctl_core.specs.Settlings.{IsAtRest, wanted};
ghost use Rattle.ctl_core.specs.Story.{behind};
ghost use Rattle.law_stories.specs.Grounds.{Grounds};

use cold_start::laws::a_cold_start_is_the_plan_in_key_order;
use conf_check::laws::an_accepted_configuration_is_valid;
use ctl_core::laws::{
    a_batch_leads_to_the_cold_start, a_batch_leaves_the_state, a_settling_leaves_it_at_rest,
    a_settling_leaves_nothing_waiting, alike_worlds_rest_alike, asks_leave_the_state,
    what_happens_keeps_connections_in_order,
};
use ctl_world::laws::{what_is_known_first_is_sound, what_is_said_is_alike};
use neighbour_resolve::laws::datapaths_are_asked_in_order;

/// What the laws on all that can happen rest on, in one place.
pub fn what_the_laws_rest_on()
    ensures { Grounds }
{
    what_is_known_first_is_sound();
    asks_leave_the_state();
    a_batch_leaves_the_state();
    an_accepted_configuration_is_valid();
    a_settling_leaves_nothing_waiting();
    a_settling_leaves_it_at_rest();
    a_cold_start_is_the_plan_in_key_order();
    a_batch_leads_to_the_cold_start();
    datapaths_are_asked_in_order();
}

/// Whatever happens to a controller that begins with a valid configuration, what it knows is sound: its
/// configuration is valid, all that it learned is valid by that, and no table holds more than it may.
pub fn whatever_happens_what_is_known_is_sound()
    ensures valid { (conf : Configuration) (story : List Happening) → IsValid conf → IsValid (behind (first conf) story).conf }
    ensures sound { (conf : Configuration) (story : List Happening) → IsValid conf → IsSound (behind (first conf) story) }
{
    what_the_laws_rest_on();
}

/// Whatever happens, and whatever the configuration is, the connections stand by number, so that no two have
/// the same, and the entries noted of each are in key order.
pub fn connections_stand_by_number()
    ensures numbers { (conf : Configuration) (story : List Happening) → EachBefore (λ a b. a.number < b.number) (behind (first conf) story).conns }
    ensures keys { (conf : Configuration) (story : List Happening) → AllByRecursion (λ c. IsInKeyOrder c.sent) (behind (first conf) story).conns }
{
    what_happens_keeps_connections_in_order();
}

/// Whatever happens, after each turn nothing is left to say: no neighbour is due, and nothing waits. So a
/// settling would change nothing.
pub fn after_each_turn_it_rests()
    ensures { (conf : Configuration) (story : List Happening) → IsAtRest (behind (first conf) story) }
{
    a_settling_leaves_it_at_rest();
    what_is_said_is_alike();
    alike_worlds_rest_alike();
}

/// Whatever happens, after each turn nothing waits: on the connection of each datapath that runs a barrier is
/// outstanding, or the entries noted as sent are those that the datapath is to have.
pub fn after_each_turn_nothing_waits()
    ensures { (conf : Configuration) (story : List Happening) (dp : DpId) → is_running (running (behind (first conf) story)) dp ≡ true
        → (c : Conn) → conn_of (behind (first conf) story).conns dp ≡ Some c
        → (is_some c.session.state.awaited ≡ true) ⊎ (c.sent ≡ wanted (behind (first conf) story) dp) }
{
    after_each_turn_it_rests();
}
