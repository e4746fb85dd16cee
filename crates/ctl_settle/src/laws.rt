//! What holds of the definitions. A function's contract is the law, and its body is at most calls of the
//! laws that it rests on.

ghost use Rattle.std.specs.Prelude.{◌≡◌, ◌⊎◌, ◌↔◌, ◌<◌, ◌≤◌, ℕ, List, [], Some, true, is_some, length};
ghost use Rattle.std.specs.List.{AllByRecursion};
ghost use Rattle.net_base.specs.declared.numbers.DpId.{DpId};
ghost use Rattle.of_match.specs.declared.entry.Command.{Command};
ghost use Rattle.of_match.specs.declared.entry.Entry.{Entry};
ghost use Rattle.of_match.specs.FlowTables.{IsInKeyOrder};
ghost use Rattle.of_match.specs.Settled.{Settles, after_all};
ghost use Rattle.conf_types.specs.Lists.{EachBefore};
ghost use Rattle.conf_types.specs.State.{is_running};
ghost use Rattle.plan_difference.specs.Difference.{difference};
ghost use Rattle.plan_difference.specs.Needed.{AscendByKey, IsNeeded, NameKeys};
ghost use Rattle.ctl_world.specs.declared.conns.Conn.{Conn};
ghost use Rattle.ctl_world.specs.Alike.{IsAlike};
ghost use Rattle.ctl_world.specs.Connections.{conn_of};
ghost use Rattle.ctl_world.specs.World.{IsSound, World, running};
ghost use Rattle.ctl_settle.specs.declared.plans.Held.{Held};
ghost use Rattle.ctl_settle.specs.Asked.{IsLost, all_asked};
ghost use Rattle.ctl_settle.specs.Names.{Names};
ghost use Rattle.ctl_settle.specs.Plans.{AreBrought, AreHeld, IsReady, with_batch};
ghost use Rattle.ctl_settle.specs.Rest.{AreInOrder, IsAtRest, NoneIsOver, RestsUntil};
ghost use Rattle.ctl_settle.specs.Settling.{ask_all, batch, settle, wanted};

use cold_start::laws::a_cold_start_is_the_plan_in_key_order;
use ctl_world::laws::{such_changes_leave_it_sound, what_is_said_leaves_it_sound};
pub use law_names::steps::strangers_change_nothing;
use neighbour_resolve::laws::{
    a_settling_ends, datapaths_are_asked_in_order, what_is_left_is_valid,
};
use plan_difference::laws::{
    a_difference_is_the_least_list, a_difference_leads_from_one_plan_to_the_other,
    each_command_of_a_difference_is_needed, equal_plans_have_no_difference,
};

/// Asks leave what was learned valid.
pub fn asks_leave_the_state()
    ensures { (w : World) → IsSound w → IsSound (ask_all w) }
{
    what_is_said_leaves_it_sound();
    what_is_left_is_valid();
}

/// What asks touch was known before them and isn't behind them (`lost`), and nothing else differs there (`named`).
pub fn what_asks_touch_was_known()
    ensures lost { (w : World) → IsSound w → AllByRecursion (IsLost w (ask_all w)) (all_asked w) }
    ensures named { (w : World) → IsSound w → Names w (ask_all w) (all_asked w) }
{
    what_is_said_leaves_it_sound();
    what_is_left_is_valid();
}

/// A batch leaves what was learned valid.
pub fn a_batch_leaves_the_state()
    ensures { (w : World) (dp : DpId) → IsSound w → IsSound (batch dp w) }
{
    what_is_said_leaves_it_sound();
    such_changes_leave_it_sound();
}

/// A batch leaves the plans as they are kept, with that of its datapath taken; and it leaves the connections in order,
/// and which datapaths run.
pub(crate) fn a_batch_keeps_the_plans()
    ensures ready { (dp : DpId) (w : World) (held : List Held) → AreInOrder w → AreBrought w held → is_running (running w) dp ≡ true → IsReady w held dp }
    ensures brought { (dp : DpId) (w : World) (held : List Held) → AreInOrder w → AreBrought w held → is_running (running w) dp ≡ true
        → AreBrought (batch dp w) (with_batch dp w held) }
    ensures in_order { (dp : DpId) (w : World) → AreInOrder w → AreInOrder (batch dp w) }
    ensures running { (dp : DpId) (w : World) → running (batch dp w) ≡ running w }
{
    a_cold_start_is_the_plan_in_key_order();
    equal_plans_have_no_difference();
}

/// Worlds that look the same to a settling have the same plans.
pub fn alike_worlds_have_the_same_plans()
    ensures { (v w : World) (held : List Held) → IsAlike v w → AreHeld w held → AreHeld v held }
{}

/// Where a turn has settled, nothing waits: each running datapath has a barrier outstanding, or the entries
/// that it is to have. The connections stand by number and what was noted of each is in key order, before
/// and after.
pub fn a_settling_leaves_nothing_waiting()
    ensures done { (w : World) → EachBefore (λ a b. a.number < b.number) w.conns → AllByRecursion (λ c. IsInKeyOrder c.sent) w.conns
        → (dp : DpId) → is_running (running (settle w)) dp ≡ true → (c : Conn) → conn_of (settle w).conns dp ≡ Some c
        → (is_some c.session.state.awaited ≡ true) ⊎ (c.sent ≡ wanted (settle w) dp) }
    ensures numbers { (w : World) → EachBefore (λ a b. a.number < b.number) w.conns → AllByRecursion (λ c. IsInKeyOrder c.sent) w.conns
        → EachBefore (λ a b. a.number < b.number) (settle w).conns }
    ensures keys { (w : World) → EachBefore (λ a b. a.number < b.number) w.conns → AllByRecursion (λ c. IsInKeyOrder c.sent) w.conns
        → AllByRecursion (λ c. IsInKeyOrder c.sent) (settle w).conns }
{
    a_cold_start_is_the_plan_in_key_order();
    equal_plans_have_no_difference();
    datapaths_are_asked_in_order();
}

/// Where a turn has settled, no neighbour is due, and each running datapath has a barrier outstanding or
/// the entries that it is to have. The connections stay in order.
pub fn a_settling_leaves_it_at_rest()
    ensures rests { (w : World) → AreInOrder w → IsAtRest (settle w) }
    ensures in_order { (w : World) → AreInOrder w → AreInOrder (settle w) }
{
    a_settling_ends();
    a_cold_start_is_the_plan_in_key_order();
    equal_plans_have_no_difference();
    datapaths_are_asked_in_order();
}

/// Where a world rests a settling says nothing and changes nothing.
pub fn what_rests_settles_as_it_is()
    ensures { (w : World) → IsAtRest w → settle w ≡ w }
{
    a_cold_start_is_the_plan_in_key_order();
    equal_plans_have_no_difference();
    datapaths_are_asked_in_order();
}

/// A world rests where one that looks the same to a settling does, and as long.
pub fn alike_worlds_rest_alike()
    ensures rest { (v w : World) → IsAlike v w → IsAtRest w → IsAtRest v }
    ensures until { (moment : ℕ) (v w : World) → IsAlike v w → RestsUntil moment w → RestsUntil moment v }
    ensures none_over { (v w : World) → IsAlike v w → NoneIsOver w → NoneIsOver v }
{}

/// A switch that holds the entries noted and does the commands of a batch, in whichever order, then holds
/// those that its datapath is to have (OpenFlow 1.3, 6.2).
pub fn a_batch_leads_to_the_cold_start()
    ensures { (w : World) (dp : DpId) (c : Conn) (settled : List Entry) → IsInKeyOrder c.sent
        → Settles c.sent (difference c.sent (wanted w dp)) settled → settled ≡ wanted w dp }
{
    a_cold_start_is_the_plan_in_key_order();
    a_difference_leads_from_one_plan_to_the_other();
}

/// The commands of a batch stand in key order, and each is needed. There are none exactly where the switch
/// has the entries that it is to have, and no shorter list of adds and strict deletes leads there.
pub fn a_batch_says_the_least()
    ensures ascending { (w : World) (dp : DpId) (c : Conn) → IsInKeyOrder c.sent → AscendByKey (difference c.sent (wanted w dp)) }
    ensures needed { (w : World) (dp : DpId) (c : Conn) → IsInKeyOrder c.sent
        → AllByRecursion (IsNeeded c.sent (wanted w dp)) (difference c.sent (wanted w dp)) }
    ensures none { (w : World) (dp : DpId) (c : Conn) → IsInKeyOrder c.sent
        → (difference c.sent (wanted w dp) ≡ []) ↔ (c.sent ≡ wanted w dp) }
    ensures least { (w : World) (dp : DpId) (c : Conn) → IsInKeyOrder c.sent → (commands : List Command)
        → NameKeys commands → after_all c.sent commands ≡ wanted w dp
        → length (difference c.sent (wanted w dp)) ≤ length commands }
{
    a_cold_start_is_the_plan_in_key_order();
    each_command_of_a_difference_is_needed();
    equal_plans_have_no_difference();
    a_difference_is_the_least_list();
}
