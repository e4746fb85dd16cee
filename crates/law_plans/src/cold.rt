//! The law: the function calls those that it stands on, and its contract is the law.

ghost use Rattle.std.specs.Prelude.{◌^◌, ◌<◌, ℕ};
ghost use Rattle.of_match.specs.declared.packet.Packet.{Packet};
ghost use Rattle.of_match.specs.Shaped.{IsShaped};
ghost use Rattle.conf_types.specs.declared.datapath.Dp.{Dp};
ghost use Rattle.conf_types.specs.Configuration.{Configuration};
ghost use Rattle.conf_types.specs.State.{State};
ghost use Rattle.packet_way.specs.Description.{sends};
ghost use Rattle.law_runs.specs.Runs.{SendsJust};
ghost use Rattle.plan_units.specs.Laws.{IsSetting};
ghost use Rattle.cold_start.specs.Cold.{cold};

/// The cold start of a datapath of a valid configuration and state sends each packet, by each port, exactly
/// as the configuration describes, up to order, whichever of several best entries a switch takes.
pub fn a_cold_start_sends_each_packet_as_described()
    ensures { (conf : Configuration) (now : State) (d : Dp) → IsSetting conf now d
        → (port : ℕ) (p : Packet) → port < 2 ^ 32 → IsShaped p
        → SendsJust (cold conf now d) port 0 p (sends conf now d.id port p) }
{
    crate::plan::a_plan_sends_each_packet_as_described();
    cold_start::laws::a_cold_start_is_the_plan_in_key_order();
}
