//! Laws of the definitions: each function is empty, and its contract is the law.

ghost use Rattle.std.specs.Prelude.{◌^◌, ◌<◌, ℕ};
ghost use Rattle.of_match.specs.declared.packet.Packet.{Packet};
ghost use Rattle.of_match.specs.Shaped.{IsShaped};
ghost use Rattle.conf_types.specs.declared.datapath.Dp.{Dp};
ghost use Rattle.conf_types.specs.Configuration.{Configuration};
ghost use Rattle.conf_types.specs.State.{State};
ghost use Rattle.packet_way.specs.Description.{sends};
ghost use Rattle.plan_units.specs.Laws.{IsSetting, Sends, TableLaws};

/// Where each table does what is said of it, a plan sends each packet exactly as the configuration
/// describes, up to order, whichever of several best entries a switch takes.
pub fn tables_that_do_as_said_send_as_described()
    ensures { (conf : Configuration) (now : State) (d : Dp) → IsSetting conf now d → TableLaws conf now d
        → (port : ℕ) (p : Packet) → port < 2 ^ 32 → IsShaped p
        → Sends conf now d 0 port p (sends conf now d.id port p) }
{}
