//! The law: the function calls those that it stands on, and its contract is the law.

ghost use Rattle.std.specs.Prelude.{◌^◌, ◌<◌, ℕ};
ghost use Rattle.of_match.specs.declared.packet.Packet.{Packet};
ghost use Rattle.of_match.specs.Shaped.{IsShaped};
ghost use Rattle.conf_types.specs.declared.datapath.Dp.{Dp};
ghost use Rattle.conf_types.specs.Configuration.{Configuration};
ghost use Rattle.conf_types.specs.State.{State};
ghost use Rattle.packet_way.specs.Description.{sends};
ghost use Rattle.plan_units.specs.Laws.{IsSetting, Sends};

/// The plan of a datapath of a valid configuration and state sends each packet, by each port, exactly as the
/// configuration describes, up to order, whichever of several best entries a switch takes.
pub fn a_plan_sends_each_packet_as_described()
    ensures { (conf : Configuration) (now : State) (d : Dp) → IsSetting conf now d
        → (port : ℕ) (p : Packet) → port < 2 ^ 32 → IsShaped p
        → Sends conf now d 0 port p (sends conf now d.id port p) }
{
    law_tables::acls::table_0_does_as_the_ports_say();
    law_tables::admission::table_1_admits_as_described();
    law_tables::acls::table_2_does_as_the_acls_of_vlans_say();
    law_tables::sources::table_3_does_as_the_source_says();
    law_tables::routes::tables_4_to_6_route_as_described();
    law_tables::destinations::table_7_sends_where_the_destination_is();
    law_tables::floods::table_8_floods_as_described();
    plan_units::laws::tables_that_do_as_said_send_as_described();
}
