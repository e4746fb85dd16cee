//! Which neighbours are wanted because of packets, by the description's routing. The function is empty, and its contract is the
//! law.
#![tactic(auto)]

ghost use Rattle.std.specs.Prelude.{◌≡◌, ℕ, Some, true};
ghost use Rattle.conf_types.specs.declared.address.Ip.{Ip};
ghost use Rattle.conf_types.specs.declared.datapath.Dp.{Dp};
ghost use Rattle.conf_types.specs.declared.vlan.Vlan.{Vlan};
ghost use Rattle.conf_types.specs.Configuration.{vlan_with};
ghost use Rattle.pkt_view.specs.Frame.{FrameParts};
ghost use Rattle.plan_units.specs.Laws.{IsSetting};
ghost use Rattle.ctl_world.specs.World.{World, now};
ghost use Rattle.ctl_packets.specs.Packets.{destination, glean, is_for_gateway};
ghost use Rattle.law_gleaning.specs.Led.{LeadsIntoNetwork, WantsThere};

/// Of a packet in a VLAN, for its gateway, whose destination is an address of IPv4 or IPv6, in every valid configuration and state: where the
/// description's routing leads that address into a network, the neighbour with the address is wanted in the VLAN of that network
/// (`wanted`); where it leads elsewhere or nowhere, none is (`none_else`).
pub fn what_is_gleaned_is_where_routing_leads()
    ensures wanted { (w : World) (d : Dp) (vid : ℕ) (v : Vlan) (frame : FrameParts) (ip : Ip) → IsSetting w.conf (now w) d → vlan_with w.conf.vlans vid ≡ Some v
        → is_for_gateway v frame ≡ true → destination frame.upper ≡ Some ip → LeadsIntoNetwork w d.id vid ip → WantsThere w d.id vid frame ip }
    ensures none_else { (w : World) (d : Dp) (vid : ℕ) (v : Vlan) (frame : FrameParts) (ip : Ip) → IsSetting w.conf (now w) d → vlan_with w.conf.vlans vid ≡ Some v
        → destination frame.upper ≡ Some ip → (LeadsIntoNetwork w d.id vid ip → ⊥) → glean d.id vid frame w ≡ w }
{}
