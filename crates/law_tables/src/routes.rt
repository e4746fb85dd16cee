//! The law: the function is empty, and its contract is the law.

ghost use Rattle.conf_types.specs.declared.datapath.Dp.{Dp};
ghost use Rattle.conf_types.specs.Configuration.{Configuration};
ghost use Rattle.conf_types.specs.State.{State};
ghost use Rattle.plan_units.specs.Laws.{IsSetting, RoutingLaw};

/// A packet for a VLAN's gateway goes on by the longest prefix of the route list, from the gateway of the
/// neighbour's VLAN and with one hop less to live; what the controller answers goes to it, and everything
/// else for the gateway ends. Any other packet goes on as it is.
pub fn tables_4_to_6_route_as_described()
    ensures { (conf : Configuration) (now : State) (d : Dp) → IsSetting conf now d → RoutingLaw conf now d }
{}
