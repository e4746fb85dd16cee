//! The laws: each function is empty, and its contract is the law.

ghost use Rattle.conf_types.specs.declared.datapath.Dp.{Dp};
ghost use Rattle.conf_types.specs.Configuration.{Configuration};
ghost use Rattle.conf_types.specs.State.{State};
ghost use Rattle.plan_units.specs.Laws.{IsSetting, PortsLaw, VlanAclLaw};

/// A packet from a stack port goes on, and so does one from an edge port without ACLs. With ACLs the first
/// rule that hits decides where it is sent and whether it goes on; one that no rule hits ends, and so does
/// one from any other port.
pub fn table_0_does_as_the_ports_say()
    ensures { (conf : Configuration) (now : State) (d : Dp) → IsSetting conf now d → PortsLaw conf now d }
{}

/// A packet of a VLAN with ACLs is sent by the first rule that hits, and goes on where that allows it; one
/// that no rule hits ends.
pub fn table_2_does_as_the_acls_of_vlans_say()
    ensures { (conf : Configuration) (now : State) (d : Dp) → IsSetting conf now d → VlanAclLaw conf now d }
{}
