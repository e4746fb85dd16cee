//! The law: the function calls the one that it stands on, and its contract is the law.

ghost use Rattle.conf_types.specs.declared.datapath.Dp.{Dp};
ghost use Rattle.conf_types.specs.Configuration.{Configuration};
ghost use Rattle.conf_types.specs.State.{State};
ghost use Rattle.plan_units.specs.Laws.{IsSetting, FloodLaw};

/// A packet that is flooded leaves by each member of its VLAN and each port of the stack's tree, without its
/// tag where the VLAN is native, with a copy for each mirror, and back only with `hairpin`.
pub fn table_8_floods_as_described()
    ensures { (conf : Configuration) (now : State) (d : Dp) → IsSetting conf now d → FloodLaw conf now d }
{
    packet_way::laws::the_stack_goes_over_ends_of_links();
}
