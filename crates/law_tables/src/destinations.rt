//! The law: the function calls the one that it stands on, and its contract is the law.

ghost use Rattle.conf_types.specs.declared.datapath.Dp.{Dp};
ghost use Rattle.conf_types.specs.Configuration.{Configuration};
ghost use Rattle.conf_types.specs.State.{State};
ghost use Rattle.plan_units.specs.Laws.{IsSetting, DestinationLaw};

/// A packet to a host of this datapath leaves by the host's port, one to a host elsewhere by the next hop of
/// the stack, and any other goes on.
pub fn table_7_sends_where_the_destination_is()
    ensures { (conf : Configuration) (now : State) (d : Dp) → IsSetting conf now d → DestinationLaw conf now d }
{
    packet_way::laws::the_stack_goes_over_ends_of_links();
}
