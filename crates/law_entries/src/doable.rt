//! The laws: the functions are empty, and their contracts are the laws.

ghost use Rattle.std.specs.List.{AllByRecursion};
ghost use Rattle.conf_types.specs.declared.datapath.Dp.{Dp};
ghost use Rattle.conf_types.specs.Configuration.{Configuration};
ghost use Rattle.conf_types.specs.State.{State};
ghost use Rattle.plan_units.specs.Laws.{IsSetting};
ghost use Rattle.plan_units.specs.Units.{plan};
ghost use Rattle.cold_start.specs.Cold.{cold};
ghost use Rattle.law_entries.specs.Whole.{SendsWhole};
ghost use Rattle.law_entries.specs.Doable.{CanBeDone};

/// Of a valid configuration and state, each output to the controller in the entries of a datapath asks for the
/// whole packet, of which the switch keeps nothing (OpenFlow 1.3, 7.2.5 and 7.4.1, OFPCML_NO_BUFFER), and every
/// other output has the `max_len` 0: in the plan, and in the cold start.
pub fn the_controller_gets_whole_packets()
    ensures plan { (conf : Configuration) (now : State) (d : Dp) → IsSetting conf now d
        → AllByRecursion SendsWhole (plan conf now d) }
    ensures cold { (conf : Configuration) (now : State) (d : Dp) → IsSetting conf now d
        → AllByRecursion SendsWhole (cold conf now d) }
{}

/// Of a valid configuration and state, each entry of a datapath can be done where it stands (OpenFlow 1.3, 5.1,
/// 7.2.4 and 7.2.5): it leads on to a later of the nine tables alone (`onward`), pushes tags of the type 0x8100
/// alone (`pushes`), sets nothing but Ethernet addresses and, where a tag is there, its VLAN (`sets`), to 12 bits
/// with OFPVID_PRESENT before them (`values`), lowers the TTL only where the match asks for IPv4 (`lowers`), and
/// pops only a tag that is there (`pops`). A tag is there where the match asks for one, or an action before has
/// pushed one, until it is popped. So in the plan, and in the cold start.
pub fn each_entry_can_be_done()
    ensures plan { (conf : Configuration) (now : State) (d : Dp) → IsSetting conf now d
        → AllByRecursion CanBeDone (plan conf now d) }
    ensures cold { (conf : Configuration) (now : State) (d : Dp) → IsSetting conf now d
        → AllByRecursion CanBeDone (cold conf now d) }
{}
