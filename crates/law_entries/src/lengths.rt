//! The law: the function is empty, and its contract is the law.

ghost use Rattle.std.specs.List.{AllByRecursion};
ghost use Rattle.conf_types.specs.declared.datapath.Dp.{Dp};
ghost use Rattle.conf_types.specs.Configuration.{Configuration};
ghost use Rattle.conf_types.specs.State.{State};
ghost use Rattle.plan_units.specs.Laws.{IsSetting};
ghost use Rattle.plan_units.specs.Units.{plan};
ghost use Rattle.law_entries.specs.Short.{IsShort};

/// Each entry of a plan stands in one of the nine tables, and has at most 64 fields and 2,000 actions. Each field of a match and each action takes at
/// most 16 bytes (OpenFlow 1.3, 7.2.3.2 and 7.2.5), and an entry that a switch accepts has at most two
/// instructions. So a FLOW_MOD that adds the entry has fewer than the 65,535 bytes that the length in the header
/// of a message can say (7.1).
pub fn each_entry_is_short()
    ensures { (conf : Configuration) (now : State) (d : Dp) → IsSetting conf now d → AllByRecursion IsShort (plan conf now d) }
{}
