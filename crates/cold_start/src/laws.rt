//! What holds of every cold start. A function's contract is the law, and its body is at most a call of the
//! law that it rests on.

ghost use Rattle.std.specs.Prelude.{◌≡◌, List, [], ◌∷◌, map, Contains, IsPermutation};
ghost use Rattle.std.specs.List.{AllByRecursion, flat_map};
ghost use Rattle.of_match.specs.declared.entry.Command.TheVariants.{Add, DeleteAll};
ghost use Rattle.of_match.specs.declared.entry.Entry.{Entry};
ghost use Rattle.of_match.specs.FlowTables.{IsInKeyOrder};
ghost use Rattle.of_match.specs.Settled.{SettlesInTurn};
ghost use Rattle.conf_types.specs.declared.datapath.Dp.{Dp};
ghost use Rattle.conf_types.specs.Configuration.{Configuration};
ghost use Rattle.conf_types.specs.State.{State};
ghost use Rattle.plan_base.specs.Accepted.{IsFlowEntry, HaveDistinctKeys};
ghost use Rattle.plan_units.specs.declared.unit.Unit.{Unit};
ghost use Rattle.plan_units.specs.Laws.{IsSetting};
ghost use Rattle.plan_units.specs.Units.{entries, plan};
ghost use Rattle.cold_start.specs.Cold.{cold, units_of};

/// No two entries of the plan of a valid configuration and state have one key, so a switch holds each of
/// them (OpenFlow 1.3, 6.4).
pub fn the_keys_of_a_plan_are_distinct()
    ensures { (conf : Configuration) (now : State) (d : Dp) → IsSetting conf now d → HaveDistinctKeys (plan conf now d) }
{}

/// The entries of all units of a datapath are its plan, and two units have no key in common.
pub fn a_plan_is_that_of_its_units()
    ensures whole { (conf : Configuration) (now : State) (d : Dp) → IsSetting conf now d
        → plan conf now d ≡ flat_map (entries conf now d) (units_of conf now d) }
    ensures apart { (conf : Configuration) (now : State) (d : Dp) → IsSetting conf now d → (u w : Unit) → (u ≡ w → ⊥)
        → (e f : Entry) → Contains (entries conf now d u) e → Contains (entries conf now d w) f → e.key ≡ f.key → ⊥ }
{}

/// A cold start has the entries of the plan and no others, in key order, no two with one key.
pub fn a_cold_start_is_the_plan_in_key_order()
    ensures order { (conf : Configuration) (now : State) (d : Dp) → IsInKeyOrder (cold conf now d) }
    ensures same { (conf : Configuration) (now : State) (d : Dp) → IsSetting conf now d
        → IsPermutation (plan conf now d) (cold conf now d) }
{}

/// A switch accepts each entry: its match is in order, with what each field asks for before it, each
/// field has its bits and a mask only where it takes one, and its instructions are well formed
/// (OpenFlow 1.3, 7.2.3 and 7.2.4).
pub fn a_switch_accepts_each_entry()
    ensures { (conf : Configuration) (now : State) (d : Dp) → IsSetting conf now d
        → AllByRecursion IsFlowEntry (cold conf now d) }
{}

/// Whatever a switch held: after a wipe, a barrier, the adds of the cold start and a barrier it holds
/// exactly the cold start, in whichever order it does what stands between two barriers
/// (OpenFlow 1.3, 6.2).
pub fn a_switch_holds_the_cold_start()
    ensures { (conf : Configuration) (now : State) (d : Dp) (held settled : List Entry)
        → SettlesInTurn held ((DeleteAll ∷ []) ∷ map Add (cold conf now d) ∷ []) settled
        → settled ≡ cold conf now d }
{}
