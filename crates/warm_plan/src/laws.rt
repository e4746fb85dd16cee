//! What holds of the definitions. A function's contract is the law, and its body is at most a call of the
//! laws that it rests on.

ghost use Rattle.std.specs.Prelude.{◌≡◌, List, [], false};
ghost use Rattle.of_match.specs.declared.entry.Entry.{Entry};
ghost use Rattle.of_match.specs.declared.entry.Key.{Key};
ghost use Rattle.of_match.specs.Settled.{Settles};
ghost use Rattle.conf_types.specs.declared.datapath.Dp.{Dp};
ghost use Rattle.conf_types.specs.Changes.{AreNamed};
ghost use Rattle.conf_types.specs.Configuration.{Configuration};
ghost use Rattle.conf_types.specs.State.{State};
ghost use Rattle.plan_difference.specs.Difference.{difference};
ghost use Rattle.plan_units.specs.declared.unit.Unit.{Unit};
ghost use Rattle.plan_units.specs.Laws.{IsSetting};
ghost use Rattle.cold_start.specs.Cold.{cold, cold_at, units_of};
ghost use Rattle.conf_types.specs.declared.change.Change.{Change};
ghost use Rattle.warm_plan.specs.Kept.{Kept, IsKept};
ghost use Rattle.warm_plan.specs.Parts.{ArePartsOf, AreReached, AreTakenOut, parts_without, without_units, parts_with, with_units};

/// A switch that holds what it was sent, and does the commands that are taken, in any order, then holds
/// the cold start of what was handed in last (OpenFlow 1.3, 6.2).
pub fn a_switch_that_was_sent_all_holds_the_cold_start()
    ensures { (k : Kept) → IsKept k → k.is_spent ≡ false → (settled : List Entry)
        → Settles k.sent (difference k.sent k.wanted) settled → settled ≡ cold_at k.conf k.state k.dp }
{
    plan_difference::laws::a_difference_leads_from_one_plan_to_the_other();
}

/// The entries of all units, added unit by unit, are the cold start, and their keys are its parts.
pub(crate) fn all_units_make_the_cold_start()
    ensures wanted { (conf : Configuration) (now : State) (d : Dp) → IsSetting conf now d
        → with_units conf now d [] (units_of conf now d) ≡ cold conf now d }
    ensures parts { (conf : Configuration) (now : State) (d : Dp) → IsSetting conf now d
        → ArePartsOf (parts_with conf now d (λ _. []) (units_of conf now d)) (cold conf now d) }
{
    law_units::laws::each_entry_of_a_unit_is_owned_by_it();
    law_units::laws::the_units_of_a_datapath_make_its_cold_start();
    cold_start::laws::a_plan_is_that_of_its_units();
    cold_start::laws::a_cold_start_is_the_plan_in_key_order();
}

/// Where of a cold start the entries of the units that changes reach in the state before are taken out, and
/// those of the units that they reach in the state of now are added, it becomes the cold start of now; and so do
/// its parts.
pub(crate) fn what_is_made_again_is_the_cold_start()
    ensures wanted { (conf : Configuration) (old new : State) (d : Dp) (changes : List Change) (parts : Unit → List Key) (gone again : List Unit)
        → IsSetting conf old d → IsSetting conf new d → AreNamed conf old new changes → ArePartsOf parts (cold conf old d)
        → AreTakenOut conf old new d changes gone → AreReached conf old new d changes again
        → with_units conf new d (without_units parts (cold conf old d) gone) again ≡ cold conf new d }
    ensures parts { (conf : Configuration) (old new : State) (d : Dp) (changes : List Change) (parts : Unit → List Key) (gone again : List Unit)
        → IsSetting conf old d → IsSetting conf new d → AreNamed conf old new changes → ArePartsOf parts (cold conf old d)
        → AreTakenOut conf old new d changes gone → AreReached conf old new d changes again
        → ArePartsOf (parts_with conf new d (parts_without parts gone) again) (cold conf new d) }
{
    law_units::laws::each_entry_of_a_unit_is_owned_by_it();
    law_units::laws::the_units_of_a_datapath_make_its_cold_start();
    law_units::reach::what_is_out_of_reach_stays();
    law_units::reach::the_reach_is_told_by_a_test();
    cold_start::laws::the_keys_of_a_plan_are_distinct();
    cold_start::laws::a_plan_is_that_of_its_units();
    cold_start::laws::a_cold_start_is_the_plan_in_key_order();
}
