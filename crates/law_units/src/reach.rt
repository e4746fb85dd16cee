//! The laws of what a change leaves as it was: a function's contract is the law, and its body is at most a call
//! of the laws that it rests on.

ghost use Rattle.std.specs.Prelude.{◌≡◌, ◌↔◌, ℕ, List, IsTrue, IsPermutation};
ghost use Rattle.conf_types.specs.declared.datapath.Dp.{Dp};
ghost use Rattle.conf_types.specs.Changes.{AreNamed};
ghost use Rattle.conf_types.specs.Configuration.{Configuration};
ghost use Rattle.conf_types.specs.State.{State};
ghost use Rattle.plan_units.specs.declared.unit.Unit.{Unit};
ghost use Rattle.plan_units.specs.declared.unit.Unit.TheVariants.{Route};
ghost use Rattle.plan_units.specs.Laws.{IsSetting};
ghost use Rattle.plan_units.specs.Units.{entries};
ghost use Rattle.conf_types.specs.declared.change.Change.{Change};
ghost use Rattle.law_units.specs.Reach.{IsInReach};
ghost use Rattle.law_units.specs.Reached.{is_reached};

/// Between two valid states of one configuration of which every difference is named, each unit of a datapath
/// outside the reach of the changes has the same entries, in the same order. The routes of a VLAN have the same
/// ones up to order: neighbours that were added in another order, each with the address that it had, differ in
/// nothing that could be named, and the entries that lead to them come in the order of the neighbours.
pub fn what_is_out_of_reach_stays()
    ensures units { (conf : Configuration) (old new : State) (d : Dp) (changes : List Change)
        → IsSetting conf old d → IsSetting conf new d → AreNamed conf old new changes
        → (u : Unit) → (IsInReach conf old new d changes u → ⊥) → ((vid : ℕ) → u ≡ Route vid → ⊥)
        → entries conf old d u ≡ entries conf new d u }
    ensures routes { (conf : Configuration) (old new : State) (d : Dp) (changes : List Change)
        → IsSetting conf old d → IsSetting conf new d → AreNamed conf old new changes
        → (vid : ℕ) → (IsInReach conf old new d changes (Route vid) → ⊥)
        → IsPermutation (entries conf old d (Route vid)) (entries conf new d (Route vid)) }
{
    conf_types::laws::a_group_has_the_least_identifier_that_is_joined();
    conf_types::laws::each_link_that_is_up_is_listed_once();
    law_paths::laws::paths_depend_on_their_own_part_alone();
}

/// Whether changes reach a unit can be tested, as what is counted or compiled by the reach needs it.
pub fn the_reach_is_told_by_a_test()
    ensures { (conf : Configuration) (old new : State) (d : Dp) (changes : List Change) (u : Unit)
        → IsTrue (is_reached conf old new d changes u) ↔ IsInReach conf old new d changes u }
{}
