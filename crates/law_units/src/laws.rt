//! The laws. A function's contract is the law, and its body is at most a call of the laws that it rests on.

ghost use Rattle.std.specs.Prelude.{◌≡◌, Some, Contains, IsPermutation};
ghost use Rattle.std.specs.List.{AllByRecursion, flat_map};
ghost use Rattle.of_match.specs.declared.entry.Entry.{Entry};
ghost use Rattle.conf_types.specs.declared.datapath.Dp.{Dp};
ghost use Rattle.conf_types.specs.Configuration.{Configuration};
ghost use Rattle.conf_types.specs.Lists.{AreDistinct};
ghost use Rattle.conf_types.specs.State.{State};
ghost use Rattle.plan_units.specs.declared.unit.Unit.{Unit};
ghost use Rattle.plan_units.specs.Laws.{HasAddresses, IsSetting};
ghost use Rattle.plan_units.specs.Units.{entries};
ghost use Rattle.cold_start.specs.Cold.{cold, units_of};
ghost use Rattle.law_units.specs.Owner.{owner};

/// Each entry of a unit is owned by that unit, of any datapath, configuration and state whose addresses have
/// six bytes, as each `Mac` has.
pub fn each_entry_of_a_unit_is_owned_by_it()
    ensures { (conf : Configuration) (now : State) (d : Dp) → HasAddresses now → (u : Unit)
        → AllByRecursion (λ e. owner e.key ≡ Some u) (entries conf now d u) }
{
    net_base::laws::a_mac_is_its_value();
}

/// Two units have no key in common, be it in one state or in two, of one configuration or of two.
pub fn two_units_have_no_key_in_common()
    ensures { (conf next : Configuration) (now later : State) (d other : Dp) → HasAddresses now → HasAddresses later
        → (u w : Unit) → (u ≡ w → ⊥)
        → (e f : Entry) → Contains (entries conf now d u) e → Contains (entries next later other w) f → e.key ≡ f.key → ⊥ }
{
    each_entry_of_a_unit_is_owned_by_it();
}

/// The units of a datapath are listed once each (`once`), the entries of all of them are its cold start, up to
/// order (`whole`), and a unit that has an entry is listed (`listed`).
pub fn the_units_of_a_datapath_make_its_cold_start()
    ensures once { (conf : Configuration) (now : State) (d : Dp) → IsSetting conf now d → AreDistinct (units_of conf now d) }
    ensures whole { (conf : Configuration) (now : State) (d : Dp) → IsSetting conf now d
        → IsPermutation (flat_map (entries conf now d) (units_of conf now d)) (cold conf now d) }
    ensures listed { (conf : Configuration) (now : State) (d : Dp) (u : Unit) (e : Entry)
        → Contains (entries conf now d u) e → Contains (units_of conf now d) u }
{
    cold_start::laws::a_plan_is_that_of_its_units();
    cold_start::laws::a_cold_start_is_the_plan_in_key_order();
}
