//! What holds of the definitions. A function's contract is the law, and its body is at most a call of the
//! law that it rests on.

ghost use Rattle.std.specs.Prelude.{◌≡◌, ◌↔◌, ◌≤◌, List, [], Some, length};
ghost use Rattle.std.specs.List.{AllByRecursion};
ghost use Rattle.of_match.specs.declared.entry.Command.{Command};
ghost use Rattle.of_match.specs.declared.entry.Entry.{Entry};
ghost use Rattle.of_match.specs.FlowTables.{IsInKeyOrder, entry_at};
ghost use Rattle.of_match.specs.Settled.{after_all, key_of, Settles};
ghost use Rattle.plan_difference.specs.Difference.{difference};
ghost use Rattle.plan_difference.specs.Needed.{AscendByKey, IsNeeded, NameKeys};

/// A switch that holds the one plan and does the commands of the difference, in whichever order, then
/// holds the other (OpenFlow 1.3, 6.2).
pub fn a_difference_leads_from_one_plan_to_the_other()
    ensures { (from to settled : List Entry) → IsInKeyOrder from → IsInKeyOrder to
        → Settles from (difference from to) settled → settled ≡ to }
{
    of_match::laws::commands_of_distinct_keys_commute();
}

/// It has no command exactly where the plans are equal.
pub fn equal_plans_have_no_difference()
    ensures { (from to : List Entry) → IsInKeyOrder from → IsInKeyOrder to → (difference from to ≡ []) ↔ (from ≡ to) }
{}

/// Its commands stand in key order, each is needed, and none is about an entry that stands in both.
pub fn each_command_of_a_difference_is_needed()
    ensures ascending { (from to : List Entry) → IsInKeyOrder from → IsInKeyOrder to → AscendByKey (difference from to) }
    ensures needed { (from to : List Entry) → IsInKeyOrder from → IsInKeyOrder to
        → AllByRecursion (IsNeeded from to) (difference from to) }
    ensures untouched { (from to : List Entry) → IsInKeyOrder from → IsInKeyOrder to → (e : Entry)
        → entry_at from e.key ≡ Some e → entry_at to e.key ≡ Some e
        → AllByRecursion (λ c. key_of c ≡ Some e.key → ⊥) (difference from to) }
{}

/// No shorter list of adds and strict deletes leads from the one plan to the other.
pub fn a_difference_is_the_least_list()
    ensures { (from to : List Entry) → IsInKeyOrder from → IsInKeyOrder to → (commands : List Command)
        → NameKeys commands → after_all from commands ≡ to
        → length (difference from to) ≤ length commands }
{}
