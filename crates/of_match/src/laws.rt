//! Laws of the definitions: each function is empty, and its contract is the law.

ghost use Rattle.std.specs.Prelude.{◌≡◌, ◌↔◌, true};
ghost use Rattle.std.specs.declared.cmp.Ordering.TheVariants.{Equal};
ghost use Rattle.std.specs.Cmp.{IsTotalOrder};
ghost use Rattle.std.specs.Prelude.{List};
ghost use Rattle.of_match.specs.declared.action.Action.{Action};
ghost use Rattle.of_match.specs.declared.action.Instr.{Instr};
ghost use Rattle.of_match.specs.declared.entry.Command.{Command};
ghost use Rattle.of_match.specs.declared.entry.Entry.{Entry};
ghost use Rattle.of_match.specs.declared.entry.Key.{Key};
ghost use Rattle.of_match.specs.KeyOrder.{key_cmp};
ghost use Rattle.of_match.specs.Same.{action_same, instr_same, entry_same};
ghost use Rattle.of_match.specs.Settled.{after_all, Settles, AreOfDistinctKeys};

/// The order of keys is total, and only equal keys are equal in it.
#[tactic(auto, using(crate::specs::KeyLaws::key_order_laws))]
pub fn key_order_is_total()
    ensures total { IsTotalOrder key_cmp }
    ensures exact { (a : Key) (b : Key) → key_cmp a b ≡ Equal → a ≡ b }
{}

/// Commands of distinct keys, with no delete of all among them, settle to one result in every
/// order: to what they lead to in their own.
pub fn commands_of_distinct_keys_commute()
    ensures { (tables : List Entry) (commands : List Command) (settled : List Entry)
        → AreOfDistinctKeys commands → Settles tables commands settled
        → settled ≡ after_all tables commands }
{}

/// Actions, instructions and entries that are found to be the same are equal, and no others.
#[tactic(auto, using(crate::specs::Same::action_exact, crate::specs::Same::instr_exact, crate::specs::Same::entry_exact))]
pub fn what_is_the_same_is_equal()
    ensures actions { (a b : Action) → (action_same a b ≡ true) ↔ (a ≡ b) }
    ensures instrs { (i j : Instr) → (instr_same i j ≡ true) ↔ (i ≡ j) }
    ensures entries { (e f : Entry) → (entry_same e f ≡ true) ↔ (e ≡ f) }
{}
