//! The laws: each function is empty, and its contract is the law.

ghost use Rattle.std.specs.Prelude.{◌≡◌, ◌↔◌, ℕ, List, ◌∷◌, ◌++◌, Ok};
ghost use Rattle.yaml_tree.specs.declared.tree.Pair.{Pair};
ghost use Rattle.yaml_tree.specs.declared.tree.Tree.{Tree};
ghost use Rattle.yaml_tree.specs.declared.tree.Tree.TheVariants as trees;
ghost use Rattle.yaml_subset.specs.Grammar.{Reads};
ghost use Rattle.conf_types.specs.Configuration.{Configuration};
ghost use Rattle.conf_check.specs.Accepted.{conf_of};
ghost use Rattle.law_documents.specs.Gives.{Gives};
ghost use Rattle.law_documents.specs.SameButOrder.{SameButOrder};

use conf_check::laws::an_accepted_configuration_is_valid;
use yaml_subset::laws::a_text_has_at_most_one_tree;

/// A document is the same but for the order of entries where two that stand side by side in one of its
/// maps change places; and what is so of two documents is so of both the other way round.
pub fn entries_may_change_places()
    ensures side_by_side { (before : List Pair) (p q : Pair) (behind : List Pair) → SameButOrder (trees.Map (before ++ p ∷ q ∷ behind)) (trees.Map (before ++ q ∷ p ∷ behind)) }
    ensures both_ways { (t u : Tree) → SameButOrder t u → SameButOrder u t }
{}

/// Two documents that are the same but for the order of entries give the same configuration, or neither
/// gives one.
pub fn the_order_of_entries_changes_no_configuration()
    ensures { (t u : Tree) (conf : Configuration) → SameButOrder t u → (conf_of t ≡ Ok conf) ↔ (conf_of u ≡ Ok conf) }
{
    an_accepted_configuration_is_valid();
}

/// So do two texts of such documents.
pub fn texts_with_entries_in_another_order_give_the_same_configuration()
    ensures { (text other : List ℕ) (t u : Tree) (conf : Configuration) → Reads text t → Reads other u → SameButOrder t u → Gives text conf ↔ Gives other conf }
{
    the_order_of_entries_changes_no_configuration();
    a_text_has_at_most_one_tree();
}
