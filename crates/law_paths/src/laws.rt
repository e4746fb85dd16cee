//! The law: the function is empty, and its contract is the law.

ghost use Rattle.std.specs.Prelude.{◌≡◌, ℕ, Bool, true};
ghost use Rattle.net_base.specs.declared.numbers.DpId.{DpId};
ghost use Rattle.stack_paths.specs.Chosen.{distance_of, hop_of, is_tree_port};
ghost use Rattle.stack_paths.specs.Stack.{Stack};
ghost use Rattle.law_paths.specs.Part.{AreAlikeIn};

/// Two stacks of the same datapaths that have the same links within a part, from which no link of either leads
/// out, have the same distances and next hops from each datapath of the part, and the same tree ports of it.
pub fn paths_depend_on_their_own_part_alone()
    ensures distance { (is_in : DpId → Bool) (s t : Stack) → AreAlikeIn is_in s t
        → (a b : DpId) → is_in a ≡ true → distance_of s a b ≡ distance_of t a b }
    ensures hop { (is_in : DpId → Bool) (s t : Stack) → AreAlikeIn is_in s t
        → (a b : DpId) → is_in a ≡ true → hop_of s a b ≡ hop_of t a b }
    ensures tree { (is_in : DpId → Bool) (s t : Stack) → AreAlikeIn is_in s t
        → (d : DpId) (p : ℕ) → is_in d ≡ true → is_tree_port s d p ≡ is_tree_port t d p }
{}
