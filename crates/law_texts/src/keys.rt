//! Keys: each function is empty, and its contract is the law.

ghost use Rattle.std.specs.Prelude.{◌≡◌, ◌↔◌, List, true};
ghost use Rattle.yaml_tree.specs.declared.tree.Key.{Key};
ghost use Rattle.yaml_tree.specs.declared.tree.Pair.{Pair};
ghost use Rattle.yaml_subset.specs.Entries.{key_eq, has_key};
ghost use Rattle.law_texts.specs.Keys.{HasKey};

/// Two keys are found the same exactly where they are one.
pub fn keys_are_found_the_same_where_they_are_one()
    ensures { (j k : Key) → (key_eq j k ≡ true) ↔ (j ≡ k) }
{}

/// Entries are found to have a key exactly where one of them has it.
pub fn entries_have_a_key_where_one_has_it()
    ensures { (pairs : List Pair) (k : Key) → (has_key pairs k ≡ true) ↔ HasKey pairs k }
{}
