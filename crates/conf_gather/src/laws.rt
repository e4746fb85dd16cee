//! Laws of the definitions alone, which say nothing of the code.

ghost use Rattle.std.specs.Prelude.{◌≡◌, ◌≤◌, ℕ, List, true, false, Some, Ok, Err};
ghost use Rattle.std.specs.List.{AllByRecursion};
ghost use Rattle.yaml_tree.specs.declared.tree.Tree.{Tree};
ghost use Rattle.yaml_tree.specs.declared.tree.Tree.TheVariants as tree;
ghost use Rattle.yaml_tree.specs.declared.tree.Pair.{Pair};
ghost use Rattle.yaml_subset.specs.declared.fault.YamlFault.{YamlFault};
ghost use Rattle.yaml_subset.specs.Grammar.{Reads};
ghost use Rattle.yaml_subset.specs.Reading.{read_of};
ghost use Rattle.yaml_subset.specs.TextFault.{IsFault};
ghost use Rattle.yaml_subset.specs.ReadBack.{is_sound};
ghost use Rattle.yaml_subset.specs.Levels.{levels};
ghost use Rattle.conf_gather.specs.Includes.{is_include_key};
ghost use Rattle.conf_gather.specs.Gathered.{Held, gathered};

/// What a file's text gives is its tree by the grammar or its first fault.
pub fn a_file_is_read_by_the_grammar()
    ensures tree { (text : List ℕ) (t : Tree) → Reads text t → read_of text ≡ Ok t }
    ensures only_tree { (text : List ℕ) (t : Tree) → read_of text ≡ Ok t → Reads text t }
    ensures fault { (text : List ℕ) (f : YamlFault) → IsFault text f → read_of text ≡ Err f }
    ensures only_fault { (text : List ℕ) (f : YamlFault) → read_of text ≡ Err f → IsFault text f }
{}

/// A gathered tree has maps whose keys differ, and nests at most 32 lists and maps, as the tree of one text.
pub fn a_gathered_tree_is_sound()
    ensures { (held : Held) (name : List ℕ) (t : Tree) → gathered held name ≡ Ok t → (is_sound t ≡ true) × (levels t ≤ 32) }
{}

/// A gathered tree is a map, and none of its keys is an include key.
pub fn a_gathered_tree_has_no_include_key()
    ensures { (held : Held) (name : List ℕ) (t : Tree) → gathered held name ≡ Ok t
        → (pairs : List Pair) × (t ≡ tree.Map pairs) × AllByRecursion (λ p. is_include_key p.key ≡ false) pairs }
{}

/// A file that includes no other gives its own entries.
pub fn a_file_without_includes_gives_its_own_entries()
    ensures { (held : Held) (name text : List ℕ) (pairs : List Pair) → held name ≡ Some text → Reads text (tree.Map pairs)
        → AllByRecursion (λ p. is_include_key p.key ≡ false) pairs → gathered held name ≡ Ok (tree.Map pairs) }
{}
