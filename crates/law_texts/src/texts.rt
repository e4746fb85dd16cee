//! Whole texts: each function is empty, and its contract is the law.

ghost use Rattle.std.specs.Prelude.{◌≡◌, ◌↔◌, ℕ, List, Ok, Err};
ghost use Rattle.yaml_tree.specs.declared.tree.Tree.{Tree};
ghost use Rattle.yaml_subset.specs.declared.blocks.State.{State};
ghost use Rattle.yaml_subset.specs.declared.blocks.State.TheVariants.{Start};
ghost use Rattle.yaml_subset.specs.declared.fault.YamlFault.{YamlFault};
ghost use Rattle.yaml_subset.specs.Blocks.{finish};
ghost use Rattle.yaml_subset.specs.Grammar.{Reads, ReadsLines};
ghost use Rattle.yaml_subset.specs.Printed.{printed};
ghost use Rattle.yaml_subset.specs.ReadBack.{IsSpelled};
ghost use Rattle.yaml_subset.specs.Reading.{read_of};
ghost use Rattle.yaml_subset.specs.TextFault.{IsFault, Lead};
ghost use Rattle.law_texts.specs.Opened.{LeavesOpen};
ghost use Rattle.law_texts.specs.TextFault.{HasFault};

/// Reading a text gives a tree exactly where the text has it by the grammar, and a fault exactly where it is the text's.
pub fn a_text_is_read_by_the_grammar()
    ensures tree { (text : List ℕ) (t : Tree) → (read_of text ≡ Ok t) ↔ Reads text t }
    ensures fault { (text : List ℕ) (f : YamlFault) → (read_of text ≡ Err f) ↔ IsFault text f }
    ensures refused { (text : List ℕ) → ((f : YamlFault) × IsFault text f) ↔ ((t : Tree) → Reads text t → ⊥) }
{}

/// The canonical text of a tree that a text spells has this tree by the grammar and no other, so that two such trees with one
/// canonical text are equal.
pub fn a_canonical_text_has_its_tree()
    ensures has { (t : Tree) → IsSpelled t → Reads (printed t) t }
    ensures alone { (t u : Tree) → IsSpelled t → Reads (printed t) u → u ≡ t }
    ensures one { (t u : Tree) → IsSpelled t → IsSpelled u → printed t ≡ printed u → t ≡ u }
{}

/// What lines leave open closes to a tree exactly where they have it by the grammar, and lines leave one thing open at most.
pub fn what_lines_leave_open_closes_to_their_tree()
    ensures tree { (before : List (List ℕ)) (t : Tree) → ReadsLines 32 before t ↔ ((end : State) × Lead Start before end × (finish end ≡ t)) }
    ensures one { (before : List (List ℕ)) (state a b : State) → Lead state before a → Lead state before b → a ≡ b }
{}

/// What lines leave open is exactly what the grammar says: the blocks that may go on with their finished entries, and the value
/// of the last one.
pub fn lines_leave_open_what_the_grammar_says()
    ensures { (before : List (List ℕ)) (end : State) → Lead Start before end ↔ LeavesOpen before end }
{}

/// A text has a fault exactly where it has it by the grammar alone, and reading it gives exactly this fault.
pub fn a_text_has_its_fault_by_the_grammar()
    ensures fault { (text : List ℕ) (f : YamlFault) → IsFault text f ↔ HasFault text f }
    ensures read { (text : List ℕ) (f : YamlFault) → (read_of text ≡ Err f) ↔ HasFault text f }
{}
