//! The laws: each function is empty, and its contract is the law.

ghost use Rattle.std.specs.Prelude.{◌≡◌, ◌↔◌, ℕ, List, None, Some};
ghost use Rattle.yaml_tree.specs.declared.tree.Pair.{Pair};
ghost use Rattle.yaml_tree.specs.declared.tree.Tree.{Tree};
ghost use Rattle.conf_shape.specs.declared.kinds.MapKind.{MapKind};
ghost use Rattle.conf_shape.specs.declared.refused.ConfFault.{ConfFault};
ghost use Rattle.conf_shape.specs.Faults.{first_fault};
ghost use Rattle.conf_shape.specs.Reads.{value_at, flag_at, number_at, text_at, default_flag, default_number, default_text};
ghost use Rattle.law_keys.specs.Causes.{IsFaultOf};
ghost use Rattle.law_keys.specs.Grammar.{IsOneOf, IsDocument};
ghost use Rattle.law_keys.specs.Tables.{Line, lines};

/// A document has no fault of its shape exactly where it is right by its keys.
pub fn a_document_has_no_fault_where_it_is_right_by_its_keys()
    ensures { (t : Tree) → (first_fault t ≡ None) ↔ IsDocument t }
{}

/// The fault that is told is exactly the first one by the keys: its path leads to it, its cause holds there,
/// and what stands before it is right.
pub fn a_fault_is_told_where_its_cause_holds()
    ensures { (t : Tree) (fault : ConfFault) → (first_fault t ≡ Some fault) ↔ IsFaultOf t fault }
{}

/// Where the key of a line isn't written, what stands is the default of the line, as a flag, a number, a text.
pub fn what_is_not_written_is_the_default_of_its_line()
    ensures flags { (m : MapKind) (l : Line) (pairs : List Pair) → IsOneOf (lines m) l → value_at l.key pairs ≡ None
        → flag_at m l.key pairs ≡ default_flag l.default }
    ensures numbers { (m : MapKind) (l : Line) (pairs : List Pair) → IsOneOf (lines m) l → value_at l.key pairs ≡ None
        → number_at m l.key pairs ≡ default_number l.default }
    ensures texts { (m : MapKind) (l : Line) (pairs : List Pair) (own : List ℕ) → IsOneOf (lines m) l → value_at l.key pairs ≡ None
        → text_at m l.key own pairs ≡ default_text own l.default }
{}
