//! The laws: each function is empty, and its contract is the law.

ghost use Rattle.std.specs.Prelude.{◌≡◌, None};
ghost use Rattle.yaml_tree.specs.declared.tree.Tree.{Tree};
ghost use Rattle.conf_shape.specs.declared.raw.RawConf.{RawConf};
ghost use Rattle.conf_shape.specs.Faults.{first_fault};
ghost use Rattle.conf_shape.specs.Raw.{raw_of};
ghost use Rattle.conf_resolve.specs.InRange.{IsInRange};
ghost use Rattle.law_checks.specs.Says.{Says};

/// Of a document with no fault each value of the raw configuration is in the range of its key, and the names
/// that are keys of one map are distinct.
pub fn a_document_of_the_right_shape_is_in_range()
    ensures { (t : Tree) → first_fault t ≡ None → IsInRange (raw_of t) }
{}

/// Of a document with no fault the raw configuration says each value that is written and has an effect, a
/// list item by item and a map entry by entry; and where a key isn't written, its default.
pub fn a_raw_configuration_says_what_is_written()
    ensures { (t : Tree) → first_fault t ≡ None → Says t (raw_of t) }
{}

/// No two raw configurations say what is written in a document, so of one with no fault only its own does.
pub fn no_other_raw_configuration_says_what_is_written()
    ensures { (t : Tree) (raw other : RawConf) → Says t raw → Says t other → raw ≡ other }
{}
