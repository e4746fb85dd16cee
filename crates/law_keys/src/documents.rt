//! The law: the function is empty, and its contract is the law.

ghost use Rattle.std.specs.Prelude.{◌≡◌, ◌↔◌, Ok, Err};
ghost use Rattle.yaml_tree.specs.declared.tree.Tree.{Tree};
ghost use Rattle.conf_types.specs.Configuration.{Configuration};
ghost use Rattle.conf_shape.specs.declared.refused.ConfFault.{ConfFault};
ghost use Rattle.conf_check.specs.Accepted.{conf_of};
ghost use Rattle.law_keys.specs.Means.{Means, IsRefusedFor};

use crate::keys::{
    a_document_has_no_fault_where_it_is_right_by_its_keys, a_fault_is_told_where_its_cause_holds,
};
use law_checks::ranges::{
    a_raw_configuration_says_what_is_written, no_other_raw_configuration_says_what_is_written,
};

/// A document gives a configuration exactly where it is right by its keys and breaks no rule, and the configuration
/// is what is written in it and the defaults of the rest stand for. It is refused exactly for its first fault by its
/// keys, or, where it is right, for the first place where a rule is broken.
pub fn a_document_gives_what_it_means()
    ensures accepted { (t : Tree) (conf : Configuration) → (conf_of t ≡ Ok conf) ↔ Means t conf }
    ensures refused { (t : Tree) (fault : ConfFault) → (conf_of t ≡ Err fault) ↔ IsRefusedFor t fault }
{
    a_document_has_no_fault_where_it_is_right_by_its_keys();
    a_fault_is_told_where_its_cause_holds();
    a_raw_configuration_says_what_is_written();
    no_other_raw_configuration_says_what_is_written();
}
