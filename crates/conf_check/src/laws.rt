//! The law: its contract is the law.

ghost use Rattle.std.specs.Prelude.{◌≡◌, Ok};
ghost use Rattle.yaml_tree.specs.declared.tree.Tree.{Tree};
ghost use Rattle.conf_types.specs.Configuration.{Configuration};
ghost use Rattle.conf_types.specs.Valid.{IsValid};
ghost use Rattle.conf_check.specs.Accepted.{conf_of};

use law_checks::ranges::a_document_of_the_right_shape_is_in_range;
use law_checks::valid::what_breaks_no_rule_is_valid;

/// What a document gives is valid.
pub fn an_accepted_configuration_is_valid()
    ensures { (t : Tree) (conf : Configuration) → conf_of t ≡ Ok conf → IsValid conf }
{
    a_document_of_the_right_shape_is_in_range();
    what_breaks_no_rule_is_valid();
}
