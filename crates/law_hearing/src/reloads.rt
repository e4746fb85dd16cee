//! Reloads: the function is empty, and its contract is the law.

ghost use Rattle.std.specs.Prelude.{◌≡◌, ◌↔◌, ℕ, List, Ok, Err};
ghost use Rattle.yaml_tree.specs.declared.tree.Tree.{Tree};
ghost use Rattle.yaml_subset.specs.Grammar.{Reads};
ghost use Rattle.conf_types.specs.Configuration.{Configuration};
ghost use Rattle.conf_check.specs.Accepted.{conf_of};
ghost use Rattle.ctl_core.specs.Reloading.{accepted};
ghost use Rattle.law_hearing.specs.Refused.{IsRefusedFor};

use law_texts::texts::a_text_is_read_by_the_grammar;

/// A reload has exactly the configuration of the document that its text has by the grammar, and is refused exactly for the text's
/// fault or for that of its document.
pub fn a_reload_has_the_configuration_of_its_text()
    ensures accepted { (text : List ℕ) (conf : Configuration) → (accepted text ≡ Ok conf) ↔ ((t : Tree) × Reads text t × (conf_of t ≡ Ok conf)) }
    ensures refused { (text cause : List ℕ) → (accepted text ≡ Err cause) ↔ IsRefusedFor text cause }
{
    a_text_is_read_by_the_grammar();
}
