ghost use Rattle.std.specs.Prelude.{◌≡◌, ℕ, List, Ok, IfOk, IfErr};
ghost use Rattle.yaml_tree.specs.declared.tree.Tree.{Tree};
ghost use Rattle.yaml_subset.specs.Grammar.{Reads};
ghost use Rattle.conf_types.specs.Valid.{IsValid};

use crate::checking::conf_of_tree;
use crate::laws::an_accepted_configuration_is_valid;
use conf_shape::{ConfFault, ConfRefused};
use conf_types::Conf;
use std::alloc::Global;
use yaml_subset::{YamlFault, YamlRefused, read_yaml};
use yaml_tree::Tree;

/// Why a text gives no configuration.
#[derive(Debug, Drop)]
pub enum TextRefused {
    /// It isn't a text of the YAML subset: its first fault.
    Yaml(YamlFault),
    /// Its document is no valid configuration: the first place where it is wrong.
    Conf(ConfFault),
    /// Memory ran out.
    Memory,
}

ghost use Rattle.conf_check.specs.Accepted.{conf_of, IsRefused, IsTextRefused};

fn refusal(refused: ConfRefused) -> TextRefused
    ensures { (text : List ℕ) (t : Tree) → Reads text t → IsRefused t refused → IsTextRefused text result }
{
    match refused {
        ConfRefused::At(fault) => TextRefused::Conf(fault),
        ConfRefused::Memory => TextRefused::Memory,
    }
}

fn of_tree(alloc: Global, tree: &Tree) -> Result<Conf, TextRefused>
    ensures accepted { IfOk result (λ conf. conf_of tree.now ≡ Ok conf) }
    ensures refused { IfErr result (λ refused. (text : List ℕ) → Reads text tree.now → IsTextRefused text refused) }
{
    match conf_of_tree(alloc, tree) {
        Ok(conf) => Ok(conf),
        Err(refused) => Err(refusal(refused)),
    }
}

/// The configuration of a text. Its first fault exactly where it has one: a fault of the YAML
/// subset, else a fault of the document's shape, and else the first rule that is broken.
pub fn conf_of_bytes(alloc: Global, text: &[u8]) -> Result<Conf, TextRefused>
    ensures accepted { IfOk result (λ conf. (t : Tree) × Reads text.now t × (conf_of t ≡ Ok conf)) }
    ensures refused { IfErr result (IsTextRefused text.now) }
    ensures valid { IfOk result (λ conf. IsValid conf) }
{
    an_accepted_configuration_is_valid();
    match read_yaml(alloc, text) {
        Ok(tree) => of_tree(alloc, &tree),
        Err(YamlRefused::At(fault)) => Err(TextRefused::Yaml(fault)),
        Err(YamlRefused::Memory) => Err(TextRefused::Memory),
    }
}
