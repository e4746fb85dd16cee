ghost use Rattle.std.specs.Prelude.{◌≡◌, ℕ, List, true, false, IfOk, IfSome, IfNone, OnOk};
ghost use Rattle.conf_check.specs.Accepted.{IsTextRefused};
ghost use Rattle.bgp_texts.specs.Taking.{text_of, text_given, IsAccepted};

use crate::taking::{taken_of, with_taken};
use bgp_routes::BgpRoute;
use conf_check::{TextRefused, conf_of_bytes};
use net_base::{Bytes, NoMemory};
use std::alloc::{AllocError, Global};
use yaml_subset::print_yaml;
use yaml_tree::{Key, Tree};

/// A text that is refused so gives no configuration, unless memory ran out.
fn is_none(refused: &TextRefused) -> Result<(), NoMemory>
    ensures { (text : List ℕ) → IsTextRefused text refused.now → OnOk result (IsAccepted text → ⊥) }
{
    match refused {
        TextRefused::Yaml(_) => Ok(()),
        TextRefused::Conf(_) => Ok(()),
        TextRefused::Memory => Err(AllocError),
    }
}

/// Whether a text gives a configuration.
fn is_accepted(alloc: Global, text: &[u8]) -> Result<bool, NoMemory>
    ensures yes { IfOk result (λ is. is ≡ true → IsAccepted text.now) }
    ensures no { IfOk result (λ is. is ≡ false → IsAccepted text.now → ⊥) }
{
    match conf_of_bytes(alloc, text) {
        Ok(_) => Ok(true),
        Err(refused) => {
            is_none(&refused)?;
            Ok(false)
        }
    }
}

/// The text of a document with the routes that the VLAN under a key takes of these, behind its own: each of
/// them, in their order, where the configuration with it, and with those taken before it, is accepted. `None`
/// exactly where this text gives no configuration: it is longer than a text may be, or the document gave none.
pub fn text_with(
    alloc: Global,
    tree: &Tree,
    vlan: &Key,
    routes: &[BgpRoute],
) -> Result<Option<Bytes>, NoMemory>
    ensures text { IfOk result (λ made. IfSome made (λ text. text ≡ text_of vlan.now tree.now routes.now)) }
    ensures accepted { IfOk result (λ made. IfSome made (λ text. IsAccepted text)) }
    ensures given { IfOk result (λ made. made ≡ text_given vlan.now tree.now routes.now) }
    ensures none { IfOk result (λ made. IfNone made (IsAccepted (text_of vlan.now tree.now routes.now) → ⊥)) }
{
    let taken = taken_of(alloc, tree, vlan, routes)?;
    let document = with_taken(alloc, tree, vlan, taken.as_slice())?;
    let text = print_yaml(alloc, &document)?;
    if is_accepted(alloc, text.as_slice())? {
        Ok(Some(text))
    } else {
        Ok(None)
    }
}
