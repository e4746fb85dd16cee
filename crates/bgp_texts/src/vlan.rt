//! The VLAN of a number in a document.

ghost use Rattle.std.specs.Prelude.{◌≡◌, codes, IfOk};
ghost use Rattle.conf_shape.specs.Reads.{entries_of, entries_at};
ghost use Rattle.bgp_texts.specs.Trees.{is_number, is_of_vlan, vlan_key};

use conf_shape::{as_entries, value_at};
use net_base::{NoMemory, TryCopy, Vid};
use std::alloc::Global;
use yaml_tree::{Key, Pair, Tree};

fn is_number(tree: &Tree, vid: Vid) -> bool
    ensures { result ≡ is_number vid tree.now }
{
    match tree {
        Tree::Int(n) => *n == i128::from(vid.get()),
        _ => false,
    }
}

/// Whether an entry is that of the VLAN with this number: by its key, or by `vid` where that is a name.
fn is_of_vlan(pair: &Pair, vid: Vid) -> bool
    ensures { result ≡ is_of_vlan vid pair.now }
{
    match &pair.key {
        Key::Int(n) => *n == i128::from(vid.get()),
        Key::Text(_) => match value_at(as_entries(&pair.value), "vid") {
            Some(given) => is_number(given, vid),
            None => false,
        },
    }
}

/// The entries of `vlans`.
fn vlans_of(tree: &Tree) -> &[Pair]
    ensures { result.now ≡ entries_at (codes "vlans") (entries_of tree.now) }
{
    match value_at(as_entries(tree), "vlans") {
        Some(vlans) => as_entries(vlans),
        None => &[],
    }
}

/// The key under which the document has the VLAN with this number; `None` where it isn't written there.
pub fn vlan_key(alloc: Global, tree: &Tree, vid: Vid) -> Result<Option<Key>, NoMemory>
    ensures { IfOk result (λ key. key ≡ vlan_key vid tree.now) }
{
    match vlans_of(tree).iter().find(|pair| is_of_vlan(pair, vid)) {
        Some(pair) => Ok(Some(pair.key.copy(alloc)?)),
        None => Ok(None),
    }
}
