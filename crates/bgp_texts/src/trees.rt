//! A document whose VLAN has further routes.

ghost use Rattle.std.specs.Prelude.{◌≡◌, ◌++◌, map, IfOk, OnOk};
ghost use Rattle.yaml_tree.specs.declared.tree.Tree.TheVariants.{List as Listed};
ghost use Rattle.yaml_subset.specs.Entries.{key_eq};
ghost use Rattle.conf_shape.specs.Reads.{items_of};
ghost use Rattle.bgp_texts.specs.Trees.{longer, has_routes, with_items, in_vlan, in_vlans, with_routes, has_entry, has_vlan};

use crate::items::{entry, push_copies, route_items};
use bgp_routes::BgpRoute;
use conf_shape::{as_entries, is_key};
use net_base::{NoMemory, TryCopy};
use std::alloc::Global;
use yaml_tree::{Key, Pair, Pairs, Tree, Trees};

/// Whether two keys are one: their types are alike, and their values.
fn key_eq(a: &Key, b: &Key) -> bool
    ensures { result ≡ key_eq a.now b.now }
{
    match (a, b) {
        (Key::Int(m), Key::Int(n)) => *m == *n,
        (Key::Text(s), Key::Text(t)) => s.as_str() == t.as_str(),
        _ => false,
    }
}

/// A list, and further items behind its own.
fn longer_list(alloc: Global, list: &Tree, items: &[Tree]) -> Result<Tree, NoMemory>
    ensures { IfOk result (λ made. made ≡ Listed (items_of list.now ++ items.now)) }
{
    let mut made = Trees::new(alloc);
    if let Tree::List(own) = list {
        push_copies(alloc, &mut made, own.as_slice())?;
    }
    push_copies(alloc, &mut made, items)?;
    Ok(Tree::List(made))
}

/// An entry of the VLAN, whose list is longer where it is the one of routes.
fn longer(alloc: Global, pair: &Pair, items: &[Tree]) -> Result<Pair, NoMemory>
    ensures { IfOk result (λ made. made ≡ longer items.now pair.now) }
{
    if !is_key("routes", &pair.key) {
        return pair.copy(alloc);
    }
    Ok(Pair {
        key: pair.key.copy(alloc)?,
        value: longer_list(alloc, &pair.value, items)?,
    })
}

fn all_longer(alloc: Global, pairs: &[Pair], items: &[Tree]) -> Result<Pairs, NoMemory>
    ensures { IfOk result (λ made. made ≡ map (longer items.now) pairs.now) }
{
    let mut made = Pairs::new(alloc);
    for pair in pairs {
        made.push(longer(alloc, pair, items)?)?;
    }
    Ok(made)
}

fn has_routes(pairs: &[Pair]) -> bool
    ensures { result ≡ has_routes pairs.now }
{
    pairs.iter().any(|pair| is_key("routes", &pair.key))
}

fn push_pairs(alloc: Global, pairs: &mut Pairs, more: &[Pair]) -> Result<(), NoMemory>
    ensures { OnOk result (pairs.new ≡ pairs.old ++ more.now) }
{
    for pair in more {
        pairs.push(pair.copy(alloc)?)?;
    }
    Ok(())
}

/// The entries of a VLAN with further routes.
fn with_items(alloc: Global, pairs: &[Pair], items: &[Tree]) -> Result<Pairs, NoMemory>
    ensures { IfOk result (λ made. made ≡ with_items items.now pairs.now) }
{
    if has_routes(pairs) {
        return all_longer(alloc, pairs, items);
    }
    let mut list = Trees::new(alloc);
    push_copies(alloc, &mut list, items)?;
    let mut made = Pairs::new(alloc);
    push_pairs(alloc, &mut made, pairs)?;
    made.push(entry(alloc, "routes", Tree::List(list))?)?;
    Ok(made)
}

fn in_vlan(alloc: Global, pair: &Pair, vlan: &Key, items: &[Tree]) -> Result<Pair, NoMemory>
    ensures { IfOk result (λ made. made ≡ in_vlan vlan.now items.now pair.now) }
{
    if !key_eq(&pair.key, vlan) {
        return pair.copy(alloc);
    }
    Ok(Pair {
        key: pair.key.copy(alloc)?,
        value: Tree::Map(with_items(alloc, as_entries(&pair.value), items)?),
    })
}

fn all_in_vlan(alloc: Global, pairs: &[Pair], vlan: &Key, items: &[Tree]) -> Result<Pairs, NoMemory>
    ensures { IfOk result (λ made. made ≡ map (in_vlan vlan.now items.now) pairs.now) }
{
    let mut made = Pairs::new(alloc);
    for pair in pairs {
        made.push(in_vlan(alloc, pair, vlan, items)?)?;
    }
    Ok(made)
}

fn in_vlans(alloc: Global, pair: &Pair, vlan: &Key, items: &[Tree]) -> Result<Pair, NoMemory>
    ensures { IfOk result (λ made. made ≡ in_vlans vlan.now items.now pair.now) }
{
    if !is_key("vlans", &pair.key) {
        return pair.copy(alloc);
    }
    Ok(Pair {
        key: pair.key.copy(alloc)?,
        value: Tree::Map(all_in_vlan(alloc, as_entries(&pair.value), vlan, items)?),
    })
}

fn all_in_vlans(
    alloc: Global,
    pairs: &[Pair],
    vlan: &Key,
    items: &[Tree],
) -> Result<Pairs, NoMemory>
    ensures { IfOk result (λ made. made ≡ map (in_vlans vlan.now items.now) pairs.now) }
{
    let mut made = Pairs::new(alloc);
    for pair in pairs {
        made.push(in_vlans(alloc, pair, vlan, items)?)?;
    }
    Ok(made)
}

/// The document with these routes behind those of the VLAN under this key.
pub(crate) fn with_routes(
    alloc: Global,
    tree: &Tree,
    vlan: &Key,
    routes: &[BgpRoute],
) -> Result<Tree, NoMemory>
    ensures { IfOk result (λ made. made ≡ with_routes vlan.now routes.now tree.now) }
{
    let items = route_items(alloc, routes)?;
    let pairs = all_in_vlans(alloc, as_entries(tree), vlan, items.as_slice())?;
    Ok(Tree::Map(pairs))
}

fn has_key(pairs: &[Pair], key: &Key) -> bool
    ensures { result ≡ has_entry key.now pairs.now }
{
    pairs.iter().any(|pair| key_eq(&pair.key, key))
}

/// Whether the document has the VLAN.
pub(crate) fn has_vlan(tree: &Tree, vlan: &Key) -> bool
    ensures { result ≡ has_vlan vlan.now tree.now }
{
    as_entries(tree).iter().any(|pair| is_key("vlans", &pair.key)
        && has_key(as_entries(&pair.value), vlan))
}
