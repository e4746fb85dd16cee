//! Routes as items of a list in a document.

ghost use Rattle.std.specs.Prelude.{◌≡◌, ◌++◌, IfOk, OnOk};
ghost use Rattle.bgp_texts.specs.Items.{entry, route_entries, route_item, route_items};

use bgp_routes::BgpRoute;
use net_base::{NoMemory, Text, TryCopy};
use std::alloc::Global;
use yaml_tree::{Key, Pair, Pairs, Tree, Trees};

/// An entry of a map.
pub(crate) fn entry(alloc: Global, name: &str, value: Tree) -> Result<Pair, NoMemory>
    ensures { IfOk result (λ pair. pair ≡ entry name.now value) }
{
    let key = Key::Text(Text::from_str(alloc, name)?);
    Ok(Pair { key, value })
}

fn route_entries(alloc: Global, route: &BgpRoute) -> Result<Pairs, NoMemory>
    ensures { IfOk result (λ pairs. pairs ≡ route_entries route.now) }
{
    let mut dst = Text::new(alloc);
    route.dst.print(&mut dst)?;
    let mut gw = Text::new(alloc);
    route.gw.print(&mut gw)?;
    let mut pairs = Pairs::new(alloc);
    pairs.push(entry(alloc, "ip_dst", Tree::Text(dst))?)?;
    pairs.push(entry(alloc, "ip_gw", Tree::Text(gw))?)?;
    Ok(pairs)
}

fn route_item(alloc: Global, route: &BgpRoute) -> Result<Tree, NoMemory>
    ensures { IfOk result (λ item. item ≡ route_item route.now) }
{
    let entries = route_entries(alloc, route)?;
    let mut pairs = Pairs::new(alloc);
    pairs.push(entry(alloc, "route", Tree::Map(entries))?)?;
    Ok(Tree::Map(pairs))
}

/// The items of these routes, in order.
pub(crate) fn route_items(alloc: Global, routes: &[BgpRoute]) -> Result<Trees, NoMemory>
    ensures { IfOk result (λ items. items ≡ route_items routes.now) }
{
    let mut items = Trees::new(alloc);
    for route in routes {
        items.push(route_item(alloc, route)?)?;
    }
    Ok(items)
}

/// Adds copies of trees at the end.
pub(crate) fn push_copies(alloc: Global, trees: &mut Trees, more: &[Tree]) -> Result<(), NoMemory>
    ensures { OnOk result (trees.new ≡ trees.old ++ more.now) }
{
    for tree in more {
        trees.push(tree.copy(alloc)?)?;
    }
    Ok(())
}
