//! Which routes a configuration takes.

ghost use Rattle.std.specs.Prelude.{◌≡◌, [], fold, IfOk};
ghost use Rattle.bgp_texts.specs.Taking.{is_accepted, take_one, taken_of, with_taken};

use crate::trees::{has_vlan, with_routes};
use bgp_routes::BgpRoute;
use conf_check::conf_of_tree;
use conf_shape::ConfRefused;
use net_base::{Items, NoMemory, TryCopy};
use std::alloc::{AllocError, Global};
use yaml_tree::{Key, Tree};

/// The routes that are taken, in their order.
pub type Taken = Items<BgpRoute>;

/// Whether the document gives a configuration.
fn is_accepted(alloc: Global, tree: &Tree) -> Result<bool, NoMemory>
    ensures { IfOk result (λ is. is ≡ is_accepted tree.now) }
{
    match conf_of_tree(alloc, tree) {
        Ok(_) => Ok(true),
        Err(ConfRefused::At(_)) => Ok(false),
        Err(ConfRefused::Memory) => Err(AllocError),
    }
}

/// Takes a route where the document with it, and with those taken before it, is accepted.
fn take_one(
    alloc: Global,
    tree: &Tree,
    vlan: &Key,
    taken: Taken,
    route: &BgpRoute,
) -> Result<Taken, NoMemory>
    ensures { IfOk result (λ made. made ≡ take_one vlan.now tree.now taken route.now) }
{
    let mut more = Taken::from_slice(alloc, taken.as_slice())?;
    more.push(*route)?;
    let with_it = with_routes(alloc, tree, vlan, more.as_slice())?;
    if is_accepted(alloc, &with_it)? {
        Ok(more)
    } else {
        Ok(taken)
    }
}

fn take_all(alloc: Global, tree: &Tree, vlan: &Key, routes: &[BgpRoute]) -> Result<Taken, NoMemory>
    ensures { IfOk result (λ made. made ≡ fold (take_one vlan.now tree.now) [] routes.now) }
{
    let mut taken = Taken::new(alloc);
    for route in routes {
        taken = take_one(alloc, tree, vlan, taken, route)?;
    }
    Ok(taken)
}

/// The routes that the VLAN under this key takes, one by one; none where it isn't there.
pub(crate) fn taken_of(
    alloc: Global,
    tree: &Tree,
    vlan: &Key,
    routes: &[BgpRoute],
) -> Result<Taken, NoMemory>
    ensures { IfOk result (λ made. made ≡ taken_of vlan.now tree.now routes.now) }
{
    if !has_vlan(tree, vlan) {
        return Ok(Taken::new(alloc));
    }
    take_all(alloc, tree, vlan, routes)
}

/// The document with these routes; where there are none, as it was.
pub(crate) fn with_taken(
    alloc: Global,
    tree: &Tree,
    vlan: &Key,
    taken: &[BgpRoute],
) -> Result<Tree, NoMemory>
    ensures { IfOk result (λ made. made ≡ with_taken vlan.now taken.now tree.now) }
{
    if taken.is_empty() {
        return tree.copy(alloc);
    }
    with_routes(alloc, tree, vlan, taken)
}
