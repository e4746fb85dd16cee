ghost use Rattle.std.specs.Prelude.{◌≡◌, unwrap_or, IfOk};
ghost use Rattle.yaml_tree.specs.declared.tree.Pair.{Pair};
ghost use Rattle.yaml_tree.specs.declared.tree.Tree.{Tree};
ghost use Rattle.conf_shape.specs.Reads.{number_under};
ghost use Rattle.conf_shape.specs.Raw.{bgp_with, bgp_of, router_with, router_of_entry};

use crate::keys::key_text;
use crate::raw::{RawBgp, RawRouter, VlanRef};
use crate::reads::{Read, ReadEntry, as_entries, list_at, option_at, u16_under, words_at};
use crate::values::identifier_of;
use net_base::{NoMemory, Text};
use std::alloc::Global;
use yaml_tree::{Key, Pair, Tree};

/// The number of an autonomous system under a key; a peer without one isn't accepted, whatever stands
/// for it.
fn as_at(pairs: &[Pair], name: &str) -> u16
    ensures { result ≡ unwrap_or (number_under 16 name.now pairs.now) 0 }
{
    u16_under(pairs, name).unwrap_or(0)
}

fn read_bgp(alloc: Global, pairs: &[Pair]) -> Result<RawBgp, NoMemory>
    ensures { IfOk result (λ made. made ≡ bgp_with pairs.now) }
{
    Ok(RawBgp {
        our_as: as_at(pairs, "as"),
        neighbor_as: as_at(pairs, "neighbor_as"),
        routerid: identifier_of(words_at(pairs, "routerid")),
        vlan: match option_at(alloc, pairs, "vlan")? {
            Some(vlan) => vlan,
            None => VlanRef::Name(Text::new(alloc)),
        },
    })
}

impl Read for RawBgp {
    ghost given_by = { bgp_of };

    fn read(alloc: Global, tree: &Tree) -> Result<RawBgp, NoMemory> {
        read_bgp(alloc, as_entries(tree))
    }
}

fn read_router(alloc: Global, key: &Key, pairs: &[Pair]) -> Result<RawRouter, NoMemory>
    ensures { IfOk result (λ made. made ≡ router_with key.now pairs.now) }
{
    Ok(RawRouter {
        name: key_text(alloc, key)?,
        vlans: list_at(alloc, pairs, "vlans")?,
        bgp: option_at(alloc, pairs, "bgp")?,
    })
}

impl ReadEntry for RawRouter {
    ghost given_by = { router_of_entry };

    fn read(alloc: Global, pair: &Pair) -> Result<RawRouter, NoMemory> {
        read_router(alloc, &pair.key, as_entries(&pair.value))
    }
}
