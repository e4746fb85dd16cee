ghost use Rattle.std.specs.Prelude.{◌≡◌, IfOk};
ghost use Rattle.yaml_tree.specs.declared.tree.Pair.{Pair};
ghost use Rattle.yaml_tree.specs.declared.tree.Tree.{Tree};
ghost use Rattle.conf_shape.specs.Raw.{vip_of, route_of, vlan_number, mac_at, vlan_with, vlan_of_entry};

use crate::datapaths::{is_given, read_acls, read_names};
use crate::kinds::MapKind;
use crate::raw::RawVlan;
use crate::reads::{
    Read, ReadEntry, as_entries, as_words, entries_at, flag_at, list_at, number_at, own_vid,
    text_at, value_at, words_at,
};
use crate::values::{ip_of, mac_of, net_of};
use conf_types::{Net, Route};
use net_base::{Mac, NoMemory, Vid};
use std::alloc::Global;
use yaml_tree::{Key, Pair, Tree};

const VLAN: MapKind = MapKind::Vlan { number: None };

impl Read for Net {
    ghost given_by = { vip_of };

    fn read(_alloc: Global, tree: &Tree) -> Result<Net, NoMemory> {
        Ok(net_of(as_words(tree)))
    }
}

impl Read for Route {
    ghost given_by = { route_of };

    fn read(_alloc: Global, tree: &Tree) -> Result<Route, NoMemory> {
        let pairs = entries_at(as_entries(tree), "route");
        Ok(Route {
            dst: net_of(words_at(pairs, "ip_dst")),
            gw: ip_of(words_at(pairs, "ip_gw")),
        })
    }
}

/// The identifier of a VLAN; one without isn't accepted, whatever stands for it.
fn vlan_number(key: &Key, pairs: &[Pair]) -> Vid
    ensures { result ≡ vlan_number key.now pairs.now }
{
    match own_vid(key, value_at(pairs, "vid")) {
        Some(vid) => vid,
        None => Vid::new(1).unwrap(),
    }
}

fn mac_at(pairs: &[Pair]) -> Mac
    ensures { result ≡ mac_at pairs.now }
{
    mac_of(text_at(VLAN, pairs, "faucet_mac", ""))
}

fn read_vlan(alloc: Global, key: &Key, pairs: &[Pair]) -> Result<RawVlan, NoMemory>
    ensures { IfOk result (λ made. made ≡ vlan_with key.now pairs.now) }
{
    Ok(RawVlan {
        names: read_names(alloc, VLAN, key, pairs)?,
        has_vid: is_given(pairs, "vid"),
        vid: vlan_number(key, pairs),
        acls: read_acls(alloc, pairs)?,
        mac: mac_at(pairs),
        vips: list_at(alloc, pairs, "faucet_vips")?,
        routes: list_at(alloc, pairs, "routes")?,
        max_hosts: number_at(VLAN, pairs, "max_hosts"),
        unicast_flood: flag_at(VLAN, pairs, "unicast_flood"),
    })
}

impl ReadEntry for RawVlan {
    ghost given_by = { vlan_of_entry };

    fn read(alloc: Global, pair: &Pair) -> Result<RawVlan, NoMemory> {
        read_vlan(alloc, &pair.key, as_entries(&pair.value))
    }
}
