ghost use Rattle.std.specs.Prelude.{◌≡◌, Some, IfErr, IfOk};
ghost use Rattle.std.specs.List.{find};
ghost use Rattle.std.specs.Option.{option_copied};
ghost use Rattle.std.specs.Str.{bytes_eq};
ghost use Rattle.fg_outside.specs.Contents.{Contents};
ghost use Rattle.conf_gather.specs.Files.{ReadsFiles};
ghost use Rattle.conf_gather.specs.Gives.{Gives, IsWithin};
ghost use Rattle.conf_gather.specs.Gathered.{NamesUnread};
ghost use Rattle.bgp_load.specs.Peers.{found_at, found_in, loaded_peer, loaded_peer_by, peer_of, peering_of, with_room};

use crate::found::{FoundPeer, LoadedPeer, PeerLacks};
use bgp_peer::Peering;
use bgp_texts::vlan_key;
use conf_gather::{LoadRefused, gather};
use conf_load::check_tree;
use conf_types::{BgpConf, Conf, Router};
use fg_outside::Files;
use net_base::NoMemory;
use std::alloc::Global;
use yaml_subset::print_yaml;
use yaml_tree::Tree;

/// So many bytes the text of a document may have, so that there is room for routes.
const MOST_BYTES: usize = 900_000;

fn peering_of(peer: BgpConf) -> Peering
    ensures { result ≡ peering_of peer }
{
    Peering {
        our_as: peer.our_as,
        id: peer.routerid,
        peer_as: peer.neighbor_as,
    }
}

fn router_named<'a>(routers: &'a [Router], name: &str) -> Option<&'a Router>
    ensures { option_copied result ≡ find (λ (r : Router). bytes_eq r.name name.now) routers.now }
{
    routers.iter().find(|router| router.name.as_str() == name)
}

/// The peer with what its texts are made of, where there is room for routes.
fn with_room(alloc: Global, tree: Tree, peer: BgpConf) -> Result<FoundPeer, NoMemory>
    ensures { IfOk result (λ found. found ≡ with_room tree peer) }
{
    let text = print_yaml(alloc, &tree)?;
    if text.len() > MOST_BYTES {
        return Ok(Err(PeerLacks::Room));
    }
    let vlan = vlan_key(alloc, &tree, peer.vlan)?;
    Ok(Ok(LoadedPeer {
        peering: peering_of(peer),
        vlan,
        tree,
    }))
}

/// What a document says of the peer of this router, where it has one.
fn found_at(alloc: Global, tree: Tree, router: Option<&Router>) -> Result<FoundPeer, NoMemory>
    ensures { IfOk result (λ found. found ≡ found_at tree (option_copied router.entry)) }
{
    let Some(router) = router else {
        return Ok(Err(PeerLacks::Router));
    };
    match router.bgp {
        Some(peer) => with_room(alloc, tree, peer),
        None => Ok(Err(PeerLacks::Peer)),
    }
}

/// What a document with this configuration says of the peer of a router.
fn found_in(alloc: Global, tree: Tree, conf: &Conf, router: &str) -> Result<FoundPeer, NoMemory>
    ensures { IfOk result (λ found. found ≡ found_in router.now tree conf.now) }
{
    let router = router_named(conf.routers().as_slice(), router);
    found_at(alloc, tree, router)
}

fn peer_of(alloc: Global, tree: Tree, router: &str) -> Result<FoundPeer, LoadRefused>
    ensures told { Gives result (peer_of router.now tree) }
    ensures within { IfErr result IsWithin }
{
    let conf = check_tree(alloc, &tree)?;
    match found_in(alloc, tree, &conf, router) {
        Ok(found) => Ok(found),
        Err(_) => Err(LoadRefused::Memory),
    }
}

/// What the configuration of a file, with all that it includes, says of the peer of a router.
///
/// Refused as loading is (`conf_load::load`).
pub fn load_peer<F: Files>(
    alloc: Global,
    files: &mut F,
    name: &str,
    router: &str,
) -> Result<FoundPeer, LoadRefused>
    ensures told { (held : Contents) → F.contents files.old ≡ Some held → Gives result (loaded_peer (held 0) name.now router.now) }
    ensures unread { NamesUnread (F.contents files.old) result (λ finds. loaded_peer_by finds name.now router.now) }
    ensures files { ReadsFiles F.contents F.faults F.absences F.refused files.old files.new result }
{
    let tree = gather(alloc, files, name)?;
    peer_of(alloc, tree, router)
}
