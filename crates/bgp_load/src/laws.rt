//! The law: its contract is the law.

ghost use Rattle.std.specs.Prelude.{◌≡◌, ◌≤◌, ℕ, List, length, Ok};
ghost use Rattle.yaml_tree.specs.declared.tree.Key.{Key};
ghost use Rattle.conf_gather.specs.Gathered.{Held};
ghost use Rattle.bgp_routes.specs.declared.routes.BgpRoute.{BgpRoute};
ghost use Rattle.bgp_texts.specs.Taking.{text_of};
ghost use Rattle.bgp_load.specs.declared.found.LoadedPeer.{LoadedPeer};
ghost use Rattle.bgp_load.specs.Peers.{loaded_peer};

use conf_gather::laws::a_gathered_tree_is_sound;

/// The text of a loaded document with up to 1,024 routes of a peer, under any key, is no longer than a text may be.
pub fn there_is_room_for_routes()
    ensures { (held : Held) (name router : List ℕ) (found : LoadedPeer) (vlan : Key) (routes : List BgpRoute) → loaded_peer held name router ≡ Ok (Ok found) → length routes ≤ 1024
        → length (text_of vlan found.tree routes) ≤ 1048576 }
{
    a_gathered_tree_is_sound();
}
