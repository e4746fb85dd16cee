//! The law: the function is empty, and its contract is the law.

ghost use Rattle.std.specs.Prelude.{◌≡◌, List, Some, None, Contains};
ghost use Rattle.conf_types.specs.declared.address.Ip.{Ip};
ghost use Rattle.packet_way.specs.declared.routes.RouteItem.{RouteItem};
ghost use Rattle.packet_way.specs.Routes.{longest};
ghost use Rattle.law_rows.specs.Longest.{HasPrefix, IsLongestFor};

/// Of the items of a route list the one that is taken holds the address, and no longer one does; where
/// none is taken, none holds it (RFC 1812, 5.2.4.3).
pub fn the_longest_prefix_is_taken()
    ensures taken { (items : List RouteItem) (ip : Ip) (item : RouteItem) → longest items ip ≡ Some item → IsLongestFor items ip item }
    ensures none { (items : List RouteItem) (ip : Ip) → longest items ip ≡ None → (item : RouteItem) → Contains items item → HasPrefix ip item → ⊥ }
{}
