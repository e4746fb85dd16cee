ghost use Rattle.std.specs.Prelude.{◌≡◌};
ghost use Rattle.conf_types.specs.Lists.{is_among};

use crate::address::{Ip, Net};
use crate::peer::BgpConf;
use net_base::{Items, Mac, Names, NoMemory, Text, TryCopy, Vid};
use std::alloc::Global;

/// A list of VLAN identifiers.
pub type Vids = Items<Vid>;

/// A list of networks, each with an address in it.
pub type Nets = Items<Net>;

/// A route of a VLAN.
#[derive(Clone, Copy, Debug, PartialEq, Eq)]
pub struct Route {
    /// The network that the route leads to, its host bits zero.
    pub dst: Net,
    /// The gateway, a neighbour of the VLAN, of the same family.
    pub gw: Ip,
}

/// Routes, as they are written.
pub type Routes = Items<Route>;

/// A VLAN.
#[derive(Debug, Drop)]
pub struct Vlan {
    pub vid: Vid,
    pub name: Text,
    pub description: Text,
    /// The Ethernet address of the VLAN's gateway: no group address, and not zero.
    pub mac: Mac,
    /// The addresses of the VLAN's gateway, with the networks that they lie in.
    pub vips: Nets,
    pub routes: Routes,
    /// The names of the ACLs whose rules are tried, in order, on packets of the VLAN.
    pub acls: Names,
    /// How many hosts are learned in the VLAN, 1 to 16,384.
    pub max_hosts: u32,
    /// Packets to an address that isn't known are flooded.
    pub unicast_flood: bool,
}

/// VLANs, ascending by their identifiers.
pub type Vlans = Items<Vlan>;

/// A router: VLANs between which packets are routed, and a peer that tells routes.
#[derive(Debug, Drop)]
pub struct Router {
    pub name: Text,
    /// The VLANs, each once, as they are written; maybe none where there is a peer.
    pub vlans: Vids,
    /// The BGP peer.
    pub bgp: Option<BgpConf>,
}

/// Routers, ascending by the bytes of their names.
pub type Routers = Items<Router>;

impl Router {
    /// Whether it routes a VLAN.
    pub fn has(&self, vid: Vid) -> bool
        ensures { result ≡ is_among self.now.vlans vid }
    {
        self.vlans
            .as_slice()
            .iter()
            .any(|vlan| vlan.get() == vid.get())
    }
}

impl TryCopy for Route {
    fn copy(&self, _alloc: Global) -> Result<Route, NoMemory> {
        Ok(*self)
    }
}

impl TryCopy for Vlan {
    fn copy(&self, alloc: Global) -> Result<Vlan, NoMemory> {
        Ok(Vlan {
            vid: self.vid,
            name: self.name.copy(alloc)?,
            description: self.description.copy(alloc)?,
            mac: self.mac,
            vips: self.vips.copy(alloc)?,
            routes: self.routes.copy(alloc)?,
            acls: self.acls.copy(alloc)?,
            max_hosts: self.max_hosts,
            unicast_flood: self.unicast_flood,
        })
    }
}

impl TryCopy for Router {
    fn copy(&self, alloc: Global) -> Result<Router, NoMemory> {
        Ok(Router {
            name: self.name.copy(alloc)?,
            vlans: self.vlans.copy(alloc)?,
            bgp: self.bgp,
        })
    }
}
