ghost use Rattle.std.specs.Prelude.{◌≡◌, ◌≤◌, ◌<◌, [], length, OnOk, OnErr, IfOk, IsErrOf};
ghost use Rattle.bgp_routes.specs.Updates.{is_looped, gone, withdrawn_from, come, announced_in, after};
ghost use Rattle.bgp_routes.specs.declared.routes.RoutesRefused.TheVariants.{Memory};

use crate::networks::cleared;
use crate::set::{forget, put};
use bgp_messages::Update;
use net_base::{Ip4, Net4, NoMemory, TryCopy};
use std::alloc::Global;
use std::marker::Model;

/// So many routes are kept at most.
pub const MOST: usize = 1024;

/// A route: the network, and the address of the next hop to it.
#[derive(Clone, Copy, Debug, PartialEq, Eq)]
pub struct BgpRoute {
    pub dst: Net4,
    pub gw: Ip4,
}

impl TryCopy for BgpRoute {
    fn copy(&self, _alloc: Global) -> Result<BgpRoute, NoMemory> {
        Ok(*self)
    }
}

/// Why an UPDATE changed nothing.
#[derive(Clone, Copy, Debug, PartialEq, Eq)]
pub enum RoutesRefused {
    /// There would be more than 1,024 routes.
    TooMany,
    /// Memory ran out.
    Memory,
}

impl From<NoMemory> for RoutesRefused {
    ghost from_gives = { λ _ e. e ≡ Memory };

    fn from(_e: NoMemory) -> RoutesRefused {
        RoutesRefused::Memory
    }
}

/// Routes by the address and then by the length of their networks, of which none comes twice.
/// Contracts see the list.
#[derive(Debug, Drop)]
pub struct Routes {
    routes: Vec<BgpRoute>,
}

impl Model for Routes {
    ghost use Rattle.std.specs.Prelude.{List};
    ghost use Rattle.bgp_routes.specs.declared.routes.BgpRoute.{BgpRoute};

    ghost Value = { List BgpRoute };

    ghost view = { λ r. r.routes.items };
}

/// Whether an AS stands in the path of an UPDATE: its routes lead back (RFC 4271, 9.1.2).
fn is_looped(our_as: u16, update: &Update) -> bool
    ensures { result ≡ is_looped our_as update.now }
{
    update
        .path
        .as_slice()
        .iter()
        .any(|number| *number == our_as)
}

/// Takes out the routes to withdrawn networks.
fn withdraw(routes: &mut Vec<BgpRoute>, nets: &[Net4])
    ensures { routes.new.items ≡ withdrawn_from routes.old.items nets.now }
{
    for net in nets {
        forget(routes, cleared(net));
    }
}

/// Sets the routes to announced networks.
fn announce(routes: &mut Vec<BgpRoute>, nets: &[Net4], gw: Ip4) -> Result<(), NoMemory>
    ensures { OnOk result (routes.new.items ≡ announced_in gw routes.old.items nets.now) }
{
    for net in nets {
        let dst = cleared(net);
        put(routes, BgpRoute { dst, gw })?;
    }
    Ok(())
}

impl Routes {
    /// No routes, which takes no memory yet.
    pub fn new(alloc: Global) -> Routes
        ensures { result ≡ [] }
    {
        Routes {
            routes: Vec::new(alloc),
        }
    }

    /// The routes, in the order of their networks.
    pub fn as_slice(&self) -> &[BgpRoute]
        ensures { result.now ≡ self.now }
    {
        self.routes.as_slice()
    }

    /// How many routes there are.
    pub fn len(&self) -> usize
        ensures { result ≡ length self.now }
    {
        self.routes.len()
    }

    /// The routes behind an UPDATE.
    fn after(&self, alloc: Global, our_as: u16, update: &Update) -> Result<Routes, NoMemory>
        ensures { IfOk result (λ routes. routes ≡ after our_as self.now update.now) }
    {
        let mut routes = Vec::from_slice(alloc, self.routes.as_slice())?;
        withdraw(&mut routes, update.withdrawn.as_slice());
        if is_looped(our_as, update) {
            withdraw(&mut routes, update.announced.as_slice());
        } else {
            announce(&mut routes, update.announced.as_slice(), update.next_hop)?;
        }
        Ok(Routes { routes })
    }

    /// Takes an UPDATE that was heard by this AS: first the withdrawn networks go, then each announced
    /// one is set to the next hop, or goes where our AS stands in the path. `TooMany` exactly where
    /// more than 1,024 routes would be left then. After an `Err` the routes are as they were.
    pub fn take(&mut self, alloc: Global, our_as: u16, update: &Update) -> Result<(), RoutesRefused>
        ensures ok { OnOk result (self.new ≡ after our_as self.old update.now) }
        ensures few { OnOk result (length self.new ≤ 1024) }
        ensures many { IsErrOf result RoutesRefused.TooMany → 1024 < length (after our_as self.old update.now) }
        ensures err { OnErr result (self.new ≡ self.old) }
    {
        let routes = self.after(alloc, our_as, update)?;
        if routes.len() > MOST {
            return Err(RoutesRefused::TooMany);
        }
        *self = routes;
        Ok(())
    }

    /// Takes out all routes, as the end of a session does. It takes no memory.
    pub fn clear(&mut self)
        ensures { self.new ≡ [] }
    {
        self.routes.truncate(0);
    }
}
