ghost use Rattle.std.specs.Prelude.{◌≡◌, ◌<◌, length, slice_index_or, IfSome, IfOk};
ghost use Rattle.std.specs.Option.{option_copied};
ghost use Rattle.conf_types.specs.declared.datapath.Dp.{Dp};
ghost use Rattle.conf_types.specs.Configuration.{dp_with, port_with, port_at, vlan_with};
ghost use Rattle.conf_types.specs.Groups.{group_of};
ghost use Rattle.conf_types.specs.Lists.{EachBefore};
ghost use Rattle.conf_types.specs.Membership.{member};
ghost use Rattle.conf_types.specs.Routing.{router_with, routing_set};
ghost use Rattle.conf_types.specs.Valid.{IsValid, IsDatapath};

use crate::acl::Acls;
use crate::datapath::{Dp, Dps, Member, Port};
use crate::group::{MOST_DPS, groups_of};
use crate::vlan::{Router, Routers, Vids, Vlan, Vlans};
use net_base::{DpId, Items, NoMemory, PortNo, TryCopy, Vid};
use std::alloc::Global;
use std::marker::Model;

/// An accepted configuration, which contracts see as its four lists.
#[derive(Debug, Drop)]
pub struct Conf {
    dps: Dps,
    vlans: Vlans,
    acls: Acls,
    routers: Routers,
    /// The number of each datapath's group, worked out once.
    groups: [DpId; MOST_DPS],
}

impl Model for Conf {
    ghost use Rattle.conf_types.specs.Configuration.{Configuration};
    ghost use Rattle.conf_types.specs.Groups.{AreGroups};
    ghost use Rattle.conf_types.specs.Valid.{IsValid};

    ghost Value = { Configuration };

    ghost view = { λ c. record { dps = c.dps; vlans = c.vlans; acls = c.acls; routers = c.routers } };

    ghost invariant = { λ c. IsValid (record { dps = c.dps; vlans = c.vlans; acls = c.acls; routers = c.routers }) × AreGroups c.dps c.groups };
}

fn find_port(ports: &[Port], no: PortNo) -> Option<&Port>
    requires { EachBefore (λ p q. p.no < q.no) ports.now }
    ensures { option_copied result ≡ port_with ports.now no }
{
    match ports.binary_search_by_key(&no.get(), |port| port.no.get()) {
        Ok(at) => Some(&ports[at]),
        Err(_) => None,
    }
}

fn find_vlan(vlans: &[Vlan], vid: Vid) -> Option<&Vlan>
    requires { EachBefore (λ v w. v.vid < w.vid) vlans.now }
    ensures { option_copied result ≡ vlan_with vlans.now vid }
{
    match vlans.binary_search_by_key(&vid.get(), |vlan| vlan.vid.get()) {
        Ok(at) => Some(&vlans[at]),
        Err(_) => None,
    }
}

fn find_router(routers: &[Router], vid: Vid) -> Option<&Router>
    ensures { option_copied result ≡ router_with routers.now vid }
{
    routers.iter().find(|router| router.has(vid))
}

impl Conf {
    /// The configuration of these lists, which are valid together.
    pub fn new(dps: Dps, vlans: Vlans, acls: Acls, routers: Routers) -> Conf
        requires { IsValid (record { dps = dps; vlans = vlans; acls = acls; routers = routers }) }
        ensures { result ≡ record { dps = dps; vlans = vlans; acls = acls; routers = routers } }
    {
        let groups = groups_of(dps.as_slice());
        Conf {
            dps,
            vlans,
            acls,
            routers,
            groups,
        }
    }

    /// The number of the group of the datapath at a place of `dps`, counted from 0, which isn't looked up.
    pub fn group_of_place(&self, at: usize) -> DpId
        requires { at < length self.now.dps }
        ensures { (d : Dp) → result ≡ group_of self.now (slice_index_or self.now.dps at d).id }
    {
        let groups = &self.groups;
        groups[at]
    }

    /// The datapaths, by the bytes of their names.
    pub fn dps(&self) -> &Dps
        ensures lists { result.now ≡ self.now.dps }
        ensures valid { IsValid self.now }
    {
        &self.dps
    }

    /// The VLANs, by their identifiers.
    pub fn vlans(&self) -> &Vlans
        ensures lists { result.now ≡ self.now.vlans }
        ensures valid { IsValid self.now }
    {
        &self.vlans
    }

    /// The ACLs, by the bytes of their names.
    pub fn acls(&self) -> &Acls
        ensures lists { result.now ≡ self.now.acls }
        ensures valid { IsValid self.now }
    {
        &self.acls
    }

    /// The routers, by the bytes of their names.
    pub fn routers(&self) -> &Routers
        ensures lists { result.now ≡ self.now.routers }
        ensures valid { IsValid self.now }
    {
        &self.routers
    }

    /// The datapath with this identifier; `None` exactly where there is none.
    pub fn dp(&self, id: DpId) -> Option<&Dp>
        ensures found { option_copied result ≡ dp_with self.now.dps id }
        ensures valid { IfSome result (λ dp. IsDatapath self.now dp.now) }
    {
        self.dps.as_slice().iter().find(|dp| dp.id == id)
    }

    /// The interface of a datapath with this number; `None` exactly where there is none.
    pub fn port(&self, dp: DpId, no: PortNo) -> Option<&Port>
        ensures { option_copied result ≡ port_at self.now dp no }
    {
        find_port(self.dp(dp)?.ports.as_slice(), no)
    }

    /// The VLAN with this identifier; `None` exactly where there is none.
    pub fn vlan(&self, vid: Vid) -> Option<&Vlan>
        ensures { option_copied result ≡ vlan_with self.now.vlans vid }
    {
        find_vlan(self.vlans.as_slice(), vid)
    }

    /// How an interface of a datapath belongs to a VLAN; `Member::None` where there is no such
    /// datapath, interface or VLAN.
    pub fn member(&self, dp: DpId, port: PortNo, vid: Vid) -> Member
        ensures { result ≡ member self.now dp port vid }
    {
        match (self.vlan(vid), self.port(dp, port)) {
            (Some(_), Some(port)) => port.member_of(vid),
            _ => Member::None,
        }
    }

    /// The VLANs that packets of a VLAN are routed between: those of its router, as they are
    /// written, or itself alone.
    pub fn routing_set(&self, alloc: Global, vid: Vid) -> Result<Vids, NoMemory>
        ensures { IfOk result (λ vids. vids ≡ routing_set self.now vid) }
    {
        match find_router(self.routers.as_slice(), vid) {
            Some(router) => router.vlans.copy(alloc),
            None => Items::from_slice(alloc, &[vid]),
        }
    }
}

impl TryCopy for Conf {
    fn copy(&self, alloc: Global) -> Result<Conf, NoMemory> {
        Ok(Conf {
            dps: self.dps.copy(alloc)?,
            vlans: self.vlans.copy(alloc)?,
            acls: self.acls.copy(alloc)?,
            routers: self.routers.copy(alloc)?,
            groups: self.groups,
        })
    }
}
