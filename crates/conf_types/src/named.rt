//! What is looked up by a name or a number, in the configuration and in a datapath.

ghost use Rattle.std.specs.Prelude.{◌≡◌};
ghost use Rattle.std.specs.List.{list_any};
ghost use Rattle.std.specs.Option.{option_copied};
ghost use Rattle.conf_types.specs.Attached.{acl_named, is_named, port_named};
ghost use Rattle.conf_types.specs.Configuration.{port_with};
ghost use Rattle.conf_types.specs.Families.{address_of, is_same_ip};
ghost use Rattle.conf_types.specs.Lists.{is_same};
ghost use Rattle.conf_types.specs.Membership.{has_edge_member};
ghost use Rattle.conf_types.specs.Networks.{is_held, is_vip, vip_for, is_neighbour_address};

use crate::acl::{Acl, PortRef};
use crate::address::{Ip, Net};
use crate::conf::Conf;
use crate::datapath::{Dp, Port};
use crate::vlan::Vlan;
use net_base::{PortNo, Text, Vid};

fn is_same_text(a: &Text, b: &Text) -> bool
    ensures { result ≡ is_same a.now b.now }
{
    a.as_str() == b.as_str()
}

impl PortRef {
    /// Whether the interface is the one that is named.
    pub fn names(&self, port: &Port) -> bool
        ensures { result ≡ is_named self.now port.now }
    {
        match self {
            PortRef::No(no) => port.no.get() == no.get(),
            PortRef::Name(name) => is_same_text(&port.name, name),
        }
    }
}

impl Conf {
    /// The ACL with this name; `None` exactly where there is none.
    pub fn acl(&self, name: &Text) -> Option<&Acl>
        ensures { option_copied result ≡ acl_named self.now.acls name.now }
    {
        self.acls()
            .as_slice()
            .iter()
            .find(|acl| is_same_text(&acl.name, name))
    }
}

impl Dp {
    /// The interface with this number; `None` exactly where there is none.
    pub fn port(&self, no: PortNo) -> Option<&Port>
        ensures { option_copied result ≡ port_with self.now.ports no }
    {
        self.ports
            .as_slice()
            .iter()
            .find(|port| port.no.get() == no.get())
    }

    /// The interface that is named; `None` exactly where there is none.
    pub fn port_named(&self, name: &PortRef) -> Option<&Port>
        ensures { option_copied result ≡ port_named self.now name.now }
    {
        self.ports.as_slice().iter().find(|port| name.names(port))
    }

    /// Whether it has an edge port of the VLAN.
    pub fn has_edge_member(&self, vid: Vid) -> bool
        ensures { result ≡ has_edge_member self.now vid }
    {
        self.ports
            .as_slice()
            .iter()
            .any(|port| port.is_edge_member(vid))
    }
}

fn are_holding(vips: &[Net], ip: Ip) -> bool
    ensures { result ≡ list_any (λ vip. is_held vip ip) vips.now }
{
    vips.iter().any(|vip| vip.holds(ip))
}

fn has_address(vip: &Net, ip: Ip) -> bool
    ensures { result ≡ is_same_ip (address_of vip.now) ip }
{
    vip.address().is_same(ip)
}

impl Vlan {
    /// Whether an address is one of its VIPs.
    pub fn is_vip(&self, ip: Ip) -> bool
        ensures { result ≡ is_vip self.now.vips ip }
    {
        self.vips.as_slice().iter().any(|vip| has_address(vip, ip))
    }

    /// The VIP whose network an address lies in; `None` exactly where there is none.
    pub fn vip_for(&self, ip: Ip) -> Option<&Net>
        ensures { option_copied result ≡ vip_for self.now.vips ip }
    {
        self.vips.as_slice().iter().find(|vip| vip.holds(ip))
    }

    /// Whether an address is that of a neighbour: it lies in a network of its VIPs, and is none of
    /// them.
    pub fn is_neighbour_address(&self, ip: Ip) -> bool
        ensures { result ≡ is_neighbour_address self.now.vips ip }
    {
        are_holding(self.vips.as_slice(), ip) && !self.is_vip(ip)
    }
}
