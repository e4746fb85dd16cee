//! IP addresses and networks of either family.

ghost use Rattle.std.specs.Prelude.{◌≡◌, ◌==◌, ◌-◌, ◌/◌, ◌^◌, ◌↔◌, IsTrue};
ghost use Rattle.conf_types.specs.Families.{family_of, ip_value, address_of, len_of, is_same_ip};
ghost use Rattle.conf_types.specs.Networks.{is_held, HasNoHostBits, is_link_local};

use crate::family::{Family, IPV4, IPV6};
use net_base::{Ip4, Ip6, Net4, Net6, NoMemory, TryCopy};
use std::alloc::Global;

/// An IP address. An address of one family is none of the other, whatever their numbers.
#[derive(Clone, Copy, Debug, PartialEq, Eq)]
pub enum Ip {
    V4(Ip4),
    V6(Ip6),
}

/// An IP address and the length of its prefix. The host bits are kept.
#[derive(Clone, Copy, Debug, PartialEq, Eq)]
pub enum Net {
    V4(Net4),
    V6(Net6),
}

impl Ip {
    /// The address's family.
    pub fn family(self) -> Family
        ensures { result ≡ family_of self }
    {
        match self {
            Ip::V4(_) => IPV4,
            Ip::V6(_) => IPV6,
        }
    }

    /// The address as a number, its first byte the most significant one.
    pub fn value(self) -> u128
        ensures { result ≡ ip_value self }
    {
        match self {
            Ip::V4(ip) => u128::from(ip.0),
            Ip::V6(ip) => ip.0,
        }
    }

    /// Whether two addresses are one, of one family.
    pub fn is_same(self, other: Ip) -> bool
        ensures { result ≡ is_same_ip self other }
    {
        match (self, other) {
            (Ip::V4(a), Ip::V4(b)) => a.0 == b.0,
            (Ip::V6(a), Ip::V6(b)) => a.0 == b.0,
            _ => false,
        }
    }
}

fn holds4(net: &Net4, ip: Ip4) -> bool
    ensures { result ≡ (ip.0 / 2 ^ (32 - net.now.len) == net.now.ip.0 / 2 ^ (32 - net.now.len)) }
{
    net.holds(ip)
}

fn holds6(net: &Net6, ip: Ip6) -> bool
    ensures { result ≡ (ip.0 / 2 ^ (128 - net.now.len) == net.now.ip.0 / 2 ^ (128 - net.now.len)) }
{
    net.holds(ip)
}

impl Net {
    /// The network's address, with its host bits.
    pub fn address(&self) -> Ip
        ensures { result ≡ address_of self.now }
    {
        match self {
            Net::V4(net) => Ip::V4(net.ip),
            Net::V6(net) => Ip::V6(net.ip),
        }
    }

    /// The length of the network's prefix, up to the width of its family.
    pub fn len(&self) -> u8
        ensures { result ≡ len_of self.now }
    {
        match self {
            Net::V4(net) => net.len,
            Net::V6(net) => net.len,
        }
    }

    /// Whether an address is of the network: one of its family, with the same bits in the prefix.
    pub fn holds(&self, ip: Ip) -> bool
        ensures { result ≡ is_held self.now ip }
    {
        match (self, ip) {
            (Net::V4(net), Ip::V4(ip)) => holds4(net, ip),
            (Net::V6(net), Ip::V6(ip)) => holds6(net, ip),
            _ => false,
        }
    }

    /// Whether all bits behind the prefix are zero.
    pub fn is_network(&self) -> bool
        ensures { IsTrue result ↔ HasNoHostBits self.now }
    {
        match self {
            Net::V4(net) => net.is_network(),
            Net::V6(net) => net.is_network(),
        }
    }

    /// Whether it is a network of link-local addresses: it lies in fe80::/10.
    pub fn is_link_local(&self) -> bool
        ensures { result ≡ is_link_local self.now }
    {
        match self {
            Net::V4(_) => false,
            Net::V6(net) => 10 <= net.len && net.ip.0 >> 118 == 0x3fa,
        }
    }
}

impl TryCopy for Ip {
    fn copy(&self, _alloc: Global) -> Result<Ip, NoMemory> {
        Ok(*self)
    }
}

impl TryCopy for Net {
    fn copy(&self, _alloc: Global) -> Result<Net, NoMemory> {
        Ok(*self)
    }
}
