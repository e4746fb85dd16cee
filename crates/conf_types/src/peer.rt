use net_base::{Ip4, Vid};

/// The BGP peer of a router (RFC 4271): who speaks to whom, and the VLAN that its routes belong to.
#[derive(Clone, Copy, Debug, PartialEq, Eq)]
pub struct BgpConf {
    /// Our number of an autonomous system, not 0.
    pub our_as: u16,
    /// That of the peer, not 0.
    pub neighbor_as: u16,
    /// The identifier that we say in an OPEN, not 0.
    pub routerid: Ip4,
    /// The VLAN behind whose own routes those of the peer stand.
    pub vlan: Vid,
}
