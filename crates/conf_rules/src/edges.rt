//! The VLANs of which a datapath has edge ports.

ghost use Rattle.std.specs.Prelude.{◌≡◌, ◌||◌, ◌<◌, ℕ, false, slice_index_or};
ghost use Rattle.std.specs.List.{list_any};
ghost use Rattle.conf_types.specs.Membership.{is_edge_member, has_edge_member};

use crate::vids::{see_all, see_some, seen_once};
use conf_resolve::Resolved;
use conf_types::{Dp, Port};
use net_base::Vid;
use std::marker::Model;

/// A datapath, with a table of the VLANs of which it has edge ports. Contracts see the datapath.
#[derive(Drop)]
pub struct Edges<'a> {
    dp: &'a Dp,
    seen: [bool; 4096],
}

impl<'a> Model for Edges<'a> {
    ghost use Rattle.conf_types.specs.declared.datapath.Dp.{Dp};
    ghost use Rattle.conf_rules.specs.Edges.{HasEdgesOf};

    ghost Value = { Dp };

    ghost view = { λ e. e.dp.now };

    ghost invariant = { λ e. HasEdgesOf e.seen e.dp.now };
}

/// A configuration, with a table of the VLANs of which some datapath has an edge port. Contracts see
/// the configuration.
#[derive(Drop)]
pub struct AllEdges<'a> {
    conf: &'a Resolved,
    seen: [bool; 4096],
}

impl<'a> Model for AllEdges<'a> {
    ghost use Rattle.conf_types.specs.Configuration.{Configuration};
    ghost use Rattle.conf_rules.specs.Edges.{HasEdgesOfAny};

    ghost Value = { Configuration };

    ghost view = { λ e. e.conf.now };

    ghost invariant = { λ e. HasEdgesOfAny e.seen e.conf.now.dps };
}

/// From now on the VLANs of which the interface is an edge port are seen.
fn see_port(seen: &mut [bool; 4096], port: &Port)
    ensures { (n : ℕ) → n < 4096 → slice_index_or seen.new n false ≡ (slice_index_or seen.old n false || is_edge_member port.now n) }
{
    if port.is_edge() {
        see_some(seen, port.native);
        see_all(seen, port.tagged.as_slice());
    }
}

/// From now on the VLANs of which these interfaces are edge ports are seen.
fn see_ports(seen: &mut [bool; 4096], ports: &[Port])
    ensures { (n : ℕ) → n < 4096 → slice_index_or seen.new n false ≡ (slice_index_or seen.old n false || list_any (λ p. is_edge_member p n) ports.now) }
{
    for port in ports {
        see_port(seen, port);
    }
}

/// The VLANs of which these datapaths have edge ports.
fn see_dps(dps: &[Dp]) -> [bool; 4096]
    ensures { (n : ℕ) → n < 4096 → slice_index_or result n false ≡ list_any (λ d. has_edge_member d n) dps.now }
{
    let mut seen = seen_once(None);
    for dp in dps {
        see_ports(&mut seen, dp.ports.as_slice());
    }
    seen
}

impl<'a> Edges<'a> {
    /// The edge ports of this datapath.
    pub fn of(dp: &'a Dp) -> Edges<'a>
        ensures { result ≡ dp.now }
    {
        let mut seen = seen_once(None);
        see_ports(&mut seen, dp.ports.as_slice());
        Edges { dp, seen }
    }

    /// Whether the datapath has an edge port of the VLAN.
    pub fn has(&self, vid: Vid) -> bool
        ensures { result ≡ has_edge_member self.now vid }
    {
        self.seen[usize::from(vid.get())]
    }
}

impl<'a> AllEdges<'a> {
    /// The edge ports of all datapaths of this configuration.
    pub fn of(conf: &'a Resolved) -> AllEdges<'a>
        ensures { result ≡ conf.now }
    {
        let seen = see_dps(conf.dps().as_slice());
        AllEdges { conf, seen }
    }

    /// Whether some datapath has an edge port of the VLAN.
    pub fn has(&self, vid: Vid) -> bool
        ensures { result ≡ list_any (λ d. has_edge_member d vid) self.now.dps }
    {
        self.seen[usize::from(vid.get())]
    }
}
