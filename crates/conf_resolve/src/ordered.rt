//! A raw configuration in the order in which it is checked.

ghost use Rattle.std.specs.Prelude.{◌≡◌, IfOk};
ghost use Rattle.std.specs.List.{find};
ghost use Rattle.std.specs.Option.{option_map};
ghost use Rattle.conf_types.specs.Lists.{is_same};
ghost use Rattle.conf_resolve.specs.Resolved.{vid_of};

use crate::by_name::{Named, first_vids};
use conf_shape::{RawAcls, RawDps, RawRouters, RawVlan, VlanRef};
use net_base::{Items, Names, NoMemory, Text, Vid};
use std::alloc::Global;
use std::marker::Model;

/// A VLAN, written or made, with the keys and places in lists that lead to it, the outermost first.
#[derive(Drop)]
pub struct PlacedVlan {
    pub site: Names,
    pub vlan: RawVlan,
}

/// VLANs, each with its place, to be looked up by a name. Contracts see their list.
#[derive(Drop)]
pub struct PlacedVlans {
    vlans: Items<PlacedVlan>,
    vids: Named<Vid>,
}

impl Model for PlacedVlans {
    ghost use Rattle.std.specs.Prelude.{List};
    ghost use Rattle.conf_resolve.specs.declared.ordered.PlacedVlan.{PlacedVlan};
    ghost use Rattle.conf_resolve.specs.Indexed.{LeadToFirst};

    ghost Value = { List PlacedVlan };

    ghost view = { λ p. p.vlans };

    ghost invariant = { λ p. LeadToFirst (λ v. v.vlan.names.name) (λ v. v.vlan.vid) p.vlans p.vids };
}

impl PlacedVlans {
    /// These VLANs.
    pub fn new(alloc: Global, vlans: Items<PlacedVlan>) -> Result<PlacedVlans, NoMemory>
        ensures { IfOk result (λ made. made ≡ vlans) }
    {
        let vids = first_vids(alloc, vlans.as_slice())?;
        Ok(PlacedVlans { vlans, vids })
    }

    /// The VLANs, in order.
    pub fn as_slice(&self) -> &[PlacedVlan]
        ensures { result.now ≡ self.now }
    {
        self.vlans.as_slice()
    }

    /// The number of the first VLAN of this name; `None` exactly where no VLAN has it.
    pub fn vid_named(&self, name: &Text) -> Option<Vid>
        ensures { result ≡ option_map (λ v. v.vlan.vid) (find (λ v. is_same v.vlan.names.name name.now) self.now) }
    {
        self.vids.get(name.as_str()).copied()
    }
}

/// A raw configuration in the order in which it is checked: datapaths, ACLs and routers by the bytes
/// of their names, interfaces and VLANs by their numbers, those that tie as they are written.
#[derive(Drop)]
pub struct OrderedConf {
    pub dps: RawDps,
    /// Those that are written, and those that are made since a number names them.
    pub vlans: PlacedVlans,
    pub acls: RawAcls,
    pub routers: RawRouters,
}

impl OrderedConf {
    /// The identifier of the VLAN that is named: a number is its own, whether or not a VLAN is
    /// written. `None` exactly where no VLAN has the name.
    pub fn vid_of(&self, name: &VlanRef) -> Option<Vid>
        ensures { result ≡ vid_of self.now.vlans name.now }
    {
        match name {
            VlanRef::Vid(vid) => Some(*vid),
            VlanRef::Name(name) => self.vlans.vid_named(name),
        }
    }
}
