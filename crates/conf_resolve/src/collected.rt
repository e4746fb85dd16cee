//! VLANs while they are collected.

ghost use Rattle.std.specs.Prelude.{◌≡◌, [], ◌∷◌, ◌++◌, OnOk, OnErr};
ghost use Rattle.net_base.specs.Numbers.{IsVid};
ghost use Rattle.conf_resolve.specs.Added.{has_vid};

use crate::ordered::PlacedVlan;
use conf_shape::RawVlan;
use net_base::{Items, NoMemory, Vid};
use std::alloc::{AllocError, Global};
use std::collections::BTreeSet;
use std::marker::Model;

/// VLANs while they are collected, to be looked up by a number. Contracts see their list.
#[derive(Drop)]
pub struct CollectedVlans {
    vlans: Items<PlacedVlan>,
    vids: BTreeSet<u16>,
}

impl Model for CollectedVlans {
    ghost use Rattle.std.specs.Prelude.{List};
    ghost use Rattle.conf_resolve.specs.declared.ordered.PlacedVlan.{PlacedVlan};
    ghost use Rattle.conf_resolve.specs.Indexed.{HaveVids};

    ghost Value = { List PlacedVlan };

    ghost view = { λ c. c.vlans };

    ghost invariant = { λ c. HaveVids c.vlans c.vids };
}

fn number_of(vlan: &RawVlan) -> u16
    ensures { result ≡ vlan.now.vid }
{
    vlan.vid.get()
}

impl CollectedVlans {
    /// No VLAN yet.
    pub fn new(alloc: Global) -> CollectedVlans
        ensures { result ≡ [] }
    {
        CollectedVlans {
            vlans: Items::new(alloc),
            vids: BTreeSet::new(alloc),
        }
    }

    /// Whether one of them has the number.
    pub fn has_vid(&self, vid: Vid) -> bool
        ensures found { result ≡ has_vid self.now vid }
        ensures range { IsVid vid }
    {
        self.vids.contains(&vid.get())
    }

    /// Adds a VLAN at the end. After `NoMemory` the VLANs are as they were, and this one is gone.
    pub fn push(&mut self, placed: PlacedVlan) -> Result<(), NoMemory>
        ensures ok { OnOk result (self.new ≡ self.old ++ placed ∷ []) }
        ensures err { OnErr result (self.new ≡ self.old) }
    {
        let number = number_of(&placed.vlan);
        let len = self.vlans.len();
        self.vlans.push(placed)?;
        if let Err(refused) = self.vids.insert(number) {
            self.vlans.truncate(len);
            return Err(AllocError::from(refused));
        }
        Ok(())
    }

    /// The VLANs themselves.
    pub fn into_items(self) -> Items<PlacedVlan>
        ensures { result ≡ self }
    {
        let CollectedVlans { vlans, vids: _ } = self;
        vlans
    }
}
