//! VLANs that are made since a number names them.

ghost use Rattle.std.specs.Prelude.{◌≡◌, [], ◌∷◌, ◌++◌, codes, IfOk, OnOk};
ghost use Rattle.std.specs.Fmt.{decimal};
ghost use Rattle.net_base.specs.Numbers.{IsVid};
ghost use Rattle.conf_resolve.specs.InOrder.{made_vlan, by_number, by_numbers};
ghost use Rattle.conf_resolve.specs.InRange.{NamesVlan};
ghost use Rattle.conf_resolve.specs.Added.{new_number, with_each};

use crate::collected::CollectedVlans;
use crate::ordered::PlacedVlan;
use conf_shape::{RawAclNames, RawNames, RawVlan, VlanRef};
use net_base::{Items, Mac, Names, NoMemory, Text, TryCopy, Vid};
use std::alloc::Global;

/// The keys and places that lead to a step below a site.
pub fn under(alloc: Global, site: &Names, step: &str) -> Result<Names, NoMemory>
    ensures { IfOk result (λ made. made ≡ site.now ++ step.now ∷ []) }
{
    let mut made = site.copy(alloc)?;
    made.push(Text::from_str(alloc, step)?)?;
    Ok(made)
}

/// The names of a VLAN of which nothing but its number is written.
fn make_names(alloc: Global, vid: Vid) -> Result<RawNames, NoMemory>
    ensures { IfOk result (λ made. made ≡ (made_vlan vid).names) }
{
    let digits = vid.get().to_string(alloc)?;
    Ok(RawNames {
        key: Text::from_str(alloc, digits.as_str())?,
        has_name: false,
        name: Text::from_str(alloc, digits.as_str())?,
        description: Text::from_str(alloc, digits.as_str())?,
    })
}

/// A VLAN that stands by itself, under its number as its key, with nothing written of it.
fn make_vlan(alloc: Global, vid: Vid) -> Result<RawVlan, NoMemory>
    ensures made { IfOk result (λ made. made ≡ made_vlan vid) }
    ensures range { IsVid vid }
{
    let names = make_names(alloc, vid)?;
    let _ = vid.get();
    Ok(RawVlan {
        names,
        has_vid: false,
        vid,
        acls: RawAclNames {
            one: None,
            list: None,
        },
        mac: Mac([14, 0, 0, 0, 0, 1]),
        vips: Items::new(alloc),
        routes: Items::new(alloc),
        max_hosts: 255,
        unicast_flood: true,
    })
}

/// The number that is named, where none of the VLANs has it.
fn new_number(vlans: &CollectedVlans, name: &VlanRef) -> Option<Vid>
    ensures number { result ≡ new_number vlans.now name.now }
    ensures range { NamesVlan name.now }
{
    match name {
        VlanRef::Vid(vid) => {
            if vlans.has_vid(*vid) {
                None
            } else {
                Some(*vid)
            }
        }
        VlanRef::Name(_) => None,
    }
}

fn add_made(
    alloc: Global,
    vlans: &mut CollectedVlans,
    site: &Names,
    step: &str,
    vid: Vid,
) -> Result<(), NoMemory>
    ensures made { OnOk result (vlans.new ≡ vlans.old ++ record { site = site.now ++ step.now ∷ []; vlan = made_vlan vid } ∷ []) }
    ensures range { OnOk result (IsVid vid) }
{
    let site = under(alloc, site, step)?;
    let vlan = make_vlan(alloc, vid)?;
    vlans.push(PlacedVlan { site, vlan })
}

/// Adds the VLAN that a number names at a step below a site, where none has the number.
pub fn add_named(
    alloc: Global,
    vlans: &mut CollectedVlans,
    site: &Names,
    step: &str,
    name: &VlanRef,
) -> Result<(), NoMemory>
    ensures { OnOk result (vlans.new ≡ with_each vlans.old (by_number (site.now ++ step.now ∷ []) name.now)) }
{
    match new_number(vlans, name) {
        Some(vid) => add_made(alloc, vlans, site, step, vid),
        None => Ok(()),
    }
}

/// Adds the VLANs that the numbers of a list name, each at its place.
pub fn add_numbers(
    alloc: Global,
    vlans: &mut CollectedVlans,
    site: &Names,
    names: &[VlanRef],
) -> Result<(), NoMemory>
    ensures { OnOk result (vlans.new ≡ with_each vlans.old (by_numbers site.now names.now)) }
{
    for (i, name) in names.iter().enumerate() {
        let step = i.to_string(alloc)?;
        add_named(alloc, vlans, site, step.as_str(), name)?;
    }
    Ok(())
}
