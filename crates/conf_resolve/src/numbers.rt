//! Lists of names, and of the numbers that names stand for.

ghost use Rattle.std.specs.Prelude.{◌≡◌, ◌++◌, [], ℕ, IfOk, OnOk, option_and_then};
ghost use Rattle.std.specs.BTreeSet.{contains};
ghost use Rattle.std.specs.List.{filter_map};
ghost use Rattle.std.specs.Ordering.{nat_cmp};
ghost use Rattle.conf_types.specs.Lists.{is_among};
ghost use Rattle.conf_resolve.specs.Resolved.{to_list, once, vid_of, acl_names};
ghost use Rattle.conf_resolve.specs.Added.{with_number};

use crate::ordered::OrderedConf;
use crate::seen::see_number;
use conf_shape::{RawAclNames, VlanRef};
use conf_types::{PortNos, Vids};
use net_base::{Items, Names, NoMemory, PortNo, Text, TryCopy, Vid};
use std::alloc::Global;
use std::collections::BTreeSet;

fn one_name(alloc: Global, name: &Text) -> Result<Names, NoMemory>
    ensures { IfOk result (λ made. made ≡ to_list (Some name.now)) }
{
    let mut made = Names::new(alloc);
    made.push(name.copy(alloc)?)?;
    Ok(made)
}

/// The names of ACLs: `acl_in` where it is given, or else those of `acls_in`.
pub fn acl_names(alloc: Global, acls: &RawAclNames) -> Result<Names, NoMemory>
    ensures { IfOk result (λ made. made ≡ acl_names acls.now) }
{
    match &acls.one {
        Some(name) => one_name(alloc, name),
        None => match &acls.list {
            Some(names) => names.copy(alloc),
            None => Ok(Names::new(alloc)),
        },
    }
}

/// The VLAN of packets without a tag.
pub fn native_of(conf: &OrderedConf, native: &Option<VlanRef>) -> Option<Vid>
    ensures { result ≡ option_and_then (vid_of conf.now.vlans) native.now }
{
    match native {
        Some(name) => conf.vid_of(name),
        None => None,
    }
}

fn push_some(vids: &mut Vids, vid: Option<Vid>) -> Result<(), NoMemory>
    ensures { OnOk result (vids.new ≡ vids.old ++ to_list vid) }
{
    match vid {
        Some(vid) => vids.push(vid),
        None => Ok(()),
    }
}

/// The identifiers of the VLANs that are named, without those that no VLAN has.
pub fn vids_of(alloc: Global, conf: &OrderedConf, names: &[VlanRef]) -> Result<Vids, NoMemory>
    ensures { IfOk result (λ vids. vids ≡ filter_map (vid_of conf.now.vlans) names.now) }
{
    let mut vids = Items::new(alloc);
    for name in names {
        push_some(&mut vids, conf.vid_of(name))?;
    }
    Ok(vids)
}

/// Adds an identifier that isn't there; there is a set of those that are.
fn push_vid(vids: &mut Vids, seen: &mut BTreeSet<u128>, vid: Vid) -> Result<(), NoMemory>
    requires { (n : ℕ) → contains nat_cmp seen.old n ≡ is_among vids.old n }
    ensures vids { OnOk result (vids.new ≡ with_number vids.old vid) }
    ensures seen { OnOk result ((n : ℕ) → contains nat_cmp seen.new n ≡ is_among vids.new n) }
{
    if see_number(seen, u128::from(vid.get()))? {
        return Ok(());
    }
    vids.push(vid)
}

/// Identifiers, each at its first place.
pub fn vids_once(alloc: Global, vids: &[Vid]) -> Result<Vids, NoMemory>
    ensures { IfOk result (λ made. made ≡ once vids.now) }
{
    let mut made = Items::new(alloc);
    let mut seen = BTreeSet::new(alloc);
    for vid in vids {
        push_vid(&mut made, &mut seen, *vid)?;
    }
    Ok(made)
}

/// Adds a number that isn't there; there is a set of those that are.
fn push_number(
    numbers: &mut PortNos,
    seen: &mut BTreeSet<u128>,
    number: PortNo,
) -> Result<(), NoMemory>
    requires { (n : ℕ) → contains nat_cmp seen.old n ≡ is_among numbers.old n }
    ensures numbers { OnOk result (numbers.new ≡ with_number numbers.old number) }
    ensures seen { OnOk result ((n : ℕ) → contains nat_cmp seen.new n ≡ is_among numbers.new n) }
{
    if see_number(seen, u128::from(number.get()))? {
        return Ok(());
    }
    numbers.push(number)
}

/// Numbers of interfaces, each at its first place.
pub fn numbers_once(alloc: Global, numbers: &[PortNo]) -> Result<PortNos, NoMemory>
    ensures { IfOk result (λ made. made ≡ once numbers.now) }
{
    let mut made = Items::new(alloc);
    let mut seen = BTreeSet::new(alloc);
    for number in numbers {
        push_number(&mut made, &mut seen, *number)?;
    }
    Ok(made)
}
