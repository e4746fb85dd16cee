//! The ACLs of a configuration, each found by one look at its name.

ghost use Rattle.std.specs.Prelude.{◌≡◌, ℕ, List, Some, IfOk, OnOk, is_some, option_and_then, if◌then◌else◌};
ghost use Rattle.std.specs.BTreeMap.{get_by_text};
ghost use Rattle.std.specs.List.{slice_get};
ghost use Rattle.std.specs.Option.{option_copied};
ghost use Rattle.conf_types.specs.Attached.{acl_named};
ghost use Rattle.conf_types.specs.Lists.{is_same};
ghost use Rattle.conf_rules.specs.AclPlaces.{LeadToFirst};

use conf_resolve::Resolved;
use conf_types::Acl;
use net_base::{NoMemory, Text};
use std::alloc::Global;
use std::collections::BTreeMap;
use std::marker::Model;

/// Of each name, the place of the first ACL that has it.
type Places = BTreeMap<String, usize>;

/// A configuration whose ACLs are each found by one look at a name. Contracts see the configuration.
#[derive(Drop)]
pub struct AclNames<'a> {
    conf: &'a Resolved,
    places: Places,
}

impl<'a> Model for AclNames<'a> {
    ghost use Rattle.conf_types.specs.Configuration.{Configuration};
    ghost use Rattle.conf_rules.specs.AclPlaces.{LeadToFirst};

    ghost Value = { Configuration };

    ghost view = { λ a. a.conf.now };

    ghost invariant = { λ a. LeadToFirst a.conf.now.acls a.places };
}

/// From now on the name of the ACL leads to the place.
fn add_acl(alloc: Global, places: &mut Places, acl: &Acl, at: usize) -> Result<(), NoMemory>
    ensures { OnOk result ((t : List ℕ) → get_by_text places.new t ≡ (if is_same acl.now.name t then Some at else get_by_text places.old t)) }
{
    let key = String::from_str(alloc, acl.name.as_str())?;
    places.insert(key, at)?;
    Ok(())
}

fn places_of(alloc: Global, acls: &[Acl]) -> Result<Places, NoMemory>
    ensures { IfOk result (λ places. LeadToFirst acls.now places) }
{
    let mut places = BTreeMap::new(alloc);
    for i in (0..acls.len()).rev() {
        add_acl(alloc, &mut places, &acls[i], i)?;
    }
    Ok(places)
}

fn place_of(places: &Places, name: &Text) -> Option<usize>
    ensures { result ≡ get_by_text places.now name.now }
{
    places.get(name.as_str()).copied()
}

/// The ACL at the place, where there is one.
fn acl_at(acls: &[Acl], at: Option<usize>) -> Option<&Acl>
    ensures { option_copied result ≡ option_and_then (slice_get acls.now) at }
{
    acls.get(at?)
}

impl<'a> AclNames<'a> {
    /// The ACLs of this configuration; the only error is that memory runs out.
    pub fn of(alloc: Global, conf: &'a Resolved) -> Result<AclNames<'a>, NoMemory>
        ensures { IfOk result (λ made. made ≡ conf.now) }
    {
        let places = places_of(alloc, conf.acls().as_slice())?;
        Ok(AclNames { conf, places })
    }

    /// The configuration.
    pub fn conf(&self) -> &Resolved
        ensures { result.now ≡ self.now }
    {
        self.conf
    }

    /// The first ACL with the name.
    pub fn find(&self, name: &Text) -> Option<&Acl>
        ensures { option_copied result ≡ acl_named self.now.acls name.now }
    {
        acl_at(self.conf.acls().as_slice(), place_of(&self.places, name))
    }

    /// Whether an ACL has the name.
    pub fn has(&self, name: &Text) -> bool
        ensures { result ≡ is_some (acl_named self.now.acls name.now) }
    {
        self.find(name).is_some()
    }
}
