//! The VLANs that packets of a VLAN are routed to.

ghost use Rattle.std.specs.Prelude.{◌≡◌, ◌==◌, ◌||◌, ◌&&◌, ◌<◌, ◌++◌, ◌∷◌, [], ℕ, Bool, IfOk, OnOk, false, if◌then◌else◌, slice_index_or};
ghost use Rattle.std.specs.List.{list_any};
ghost use Rattle.conf_types.specs.Lists.{is_among};
ghost use Rattle.conf_limits.specs.Joined.{places_at, has_at, LeadToRouters};
ghost use Rattle.conf_rules.specs.Routing.{are_routed};

use conf_resolve::Resolved;
use conf_rules::{see_vid, seen_once};
use conf_types::Router;
use net_base::{NoMemory, Vid};
use std::alloc::Global;
use std::collections::HashMap;

/// The places of routers, by the identifiers of their VLANs.
type Places = HashMap<Vid, Vec<usize>>;

/// A configuration, and for each identifier the places of the routers that have it.
#[derive(Drop)]
pub(crate) struct Joined<'a> {
    conf: &'a Resolved,
    places: Places,
    ghost right: { LeadToRouters places conf.now.routers conf.now.routers },
}

/// The places of the routers that have the identifier.
fn places_at(places: &Places, vid: Vid) -> &[usize]
    ensures { result.now ≡ places_at places.now vid }
{
    match places.get(&vid) {
        Some(at) => at.as_slice(),
        None => &[],
    }
}

/// From now on the identifier leads to the place too.
fn add_place(alloc: Global, places: &mut Places, vid: Vid, at: usize) -> Result<(), NoMemory>
    ensures { OnOk result ((n : ℕ) → places_at places.new n ≡ places_at places.old n ++ (if vid == n then at ∷ [] else [])) }
{
    let mut all = match places.remove(&vid) {
        Some(all) => all,
        None => Vec::new(alloc),
    };
    all.push(at)?;
    places.insert(vid, all)?;
    Ok(())
}

/// From now on these identifiers lead to the place too.
fn add_router(alloc: Global, places: &mut Places, vids: &[Vid], at: usize) -> Result<(), NoMemory>
    ensures { OnOk result ((p : ℕ → Bool) (n : ℕ) → list_any p (places_at places.new n) ≡ (list_any p (places_at places.old n) || (is_among vids.now n && p at))) }
{
    for vid in vids {
        add_place(alloc, places, *vid, at)?;
    }
    Ok(())
}

fn places_of(alloc: Global, routers: &[Router]) -> Result<Places, NoMemory>
    ensures { IfOk result (λ places. LeadToRouters places routers.now routers.now) }
{
    let mut places = HashMap::new(alloc);
    for (i, router) in routers.iter().enumerate() {
        add_router(alloc, &mut places, router.vlans.as_slice(), i)?;
    }
    Ok(places)
}

/// Adds an identifier that isn't listed; there is a table of those that are.
fn list_vid(seen: &mut [bool; 4096], vids: &mut Vec<Vid>, vid: Vid) -> Result<(), NoMemory>
    requires { (n : ℕ) → n < 4096 → slice_index_or seen.old n false ≡ is_among vids.old.items n }
    ensures seen { OnOk result ((n : ℕ) → n < 4096 → slice_index_or seen.new n false ≡ is_among vids.new.items n) }
    ensures vids { OnOk result ((n : ℕ) → is_among vids.new.items n ≡ (is_among vids.old.items n || vid == n)) }
{
    if see_vid(seen, vid) {
        return Ok(());
    }
    vids.push(vid)?;
    Ok(())
}

/// Adds those identifiers that aren't listed; there is a table of those that are.
fn list_vids(seen: &mut [bool; 4096], vids: &mut Vec<Vid>, more: &[Vid]) -> Result<(), NoMemory>
    requires { (n : ℕ) → n < 4096 → slice_index_or seen.old n false ≡ is_among vids.old.items n }
    ensures seen { OnOk result ((n : ℕ) → n < 4096 → slice_index_or seen.new n false ≡ is_among vids.new.items n) }
    ensures vids { OnOk result ((n : ℕ) → is_among vids.new.items n ≡ (is_among vids.old.items n || is_among more.now n)) }
{
    for vid in more {
        list_vid(seen, vids, *vid)?;
    }
    Ok(())
}

/// Adds those identifiers of the router at the place that aren't listed.
fn list_router(
    seen: &mut [bool; 4096],
    vids: &mut Vec<Vid>,
    routers: &[Router],
    at: usize,
) -> Result<(), NoMemory>
    requires { (n : ℕ) → n < 4096 → slice_index_or seen.old n false ≡ is_among vids.old.items n }
    ensures seen { OnOk result ((n : ℕ) → n < 4096 → slice_index_or seen.new n false ≡ is_among vids.new.items n) }
    ensures vids { OnOk result ((n : ℕ) → is_among vids.new.items n ≡ (is_among vids.old.items n || has_at routers.now n at)) }
{
    match routers.get(at) {
        Some(router) => list_vids(seen, vids, router.vlans.as_slice()),
        None => Ok(()),
    }
}

impl<'a> Joined<'a> {
    pub(crate) fn of(alloc: Global, conf: &'a Resolved) -> Result<Joined<'a>, NoMemory>
        ensures { IfOk result (λ made. made.conf.now ≡ conf.now) }
    {
        let places = places_of(alloc, conf.routers().as_slice())?;
        Ok(Joined { conf, places })
    }

    pub(crate) fn conf(&self) -> &Resolved
        ensures { result.now ≡ self.now.conf.now }
    {
        self.conf
    }

    /// The VLANs that packets of a VLAN are routed to, and the VLAN itself, each once.
    pub(crate) fn routed_vids(&self, alloc: Global, vid: Vid) -> Result<Vec<Vid>, NoMemory>
        ensures { IfOk result (λ vids. (n : ℕ) → is_among vids.items n ≡ are_routed self.now.conf.now n vid) }
    {
        let mut seen = seen_once(Some(vid));
        let mut vids = Vec::new(alloc);
        vids.push(vid)?;
        for at in places_at(&self.places, vid) {
            list_router(&mut seen, &mut vids, self.conf.routers().as_slice(), *at)?;
        }
        Ok(vids)
    }
}
