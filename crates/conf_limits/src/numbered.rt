//! VLANs and routers, found by the identifiers of VLANs.

ghost use Rattle.std.specs.Prelude.{◌≡◌, ◌<◌, ℕ, slice_index, if◌then◌else◌};
ghost use Rattle.std.specs.List.{slice_get};
ghost use Rattle.std.specs.Option.{option_copied};
ghost use Rattle.conf_types.specs.Configuration.{vlan_with};
ghost use Rattle.conf_types.specs.Lists.{is_among};
ghost use Rattle.conf_types.specs.Routing.{router_with};

use conf_resolve::Resolved;
use conf_types::{Router, Vlan};
use net_base::Vid;

/// A configuration, and for each identifier the places of the first VLAN and of the first router
/// that have it.
#[derive(Drop)]
pub(crate) struct Numbered<'a> {
    conf: &'a Resolved,
    vlans: [usize; 4096],
    routers: [usize; 4096],
    ghost right_vlans: { (n : ℕ) → n < 4096 → slice_get conf.now.vlans (slice_index vlans n) ≡ vlan_with conf.now.vlans n },
    ghost right_routers: { (n : ℕ) → n < 4096 → slice_get conf.now.routers (slice_index routers n) ≡ router_with conf.now.routers n },
}

/// The place of the first VLAN with each identifier, or behind the last where there is none.
fn firsts_of(vlans: &[Vlan]) -> [usize; 4096]
    ensures { (n : ℕ) → n < 4096 → slice_get vlans.now (slice_index result n) ≡ vlan_with vlans.now n }
{
    let mut firsts = [vlans.len(); 4096];
    for i in (0..vlans.len()).rev() {
        firsts[usize::from(vlans[i].vid.get())] = i;
    }
    firsts
}

/// From now on these identifiers lead to the place.
fn lead_to(places: &mut [usize; 4096], vids: &[Vid], at: usize)
    ensures { (n : ℕ) → n < 4096 → slice_index places.new n ≡ (if is_among vids.now n then at else slice_index places.old n) }
{
    for vid in vids {
        places[usize::from(vid.get())] = at;
    }
}

/// The place of the first router of each VLAN, or behind the last where there is none.
fn routers_of(routers: &[Router]) -> [usize; 4096]
    ensures { (n : ℕ) → n < 4096 → slice_get routers.now (slice_index result n) ≡ router_with routers.now n }
{
    let mut places = [routers.len(); 4096];
    for i in (0..routers.len()).rev() {
        lead_to(&mut places, routers[i].vlans.as_slice(), i);
    }
    places
}

impl<'a> Numbered<'a> {
    pub(crate) fn of(conf: &'a Resolved) -> Numbered<'a>
        ensures { result.conf.now ≡ conf.now }
    {
        let vlans = firsts_of(conf.vlans().as_slice());
        let routers = routers_of(conf.routers().as_slice());
        Numbered {
            conf,
            vlans,
            routers,
        }
    }

    /// The first VLAN with the identifier.
    pub(crate) fn vlan(&self, vid: Vid) -> Option<&Vlan>
        ensures { option_copied result ≡ vlan_with self.now.conf.now.vlans vid }
    {
        let at = self.vlans[usize::from(vid.get())];
        self.conf.vlans().as_slice().get(at)
    }

    /// The first router of the VLAN with the identifier.
    pub(crate) fn router(&self, vid: Vid) -> Option<&Router>
        ensures { option_copied result ≡ router_with self.now.conf.now.routers vid }
    {
        let at = self.routers[usize::from(vid.get())];
        self.conf.routers().as_slice().get(at)
    }
}
