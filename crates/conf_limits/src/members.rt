//! How many VLANs an interface is a member of.

ghost use Rattle.std.specs.Prelude.{◌≡◌, ◌==◌, ◌||◌, ◌<◌, ℕ, count_by, slice_index};
ghost use Rattle.conf_limits.specs.Sizes.{members_among};
ghost use Rattle.conf_types.specs.Membership.{is_edge_member, is_native_in, is_tagged_in};

use conf_rules::{count_vids, see_vid, seen_once};
use conf_types::{Port, Vlan};
use net_base::Vid;

/// VLANs, and how many of them have each identifier.
#[derive(Drop)]
pub(crate) struct Counted<'a> {
    vlans: &'a [Vlan],
    counts: [usize; 4096],
    ghost right: { (n : ℕ) → n < 4096 → slice_index counts n ≡ count_by (λ v. v.vid == n) vlans.now },
}

impl<'a> Counted<'a> {
    pub(crate) fn of(vlans: &'a [Vlan]) -> Counted<'a>
        ensures { result.vlans.now ≡ vlans.now }
    {
        let counts = count_vids(vlans);
        Counted { vlans, counts }
    }

    fn with_vid(&self, vid: Vid) -> usize
        ensures { result ≡ count_by (λ v. v.vid == vid) self.now.vlans.now }
    {
        self.counts[usize::from(vid.get())]
    }

    fn with_native(&self, port: &Port) -> usize
        ensures { result ≡ count_by (λ v. is_native_in port.now v.vid) self.now.vlans.now }
    {
        match port.native {
            Some(vid) => self.with_vid(vid),
            None => 0,
        }
    }

    fn named(&self, port: &Port) -> usize
        ensures { result ≡ count_by (λ v. is_native_in port.now v.vid || is_tagged_in port.now v.vid) self.now.vlans.now }
    {
        let mut seen = seen_once(port.native);
        let mut count = self.with_native(port);
        for vid in port.tagged.as_slice() {
            if !see_vid(&mut seen, *vid) {
                count += self.with_vid(*vid);
            }
        }
        count
    }

    fn edge_members(&self, port: &Port) -> usize
        ensures { result ≡ count_by (λ v. is_edge_member port.now v.vid) self.now.vlans.now }
    {
        if port.is_edge() { self.named(port) } else { 0 }
    }

    /// How many of the VLANs have the interface as a member.
    pub(crate) fn members(&self, port: &Port) -> usize
        ensures { result ≡ members_among self.now.vlans.now port.now }
    {
        if port.is_stack() {
            self.vlans.len()
        } else {
            self.edge_members(port)
        }
    }
}
