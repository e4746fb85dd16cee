ghost use Rattle.std.specs.Prelude.{◌≡◌, ◌<◌, ◌≤◌, ◌||◌, Bool, true, false, ℕ, length, slice_index_or, IfSome, IfNone};
ghost use Rattle.net_base.specs.declared.numbers.DpId.{DpId};
ghost use Rattle.conf_types.specs.declared.datapath.Dp.{Dp};
ghost use Rattle.conf_types.specs.Groups.{IsDp, AreGroups, leads_to, group_of, of_dps};
ghost use Rattle.conf_types.specs.Lists.{EachBefore};
ghost use Rattle.conf_types.specs.Marks.{AreMarked};

use crate::conf::Conf;
use crate::datapath::Dp;
use net_base::DpId;

/// At most so many datapaths has a configuration.
pub(crate) const MOST_DPS: usize = 64;

fn leads_to(from: &Dp, id: DpId) -> bool
    ensures { result ≡ leads_to from.now id }
{
    from.ports.as_slice().iter().any(|port| match port.stack {
        Some(far) => far.dp == id,
        None => false,
    })
}

// Marks the datapaths that a datapath's links lead to.
fn mark_next(dps: &[Dp], from: &Dp, seen: &mut [bool])
    requires { length seen.old ≡ length dps.now }
    ensures { (k : ℕ) (d : Dp) → k < length dps.now
        → slice_index_or seen.new k false ≡ (slice_index_or seen.old k false || leads_to from.now (slice_index_or dps.now k d).id) }
{
    for (k, dp) in dps.iter().enumerate() {
        if leads_to(from, dp.id) {
            seen[k] = true;
        }
    }
}

// A datapath that is marked and whose links weren't followed yet.
fn next_place(seen: &[bool], done: &[bool]) -> Option<usize>
    requires { length done.now ≡ length seen.now }
    ensures found { IfSome result (λ k. (k < length seen.now) × (slice_index_or seen.now k false ≡ true) × (slice_index_or done.now k true ≡ false)) }
    ensures none { IfNone result ((k : ℕ) → k < length seen.now → slice_index_or seen.now k false ≡ true → slice_index_or done.now k true ≡ true) }
{
    for k in 0..seen.len() {
        if seen[k] && !done[k] {
            return Some(k);
        }
    }
    None
}

// Marks the datapaths that walks over stack links lead to from the one at a place.
fn mark_joined(dps: &[Dp], at: usize, seen: &mut [bool], done: &mut [bool])
    requires place { at < length dps.now }
    requires seen_len { length seen.old ≡ length dps.now }
    requires done_len { length done.old ≡ length dps.now }
    requires none_seen { (k : ℕ) → k < length seen.old → slice_index_or seen.old k false ≡ false }
    requires none_done { (k : ℕ) → k < length done.old → slice_index_or done.old k true ≡ false }
    ensures { AreMarked (of_dps dps.now) at seen.new }
{
    seen[at] = true;
    while let Some(k) = next_place(seen, done) {
        done[k] = true;
        mark_next(dps, &dps[k], seen);
    }
}

// The marked datapath with the least identifier.
fn least_place(dps: &[Dp], at: usize, seen: &[bool]) -> usize
    requires place { at < length dps.now }
    requires len { length seen.now ≡ length dps.now }
    requires marked { slice_index_or seen.now at false ≡ true }
    ensures range { result < length dps.now }
    ensures marked { slice_index_or seen.now result false ≡ true }
    ensures least { (k : ℕ) (d : Dp) → k < length dps.now → slice_index_or seen.now k false ≡ true
        → (slice_index_or dps.now result d).id.0 ≤ (slice_index_or dps.now k d).id.0 }
{
    let mut best = at;
    for k in 0..dps.len() {
        if seen[k] && dps[k].id.0 < dps[best].id.0 {
            best = k;
        }
    }
    best
}

// Where the datapath with an identifier stands.
fn place_of(dps: &[Dp], id: DpId) -> Option<usize>
    ensures within { IfSome result (λ k. k < length dps.now) }
    ensures found { IfSome result (λ k. (d : Dp) → (slice_index_or dps.now k d).id ≡ id) }
    ensures none { IfNone result ((k : ℕ) (d : Dp) → k < length dps.now → (slice_index_or dps.now k d).id ≡ id → ⊥) }
{
    for (k, dp) in dps.iter().enumerate() {
        if dp.id == id {
            return Some(k);
        }
    }
    None
}

/// The number of the group of the datapath at a place, counted from 0: the least identifier among
/// those of the datapaths that stack links join to it. Of a configuration that isn't checked yet, as
/// long as its datapaths are at most 64 and their identifiers differ.
pub fn group_at(dps: &[Dp], at: usize) -> DpId
    requires place { at < length dps.now }
    requires few { length dps.now ≤ 64 }
    requires distinct { EachBefore (λ d e. d.id.0 ≡ e.id.0 → ⊥) dps.now }
    ensures { (d : Dp) → result ≡ group_of (of_dps dps.now) (slice_index_or dps.now at d).id }
{
    let mut seen = [false; MOST_DPS];
    let mut done = [false; MOST_DPS];
    let seen = &mut seen[..dps.len()];
    let done = &mut done[..dps.len()];
    mark_joined(dps, at, seen, done);
    dps[least_place(dps, at, seen)].id
}

/// The number of the group of each datapath, at its place.
pub(crate) fn groups_of(dps: &[Dp]) -> [DpId; MOST_DPS]
    requires few { length dps.now ≤ 64 }
    requires distinct { EachBefore (λ d e. d.id.0 ≡ e.id.0 → ⊥) dps.now }
    ensures { AreGroups dps.now result }
{
    let mut groups = [DpId(0); MOST_DPS];
    for at in 0..dps.len() {
        groups[at] = group_at(dps, at);
    }
    groups
}

impl Conf {
    /// The number of a datapath's group: the least identifier among those of the datapaths that stack
    /// links join to it, whether or not their ends are enabled. `None` exactly where there is no such
    /// datapath.
    pub fn group(&self, dp: DpId) -> Option<DpId>
        ensures number { IfSome result (λ number. number ≡ group_of self.now dp) }
        ensures found { IfSome result (λ _. IsDp self.now dp) }
        ensures none { IfNone result (IsDp self.now dp → ⊥) }
    {
        let dps = self.dps().as_slice();
        match place_of(dps, dp) {
            Some(at) => Some(self.group_of_place(at)),
            None => None,
        }
    }
}
