//! Tables with a place for each VLAN identifier.

ghost use Rattle.std.specs.Prelude.{◌≡◌, ◌==◌, ◌<◌, ◌||◌, ℕ, IfSome, true, false, count_by, slice_index, slice_index_or, slice_set};
ghost use Rattle.std.specs.Option.{option_map_or};
ghost use Rattle.conf_types.specs.Lists.{is_among};

use conf_types::Vlan;
use net_base::Vid;

/// Whether the identifier was seen; from now on it is.
pub fn see_vid(seen: &mut [bool; 4096], vid: Vid) -> bool
    ensures was { result ≡ slice_index_or seen.old vid false }
    ensures is { seen.new ≡ slice_set seen.old vid true }
    ensures within { vid < 4096 }
{
    let at = usize::from(vid.get());
    let was = seen[at];
    seen[at] = true;
    was
}

/// Whether the identifier was seen; from now on it is. No identifier is never seen.
pub fn see_some(seen: &mut [bool; 4096], vid: Option<Vid>) -> bool
    ensures was { result ≡ option_map_or (λ v. slice_index_or seen.old v false) vid false }
    ensures is { (n : ℕ) → n < 4096 → slice_index_or seen.new n false ≡ (slice_index_or seen.old n false || option_map_or (λ v. v == n) vid false) }
    ensures within { IfSome vid (λ v. v < 4096) }
{
    match vid {
        Some(vid) => see_vid(seen, vid),
        None => false,
    }
}

/// From now on these identifiers are seen.
pub fn see_all(seen: &mut [bool; 4096], vids: &[Vid])
    ensures { (n : ℕ) → n < 4096 → slice_index_or seen.new n false ≡ (slice_index_or seen.old n false || is_among vids.now n) }
{
    for vid in vids {
        see_vid(seen, *vid);
    }
}

/// A table in which the identifier was seen, if there is one, and nothing else.
pub fn seen_once(vid: Option<Vid>) -> [bool; 4096]
    ensures { (n : ℕ) → n < 4096 → slice_index_or result n false ≡ option_map_or (λ v. v == n) vid false }
{
    let mut seen = [false; 4096];
    if let Some(vid) = vid {
        see_vid(&mut seen, vid);
    }
    seen
}

/// How many VLANs have each identifier.
pub fn count_vids(vlans: &[Vlan]) -> [usize; 4096]
    ensures { (n : ℕ) → n < 4096 → slice_index result n ≡ count_by (λ v. v.vid == n) vlans.now }
{
    let mut counts = [0; 4096];
    for vlan in vlans {
        counts[usize::from(vlan.vid.get())] += 1;
    }
    counts
}
