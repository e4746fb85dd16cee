//! The VIPs of the VLANs that were met so far.

ghost use Rattle.std.specs.Prelude.{◌≡◌, ◌==◌, ◌++◌, [], ℕ, OnOk, if◌then◌else◌};
ghost use Rattle.conf_limits.specs.MetVips.{met_vips};

use conf_types::Net;
use net_base::{NoMemory, Vid};
use std::alloc::Global;
use std::collections::HashMap;

pub(crate) type MetVips = HashMap<Vid, Vec<Net>>;

/// The VIPs of the VLANs with the identifier that were met.
pub(crate) fn met_vips(met: &MetVips, vid: Vid) -> &[Net]
    ensures { result.now ≡ met_vips met.now vid }
{
    match met.get(&vid) {
        Some(vips) => vips.as_slice(),
        None => &[],
    }
}

/// From now on these VIPs of the VLAN are met.
pub(crate) fn meet_vips(
    alloc: Global,
    met: &mut MetVips,
    vid: Vid,
    vips: &[Net],
) -> Result<(), NoMemory>
    ensures { OnOk result ((n : ℕ) → met_vips met.new n ≡ met_vips met.old n ++ (if vid == n then vips.now else [])) }
{
    let mut all = match met.remove(&vid) {
        Some(all) => all,
        None => Vec::new(alloc),
    };
    all.extend_from_slice(vips)?;
    met.insert(vid, all)?;
    Ok(())
}
