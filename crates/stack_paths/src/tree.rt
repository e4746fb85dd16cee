ghost use Rattle.std.specs.Prelude.{◌≡◌, ◌⊎◌, ◌↔◌, ◌<◌, ◌≤◌, ℕ, Some, All, Contains, length, IfOk, OnOk, slice_index_or, vec_len};
ghost use Rattle.stack_paths.specs.Trees.{UplinkAt, AreUplinks, IsEndOf, IsEndOfSome, IsTreeOf};

use crate::hops::Hop;
use crate::ways::Ways;
use net_base::{NoMemory, PortNo};
use std::alloc::Global;

/// The first hop from a place to the root of its part; `None` at the root.
fn uplink_at(ways: &[Ways], roots: &[usize], place: usize) -> Option<Hop>
    requires place { place < length roots.now }
    requires roots { All (λ r. r < length ways.now) roots.now }
    requires hops { All (λ w. length w.hops.items ≡ length roots.now) ways.now }
    ensures { (h : _) → (result ≡ Some h) ↔ UplinkAt ways.now roots.now place h }
{
    let to_root = &ways[roots[place]];
    to_root.hops[place]
}

/// The uplinks of all places.
pub(crate) fn uplinks_of(
    alloc: Global,
    ways: &[Ways],
    roots: &[usize],
) -> Result<Vec<Hop>, NoMemory>
    requires roots { All (λ r. r < length ways.now) roots.now }
    requires hops { All (λ w. length w.hops.items ≡ length roots.now) ways.now }
    ensures { IfOk result (λ uplinks. AreUplinks ways.now roots.now uplinks.items) }
{
    let mut uplinks = Vec::with_capacity(alloc, roots.len())?;
    for place in 0..roots.len() {
        if let Some(hop) = uplink_at(ways, roots, place) {
            uplinks.push(hop)?;
        }
    }
    Ok(uplinks)
}

/// Adds the ports of a place that are ends of the hop.
fn add_ends(ports: &mut Vec<PortNo>, hop: &Hop, place: usize) -> Result<(), NoMemory>
    ensures { OnOk result
        ((p : ℕ) → Contains ports.new.items p ↔ (Contains ports.old.items p ⊎ IsEndOf hop.now place p)) }
{
    if hop.from == place {
        ports.push(hop.port)?;
    }
    if hop.to == place {
        ports.push(hop.far_port)?;
    }
    Ok(())
}

/// The ports of a place that are ends of uplinks.
fn ends_at(alloc: Global, uplinks: &[Hop], place: usize) -> Result<Vec<PortNo>, NoMemory>
    ensures { IfOk result
        (λ ports. (p : ℕ) → Contains ports.items p ↔ IsEndOfSome uplinks.now place p) }
{
    let mut ports = Vec::new(alloc);
    for hop in uplinks {
        add_ends(&mut ports, hop, place)?;
    }
    Ok(ports)
}

/// The same in ascending order, each once.
fn tree_at(alloc: Global, uplinks: &[Hop], place: usize) -> Result<Vec<PortNo>, NoMemory>
    ensures { IfOk result (λ ports. IsTreeOf uplinks.now place ports.items) }
{
    let mut ports = ends_at(alloc, uplinks, place)?;
    ports.sort_unstable();
    ports.dedup();
    Ok(ports)
}

/// The tree ports of each place.
pub(crate) fn trees_of(
    alloc: Global,
    count: usize,
    uplinks: &[Hop],
) -> Result<Vec<Vec<PortNo>>, NoMemory>
    ensures len { IfOk result (λ trees. vec_len trees ≡ count) }
    ensures each { IfOk result
        (λ trees. (i : ℕ) (d : _) → i < count → IsTreeOf uplinks.now i (slice_index_or trees.items i d).items) }
{
    let mut trees = Vec::with_capacity(alloc, count)?;
    for place in 0..count {
        trees.push(tree_at(alloc, uplinks, place)?)?;
    }
    Ok(trees)
}
