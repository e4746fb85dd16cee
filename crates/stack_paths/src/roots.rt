ghost use Rattle.std.specs.Prelude.{◌≡◌, ◌<◌, ◌≤◌, ℕ, Some, length, IfOk, MatchBool, vec_len};
ghost use Rattle.stack_paths.specs.Stack.{RanksFirst};
ghost use Rattle.stack_paths.specs.Hops.{answer_at};
ghost use Rattle.stack_paths.specs.Trees.{PlaceRanksFirst, IsRootPlace, AreRoots, ReachThemselves};

use crate::ways::Ways;
use net_base::{NoMemory, Node};
use std::alloc::Global;

/// Whether the first of two datapaths is the root rather than the second, by their priorities and
/// then by their places.
fn ranks_first(
    first: Option<u32>,
    first_place: usize,
    second: Option<u32>,
    second_place: usize,
) -> bool
    ensures { MatchBool result
        (RanksFirst first first_place second second_place)
        (RanksFirst second second_place first first_place) }
{
    match (first, second) {
        (Some(p), Some(q)) => p < q || p == q && first_place <= second_place,
        (Some(_), None) => true,
        (None, Some(_)) => false,
        (None, None) => first_place <= second_place,
    }
}

/// The same of the datapaths at two places.
fn place_ranks_first(nodes: &[Node], i: usize, j: usize) -> bool
    requires i { i < length nodes.now }
    requires j { j < length nodes.now }
    ensures { MatchBool result (PlaceRanksFirst nodes.now i j) (PlaceRanksFirst nodes.now j i) }
{
    ranks_first(nodes[i].priority, i, nodes[j].priority, j)
}

/// Whether the datapath at `place` has a distance and is the root rather than the one so far.
fn takes_root(nodes: &[Node], distances: &[Option<u32>], place: usize, root: usize) -> bool
    requires size { length distances.now ≡ length nodes.now }
    requires place { place < length nodes.now }
    requires root { root < length nodes.now }
    ensures { MatchBool result
        (((n : ℕ) × (answer_at distances.now place ≡ Some n))
        × PlaceRanksFirst nodes.now place root)
        ((n : ℕ) → answer_at distances.now place ≡ Some n → PlaceRanksFirst nodes.now root place) }
{
    distances[place].is_some() && place_ranks_first(nodes, place, root)
}

/// The root of a part: of the datapaths with a distance, of which `start` is one.
fn root_among(nodes: &[Node], distances: &[Option<u32>], start: usize) -> usize
    requires size { length distances.now ≡ length nodes.now }
    requires start { (n : ℕ) × (answer_at distances.now start ≡ Some n) }
    requires within { start < length nodes.now }
    ensures root { IsRootPlace nodes.now distances.now result }
    ensures within { result < length nodes.now }
{
    let mut root = start;
    for place in 0..nodes.len() {
        if takes_root(nodes, distances, place, root) {
            root = place;
        }
    }
    root
}

/// The root of the part of each place.
pub(crate) fn roots_of(alloc: Global, nodes: &[Node], ways: &[Ways]) -> Result<Vec<usize>, NoMemory>
    requires size { length ways.now ≡ length nodes.now }
    requires each { ReachThemselves (length nodes.now) ways.now }
    ensures len { IfOk result (λ roots. vec_len roots ≡ length nodes.now) }
    ensures roots { IfOk result (λ roots. AreRoots nodes.now ways.now roots.items) }
{
    let mut roots = Vec::with_capacity(alloc, nodes.len())?;
    for place in 0..nodes.len() {
        roots.push(root_among(nodes, ways[place].distances.as_slice(), place))?;
    }
    Ok(roots)
}
