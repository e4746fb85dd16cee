ghost use Rattle.std.specs.Prelude.{◌≡◌, ◌↔◌, ◌<◌, ◌≤◌, length, All, IsTrue, IfOk, IfSome, IsSomeAnd, MatchBool, vec_len};
ghost use Rattle.stack_paths.specs.Hops.{LeadsDown, ComesBefore, AreFirst};

use crate::hops::Hop;
use crate::search::no_answers;
use net_base::NoMemory;
use std::alloc::Global;

/// Whether the hop leads to a place that is one nearer.
fn leads_down(distances: &[Option<u32>], hop: &Hop) -> bool
    requires from { hop.now.from < length distances.now }
    requires to { hop.now.to < length distances.now }
    ensures { IsTrue result ↔ LeadsDown distances.now hop.now }
{
    match (distances[hop.from], distances[hop.to]) {
        (Some(here), Some(there)) => there < here && here - there == 1,
        _ => false,
    }
}

/// Whether the hop is to be taken in place of the one chosen so far.
fn is_better(hop: &Hop, chosen: &Option<Hop>) -> bool
    ensures { MatchBool result
        (IfSome chosen.now (λ g. ComesBefore hop.now g))
        (IsSomeAnd chosen.now (λ g. ComesBefore g hop.now)) }
{
    match chosen {
        None => true,
        Some(g) => hop.to < g.to || hop.to == g.to && hop.port.get() < g.port.get(),
    }
}

/// Whether the hop leads one nearer and is to be taken in place of the one chosen so far.
fn is_next(distances: &[Option<u32>], hop: &Hop, chosen: &Option<Hop>) -> bool
    requires from { hop.now.from < length distances.now }
    requires to { hop.now.to < length distances.now }
    ensures { MatchBool result
        (LeadsDown distances.now hop.now × IfSome chosen.now (λ g. ComesBefore hop.now g))
        (LeadsDown distances.now hop.now → IsSomeAnd chosen.now (λ g. ComesBefore g hop.now)) }
{
    leads_down(distances, hop) && is_better(hop, chosen)
}

/// For each place the first hop that leads one nearer, by the distances; `None` where there is none.
pub(crate) fn next_hops(
    alloc: Global,
    count: usize,
    hops: &[Hop],
    distances: &[Option<u32>],
) -> Result<Vec<Option<Hop>>, NoMemory>
    requires places { All (λ h. (h.from < count) × (h.to < count)) hops.now }
    requires size { length distances.now ≡ count }
    ensures len { IfOk result (λ best. vec_len best ≡ count) }
    ensures first { IfOk result (λ best. AreFirst hops.now distances.now best.items) }
{
    let mut best = no_answers(alloc, count)?;
    for hop in hops {
        if is_next(distances, hop, &best[hop.from]) {
            best[hop.from] = Some(*hop);
        }
    }
    Ok(best)
}
