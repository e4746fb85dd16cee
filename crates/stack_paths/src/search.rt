ghost use Rattle.std.specs.Prelude.{◌≡◌, ℕ, ◌↔◌, ◌+◌, ◌<◌, ◌≤◌, ◌^◌, length, false, true, None, Some, All, IsTrue, IfOk, vec_len, count_by, is_none, if◌then◌else◌};
ghost use Rattle.stack_paths.specs.Hops.{Spreads, AreDistances, answer_at};

use crate::hops::Hop;
use net_base::NoMemory;
use std::alloc::Global;

/// Whether the hop leads from an unmarked place to one marked `level`.
fn is_new_step(marks: &[Option<u32>], hop: &Hop, level: u32) -> bool
    requires from { hop.now.from < length marks.now }
    requires to { hop.now.to < length marks.now }
    ensures { IsTrue result
        ↔ ((answer_at marks.now hop.now.from ≡ None) × (answer_at marks.now hop.now.to ≡ Some level)) }
{
    match (marks[hop.from], marks[hop.to]) {
        (None, Some(found)) => found == level,
        _ => false,
    }
}

/// Marks with `level + 1` each unmarked place from which a hop leads to one marked `level`. The
/// answer says whether there was one.
fn spread(hops: &[Hop], marks: &mut [Option<u32>], level: u32) -> bool
    requires places { All (λ h. (h.from < length marks.old) × (h.to < length marks.old)) hops.now }
    requires fits { level < 2 ^ 31 }
    ensures spreads { Spreads hops.now level marks.old marks.new }
    ensures falls { count_by is_none marks.new + (if result then 1 else 0) ≤ count_by is_none marks.old }
    ensures unchanged { result ≡ false → marks.new ≡ marks.old }
{
    let mut is_new = false;
    for hop in hops {
        if is_new_step(marks, hop, level) {
            marks[hop.from] = Some(level + 1);
            is_new = true;
        }
    }
    is_new
}

/// A list without an answer at any of `count` places.
pub(crate) fn no_answers<T: Drop>(alloc: Global, count: usize) -> Result<Vec<Option<T>>, NoMemory>
    ensures len { IfOk result (λ answers. vec_len answers ≡ count) }
    ensures none { IfOk result (λ answers. (i : ℕ) → answer_at answers.items i ≡ None) }
{
    let mut answers = Vec::with_capacity(alloc, count)?;
    for _i in 0..count {
        answers.push(None)?;
    }
    Ok(answers)
}

/// The distance of each place to the target, by a search level by level: `None` where no hop leads
/// on to it.
pub(crate) fn distances(
    alloc: Global,
    count: usize,
    hops: &[Hop],
    target: usize,
) -> Result<Vec<Option<u32>>, NoMemory>
    requires small { count ≤ 64 }
    requires target { target < count }
    requires places { All (λ h. (h.from < count) × (h.to < count)) hops.now }
    ensures len { IfOk result (λ marks. vec_len marks ≡ count) }
    ensures distances { IfOk result (λ marks. AreDistances hops.now target marks.items) }
{
    let mut marks = no_answers(alloc, count)?;
    marks[target] = Some(0);
    let mut level = 0;
    'levels: while spread(hops, &mut marks, level) {
        level += 1;
    }
    Ok(marks)
}
