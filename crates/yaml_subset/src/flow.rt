//! Flow lists and flow maps, which stand on one line.

ghost use Rattle.std.specs.Prelude.{◌≡◌, ◌≤◌, [], length};
ghost use Rattle.yaml_subset.specs.Flow.{opened, parted, line_ends, colon_and_tab, colon_fault, key_fault, entry_key, entry_value, list_step, list_from, map_step, map_from, flow_value};
ghost use Rattle.yaml_subset.specs.Gives.{Gives};

use crate::characters::{are_kept, begins, behind_first, is_mark, next_part, skip_spaces, stray};
use crate::entries::Entries;
use crate::fault::{LineRefused, YamlCause, YamlForm};
use crate::scalars::{Scanned, is_wide, key_of, scalar_from, scan};
use net_base::Items;
use std::alloc::Global;
use yaml_tree::{Key, Tree};

/// Behind an opening bracket or a comma: whether the closing bracket comes, and what follows.
#[tactic(auto, unfolding(crate::specs::Flow::opened))]
fn opened(closing: u8, rest: &[u8]) -> Result<(bool, &[u8]), LineRefused>
    ensures { Gives (λ x. (x.0, x.1.now)) result (opened closing rest.now) }
{
    let next = next_part(false, rest)?;
    match next {
        [] => Err(LineRefused::Cause(YamlCause::LeftOut(YamlForm::LongFlow))),
        [first, tail @ ..] if *first == closing => Ok((true, tail)),
        [_, ..] => Ok((false, next)),
    }
}

/// Behind an item: whether the closing bracket comes, or a comma, and what follows.
#[tactic(auto, unfolding(crate::specs::Flow::parted))]
fn parted(closing: u8, rest: &[u8]) -> Result<(bool, &[u8]), LineRefused>
    ensures { Gives (λ x. (x.0, x.1.now)) result (parted closing rest.now) }
{
    let next = next_part(false, rest)?;
    match next {
        [] => Err(LineRefused::Cause(YamlCause::LeftOut(YamlForm::LongFlow))),
        [first, tail @ ..] if *first == closing => Ok((true, tail)),
        [b',', tail @ ..] => Ok((false, tail)),
        [_, ..] => Err(LineRefused::Cause(stray(next))),
    }
}

/// Whether the line ends behind a key, without a colon.
fn line_ends(scanned: &Scanned, after: &[u8]) -> bool
    ensures { result ≡ line_ends scanned.now after.now }
{
    if after.is_empty() {
        return true;
    }
    let comment = skip_spaces(after);
    scanned.plain && begins(b'#', comment) && are_kept(comment)
}

/// Whether a colon and a tab stand behind a quoted scalar.
pub(crate) fn colon_and_tab(scanned: &Scanned, after: &[u8]) -> bool
    ensures { result ≡ colon_and_tab scanned.now after.now }
{
    !scanned.plain && begins(b':', after) && begins(b'\t', behind_first(after))
}

/// What is wrong where a colon has to stand.
fn colon_fault(flow: bool, scanned: &Scanned, after: &[u8]) -> LineRefused
    ensures { result ≡ LineRefused.Cause (colon_fault flow scanned.now after.now) }
{
    if flow && line_ends(scanned, after) {
        LineRefused::Cause(YamlCause::LeftOut(YamlForm::LongFlow))
    } else if !scanned.plain && begins(b'\t', after) || colon_and_tab(scanned, after) {
        LineRefused::Cause(YamlCause::Tab)
    } else {
        LineRefused::Cause(YamlCause::Syntax)
    }
}

/// What is wrong with a scalar that has to be a key, where no colon follows.
fn key_fault(flow: bool, scanned: &Scanned, after: &[u8]) -> LineRefused
    ensures { result ≡ LineRefused.Cause (key_fault flow scanned.now after.now) }
{
    if is_wide(scanned) {
        LineRefused::Cause(YamlCause::LeftOut(YamlForm::Wide))
    } else {
        colon_fault(flow, scanned, after)
    }
}

/// A key behind these entries, and what follows its colon.
#[tactic(auto, unfolding(crate::specs::Flow::entry_key))]
pub(crate) fn entry_key<'a>(
    alloc: Global,
    flow: bool,
    pairs: &Entries,
    rest: &'a [u8],
) -> Result<(Key, &'a [u8]), LineRefused>
    ensures { Gives (λ x. (x.0, x.1.now)) result (entry_key flow pairs.now rest.now) }
{
    let (scanned, after) = scan(alloc, flow, rest)?;
    if !is_mark(b':', after) {
        return Err(key_fault(flow, &scanned, after));
    }
    let key = key_of(alloc, &scanned)?;
    if pairs.has(&key) {
        return Err(LineRefused::Cause(YamlCause::DuplicateKey));
    }
    Ok((key, behind_first(after)))
}

/// The value of an entry of a flow map, which may be nothing.
#[cycle(flow)]
#[tactic(auto, unfolding(crate::specs::Flow::entry_value))]
fn entry_value(alloc: Global, levels: usize, rest: &[u8]) -> Result<(Tree, &[u8]), LineRefused>
    ensures { Gives (λ x. (x.0, x.1.now)) result (entry_value (flow_value levels) rest.now) }
{
    let next = next_part(false, rest)?;
    if next.is_empty() {
        return Err(LineRefused::Cause(YamlCause::LeftOut(YamlForm::LongFlow)));
    }
    if begins(b',', next) || begins(b'}', next) {
        return Ok((Tree::Null, next));
    }
    flow_value(alloc, levels, next)
}

/// One step behind these items of a flow list: whether it is closed, its items then, and what follows.
#[cycle(flow)]
#[tactic(auto, unfolding(crate::specs::Flow::list_step))]
fn list_step(
    alloc: Global,
    levels: usize,
    mut items: Items<Tree>,
    rest: &[u8],
) -> Result<(bool, Items<Tree>, &[u8]), LineRefused>
    ensures { Gives (λ x. (x.0, x.1, x.2.now)) result (list_step (flow_value levels) items rest.now) }
{
    let (closed, after) = opened(b']', rest)?;
    if closed {
        return Ok((true, items, after));
    }
    let (item, after) = flow_value(alloc, levels, after)?;
    let (closed, after) = parted(b']', after)?;
    items.push(item)?;
    Ok((closed, items, after))
}

/// The items of a flow list behind its opening bracket.
#[cycle(flow)]
#[tactic(auto, using(crate::proofs::FlowLaws::list_from_within), unfolding(crate::specs::Flow::list_from))]
fn flow_list(alloc: Global, levels: usize, text: &[u8]) -> Result<(Tree, &[u8]), LineRefused>
    ensures { Gives (λ x. (x.0, x.1.now)) result (list_from (flow_value levels) (length text.now) [] text.now) }
{
    let mut items = Items::new(alloc);
    let mut rest = text;
    let mut left = text.len();
    while left > 0 {
        let (closed, more, after) = list_step(alloc, levels, items, rest)?;
        if closed {
            return Ok((Tree::List(more), after));
        }
        items = more;
        rest = after;
        left -= 1;
    }
    Err(LineRefused::Cause(YamlCause::LeftOut(YamlForm::LongFlow)))
}

/// One step behind these entries of a flow map.
#[cycle(flow)]
#[tactic(auto, unfolding(crate::specs::Flow::map_step))]
fn map_step(
    alloc: Global,
    levels: usize,
    pairs: Entries,
    rest: &[u8],
) -> Result<(bool, Entries, &[u8]), LineRefused>
    ensures { Gives (λ x. (x.0, x.1, x.2.now)) result (map_step (flow_value levels) pairs rest.now) }
{
    let (closed, after) = opened(b'}', rest)?;
    if closed {
        return Ok((true, pairs, after));
    }
    let (key, after) = entry_key(alloc, true, &pairs, after)?;
    let (value, after) = entry_value(alloc, levels, after)?;
    let (closed, after) = parted(b'}', after)?;
    Ok((closed, pairs.with(alloc, key, value)?, after))
}

/// The entries of a flow map behind its opening bracket.
#[cycle(flow)]
#[tactic(auto, using(crate::proofs::FlowLaws::map_from_within), unfolding(crate::specs::Flow::map_from))]
fn flow_map(alloc: Global, levels: usize, text: &[u8]) -> Result<(Tree, &[u8]), LineRefused>
    ensures { Gives (λ x. (x.0, x.1.now)) result (map_from (flow_value levels) (length text.now) [] text.now) }
{
    let mut pairs = Entries::new(alloc);
    let mut rest = text;
    let mut left = text.len();
    while left > 0 {
        let (closed, more, after) = map_step(alloc, levels, pairs, rest)?;
        if closed {
            return Ok((Tree::Map(more.into_pairs()), after));
        }
        pairs = more;
        rest = after;
        left -= 1;
    }
    Err(LineRefused::Cause(YamlCause::LeftOut(YamlForm::LongFlow)))
}

/// A value on one line within flow brackets, which nests at most this many lists and maps.
#[cycle(flow)]
#[tactic(auto, using(crate::proofs::FlowLaws::levels))]
pub(crate) fn flow_value(
    alloc: Global,
    levels: usize,
    rest: &[u8],
) -> Result<(Tree, &[u8]), LineRefused>
    ensures { Gives (λ x. (x.0, x.1.now)) result (flow_value levels rest.now) }
{
    if begins(b'[', rest) {
        if levels == 0 {
            return Err(LineRefused::Cause(YamlCause::TooDeep));
        }
        return flow_list(alloc, levels - 1, behind_first(rest));
    }
    if begins(b'{', rest) {
        if levels == 0 {
            return Err(LineRefused::Cause(YamlCause::TooDeep));
        }
        return flow_map(alloc, levels - 1, behind_first(rest));
    }
    scalar_from(alloc, true, rest)
}
