//! Sections that get more entries.

ghost use Rattle.std.specs.Prelude.{◌≡◌, ◌<◌, ◌++◌, length, vec_len, slice_get, slice_set, Some, IfOk, OnOk};
ghost use Rattle.yaml_tree.specs.declared.tree.Pair.{Pair};
ghost use Rattle.conf_shape.specs.Reads.{entries_of};
ghost use Rattle.conf_gather.specs.Joined.{extended};

use net_base::{NoMemory, TryCopy};
use std::alloc::Global;
use std::mem;
use yaml_tree::{Key, Pair, Pairs, Tree};

/// The entries of a map; none of anything else.
fn into_entries(alloc: Global, tree: Tree) -> Pairs
    ensures { result ≡ entries_of tree }
{
    match tree {
        Tree::Map(pairs) => pairs,
        _ => Pairs::new(alloc),
    }
}

fn push_copies(alloc: Global, pairs: &mut Pairs, more: &[Pair]) -> Result<(), NoMemory>
    ensures { OnOk result (pairs.new ≡ pairs.old ++ more.now) }
{
    for pair in more {
        pairs.push(pair.copy(alloc)?)?;
    }
    Ok(())
}

fn extended(alloc: Global, pair: Pair, more: &[Pair]) -> Result<Pair, NoMemory>
    ensures { IfOk result (λ made. made ≡ extended pair more.now) }
{
    let mut entries = into_entries(alloc, pair.value);
    push_copies(alloc, &mut entries, more)?;
    Ok(Pair {
        key: pair.key,
        value: Tree::Map(entries),
    })
}

/// Takes the entry at a place out of it. What stands there then is for the caller to replace.
#[tactic(auto, using(crate::proofs::JoinLemmas::set_again))]
fn take_at(pairs: &mut Vec<Pair>, at: usize) -> Pair
    requires { at < vec_len pairs.old }
    ensures taken { slice_get pairs.old.items at ≡ Some result }
    ensures left { (p : Pair) → slice_set pairs.new.items at p ≡ slice_set pairs.old.items at p }
    ensures len { vec_len pairs.new ≡ vec_len pairs.old }
{
    let nothing = Pair {
        key: Key::Int(0),
        value: Tree::Null,
    };
    mem::replace(&mut pairs[at], nothing)
}

/// Joins these entries with those of the section at a place.
pub fn extend_at(
    alloc: Global,
    gathered: Pairs,
    at: usize,
    more: &[Pair],
) -> Result<Pairs, NoMemory>
    requires { at < length gathered }
    ensures { (p : Pair) → slice_get gathered at ≡ Some p → IfOk result (λ made. made ≡ slice_set gathered at (extended p more.now)) }
{
    let mut pairs = gathered.into_vec();
    let section = take_at(&mut pairs, at);
    let section = extended(alloc, section, more)?;
    let mut joined = Pairs::from(pairs);
    joined.set(at, section);
    Ok(joined)
}
