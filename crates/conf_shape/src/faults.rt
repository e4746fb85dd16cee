ghost use Rattle.std.specs.Prelude.{◌≡◌, ◌++◌, [], map, IfOk, OnOk, Some};
ghost use Rattle.std.specs.Fmt.{decimal};
ghost use Rattle.conf_shape.specs.Scalars.{map_kind};
ghost use Rattle.conf_shape.specs.Keys.{seen_row};
ghost use Rattle.conf_shape.specs.Sections.{map_keys};
ghost use Rattle.conf_shape.specs.Faults.{here, found_under, item_faults, missing, missing_row, missing_in, map_faults, may_be_null, null_faults, faults_of, entries_of, first, dotted, path_of, fault_of, first_fault};

use crate::keys::{key_text, lacks, number_of, under_key};
use crate::kinds::{Kind, MapKind};
use crate::refused::{ConfCause, ConfFault};
use crate::scalars::{flag_cause, item_kind, map_kind, number_cause, text_cause};
use crate::seen::Seen;
use crate::tables::{Row, table_of};
use net_base::{Names, NoMemory, Text};
use std::alloc::Global;
use yaml_tree::{Pair, Tree};

/// A fault, with the keys and places that lead to it, the outermost first.
#[derive(Debug, Drop)]
pub struct Found {
    pub steps: Names,
    pub cause: ConfCause,
}

/// A fault at the value itself.
fn here(alloc: Global, cause: Option<ConfCause>) -> Option<Found>
    ensures { result ≡ first (here cause) }
{
    match cause {
        Some(cause) => Some(Found {
            steps: Names::new(alloc),
            cause,
        }),
        None => None,
    }
}

fn found_under(step: Text, mut found: Found) -> Result<Found, NoMemory>
    ensures { IfOk result (λ made. made ≡ found_under step found) }
{
    found.steps.insert(0, step)?;
    Ok(found)
}

/// Whether nothing stands for a map of this kind with no entry.
fn may_be_null(map: MapKind) -> bool
    ensures { result ≡ may_be_null map }
{
    matches!(
        map,
        MapKind::Top
            | MapKind::Interface { .. }
            | MapKind::Vlan { .. }
            | MapKind::Vlans
            | MapKind::Acls
            | MapKind::Routers
    )
}

fn missing_row(alloc: Global, key: &str) -> Result<Found, NoMemory>
    ensures { IfOk result (λ made. made ≡ missing_row key.now) }
{
    let step = Text::from_str(alloc, key)?;
    let found = Found {
        steps: Names::new(alloc),
        cause: ConfCause::Missing,
    };
    found_under(step, found)
}

fn missing(
    alloc: Global,
    number: Option<u64>,
    pairs: &[Pair],
    rows: &[Row],
) -> Result<Option<Found>, NoMemory>
    ensures { IfOk result (λ found. found ≡ first (missing number (map_keys pairs.now) (map seen_row rows.now))) }
{
    for row in rows {
        if lacks(number, pairs, row) {
            return Ok(Some(missing_row(alloc, row.key)?));
        }
    }
    Ok(None)
}

/// The first key that has to be there and isn't.
fn missing_in(alloc: Global, map: MapKind, pairs: &[Pair]) -> Result<Option<Found>, NoMemory>
    ensures { IfOk result (λ found. found ≡ first (missing_in map (map_keys pairs.now))) }
{
    missing(alloc, number_of(map), pairs, table_of(map).rows)
}

fn null_fault(alloc: Global, kind: Kind) -> Result<Option<Found>, NoMemory>
    ensures { IfOk result (λ found. found ≡ first (null_faults (map_kind kind))) }
{
    match map_kind(kind) {
        Some(map) if may_be_null(map) => missing_in(alloc, map, &[]),
        _ => Ok(here(alloc, Some(ConfCause::WrongType))),
    }
}

/// The first fault of a value, as one of a kind.
#[tactic(auto, using(crate::proofs::FaultLaws::walk_rules))]
#[cycle(walk)]
fn value_fault(alloc: Global, kind: Kind, tree: &Tree) -> Result<Option<Found>, NoMemory>
    ensures { IfOk result (λ found. found ≡ first (faults_of tree.now kind)) }
{
    match tree {
        Tree::Null => null_fault(alloc, kind),
        Tree::Bool(_) => Ok(here(alloc, flag_cause(kind))),
        Tree::Int(n) => Ok(here(alloc, number_cause(kind, *n))),
        Tree::Text(text) => Ok(here(alloc, text_cause(kind, text.as_str()))),
        Tree::List(items) => match item_kind(kind) {
            Some(item) => items_fault(alloc, item, items.as_slice()),
            None => Ok(here(alloc, Some(ConfCause::WrongType))),
        },
        Tree::Map(pairs) => match map_kind(kind) {
            Some(map) => entries_fault(alloc, map, pairs.as_slice()),
            None => Ok(here(alloc, Some(ConfCause::WrongType))),
        },
    }
}

#[tactic(auto, using(crate::proofs::FaultLaws::walk_rules))]
#[cycle(walk)]
fn items_fault(alloc: Global, kind: Kind, items: &[Tree]) -> Result<Option<Found>, NoMemory>
    ensures { IfOk result (λ found. found ≡ first (item_faults kind 0 (map faults_of items.now))) }
{
    for (i, item) in items.iter().enumerate() {
        if let Some(found) = value_fault(alloc, kind, item)? {
            return Ok(Some(behind_place(alloc, i, found)?));
        }
    }
    Ok(None)
}

#[tactic(auto, using(crate::proofs::FaultLaws::walk_rules))]
#[cycle(walk)]
fn entries_fault(alloc: Global, map: MapKind, pairs: &[Pair]) -> Result<Option<Found>, NoMemory>
    ensures { IfOk result (λ found. found ≡ first (map_faults map [] (entries_of pairs.now))) }
{
    let mut seen = Seen::new(alloc);
    for (i, pair) in pairs.iter().enumerate() {
        let found = match under_key(alloc, map, &pairs[..i], &mut seen, &pair.key)? {
            Ok(kind) => value_fault(alloc, kind, &pair.value)?,
            Err(cause) => here(alloc, Some(cause)),
        };
        if let Some(found) = found {
            return Ok(Some(found_under(key_text(alloc, &pair.key)?, found)?));
        }
    }
    missing_in(alloc, map, pairs)
}

fn behind_place(alloc: Global, place: usize, found: Found) -> Result<Found, NoMemory>
    ensures { IfOk result (λ made. made ≡ found_under (decimal place) found) }
{
    let digits = place.to_string(alloc)?;
    found_under(Text::from_str(alloc, digits.as_str())?, found)
}

fn append_dotted(path: &mut Text, steps: &[Text]) -> Result<(), NoMemory>
    ensures { OnOk result (path.new ≡ path.old ++ dotted steps.now) }
{
    for step in steps {
        path.append(".")?;
        path.append(step.as_str())?;
    }
    Ok(())
}

/// The steps that lead to a place, joined by points, and one point where there is none.
pub fn path_of(alloc: Global, steps: &[Text]) -> Result<Text, NoMemory>
    ensures { IfOk result (λ path. path ≡ path_of steps.now) }
{
    match steps {
        [first, rest @ ..] => {
            let mut path = Text::from_str(alloc, first.as_str())?;
            append_dotted(&mut path, rest)?;
            Ok(path)
        }
        [] => Text::from_str(alloc, "."),
    }
}

/// The first fault of a document, in its order; `None` where its shape is right. In a map each key
/// stands in its turn: one that is unknown or left out, that is given twice, or that is out of the
/// range of what it gives, and then the fault of its value; behind the last key what is missing.
pub fn find_shape_fault(alloc: Global, tree: &Tree) -> Result<Option<ConfFault>, NoMemory>
    ensures { IfOk result (λ fault. fault ≡ first_fault tree.now) }
{
    match value_fault(alloc, Kind::Map(MapKind::Top), tree)? {
        Some(found) => Ok(Some(ConfFault {
            path: path_of(alloc, found.steps.as_slice())?,
            cause: found.cause,
        })),
        None => Ok(None),
    }
}
