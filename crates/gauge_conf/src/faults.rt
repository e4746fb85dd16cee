ghost use Rattle.std.specs.Prelude.{◌≡◌, [], map, IfOk};
ghost use Rattle.std.specs.List.{list_any, flat_map};
ghost use Rattle.std.specs.Option.{option_map};
ghost use Rattle.conf_shape.specs.Sections.{is_key, map_keys};
ghost use Rattle.conf_rules.specs.Places.{first, fault_if_some, each_at};
ghost use Rattle.gauge_conf.specs.Keys.{is_needed, seen_row, keys_of};
ghost use Rattle.gauge_conf.specs.Faults.{is_control, word_cause, text_cause, number_cause, agree, flag_cause, is_text, texts_faults, list_faults, plain_faults, row_of, entry_faults, lacks, missing, map_faults, part_faults, named_entry, value_faults, faults_of, first_fault};

use crate::forms::{Form, Need, Part, Vocabulary};
use crate::tables::{Row, is_listed, left_out_of, row_at, rows_of, top_rows, words_of};
use crate::values::is_prometheus;
use conf_rules::{Found, broken, nth, under};
use conf_shape::{ConfCause, is_key, key_text};
use net_base::{Names, TryCopy};
use std::alloc::Global;
use yaml_tree::{Key, Pair, Tree};

fn has_control(text: &str) -> bool
    ensures { result ≡ list_any is_control text.now }
{
    text.as_bytes().iter().any(|b| *b < 32 || *b == 127)
}

fn word_cause(vocabulary: Vocabulary, text: &str) -> Option<ConfCause>
    ensures { result ≡ word_cause vocabulary text.now }
{
    if is_listed(text, words_of(vocabulary)) {
        None
    } else if is_listed(text, left_out_of(vocabulary)) {
        Some(ConfCause::LeftOut)
    } else {
        Some(ConfCause::BadText)
    }
}

fn name_cause(text: &str) -> Option<ConfCause>
    ensures { result ≡ text_cause Form.FileName text.now }
{
    if has_control(text) {
        Some(ConfCause::BadText)
    } else {
        None
    }
}

/// What is wrong with a text.
fn text_cause(form: Form, text: &str) -> Option<ConfCause>
    ensures { result ≡ text_cause form text.now }
{
    match form {
        Form::Words => None,
        Form::FileName => name_cause(text),
        Form::Word(vocabulary) => word_cause(vocabulary, text),
        _ => Some(ConfCause::WrongType),
    }
}

fn range_cause(low: u64, high: u64, n: i128) -> Option<ConfCause>
    ensures { result ≡ number_cause (Form.Number low high) n }
{
    match u64::try_from(n) {
        Ok(n) if low <= n && n <= high => None,
        _ => Some(ConfCause::OutOfRange),
    }
}

/// What is wrong with a whole number.
fn number_cause(form: Form, n: i128) -> Option<ConfCause>
    ensures { result ≡ number_cause form n }
{
    match form {
        Form::Number { low, high } => range_cause(low, high, n),
        _ => Some(ConfCause::WrongType),
    }
}

/// Whether both hold, or neither.
pub(crate) fn agree(one: bool, other: bool) -> bool
    ensures { result ≡ agree one other }
{
    if one { other } else { !other }
}

/// What is wrong with a flag.
fn flag_cause(form: Form, flag: bool) -> Option<ConfCause>
    ensures { result ≡ flag_cause form flag }
{
    match form {
        Form::Only {
            flag: wanted,
            otherwise,
        } => {
            if agree(wanted, flag) {
                None
            } else {
                Some(otherwise)
            }
        }
        _ => Some(ConfCause::WrongType),
    }
}

fn is_text(tree: &Tree) -> bool
    ensures { result ≡ is_text tree.now }
{
    matches!(tree, Tree::Text(_))
}

/// The first item that is no text.
fn texts_fault(alloc: Global, site: Names, items: &[Tree]) -> Found
    ensures { IfOk result (λ found. found ≡ first (texts_faults site items.now)) }
{
    for (i, item) in items.iter().enumerate() {
        if !is_text(item) {
            return broken(alloc, ConfCause::WrongType, nth(alloc, site, i)?);
        }
    }
    Ok(None)
}

fn list_fault(alloc: Global, form: Form, site: Names, items: &[Tree]) -> Found
    ensures { IfOk result (λ found. found ≡ first (list_faults form site items.now)) }
{
    match form {
        Form::Texts => texts_fault(alloc, site, items),
        Form::OneText if items.len() == 1 => texts_fault(alloc, site, items),
        Form::OneText => broken(alloc, ConfCause::OutOfRange, site),
        _ => broken(alloc, ConfCause::WrongType, site),
    }
}

/// A fault at a place, where there is a cause.
fn broken_by(alloc: Global, cause: Option<ConfCause>, site: Names) -> Found
    ensures { IfOk result (λ found. found ≡ first (fault_if_some cause site)) }
{
    match cause {
        Some(cause) => broken(alloc, cause, site),
        None => Ok(None),
    }
}

/// The first fault of a value that may not be a map.
fn plain_fault(alloc: Global, form: Form, site: Names, tree: &Tree) -> Found
    ensures { IfOk result (λ found. found ≡ first (plain_faults form site tree.now)) }
{
    match tree {
        Tree::Bool(flag) => broken_by(alloc, flag_cause(form, *flag), site),
        Tree::Int(n) => broken_by(alloc, number_cause(form, *n), site),
        Tree::Text(text) => broken_by(alloc, text_cause(form, text.as_str()), site),
        Tree::List(items) => list_fault(alloc, form, site, items.as_slice()),
        Tree::Null | Tree::Map(_) => broken(alloc, ConfCause::WrongType, site),
    }
}

fn row_of(rows: &[Row], key: &Key) -> Option<Row>
    ensures { option_map seen_row result ≡ row_of (map seen_row rows.now) key.now }
{
    match key {
        Key::Text(name) => row_at(name.as_str(), rows),
        Key::Int(_) => None,
    }
}

fn has_key(name: &str, pairs: &[Pair]) -> bool
    ensures { result ≡ list_any (is_key name.now) (map_keys pairs.now) }
{
    for pair in pairs {
        if is_key(name, &pair.key) {
            return true;
        }
    }
    false
}

fn is_needed(pairs: &[Pair], need: Need) -> bool
    ensures { result ≡ is_needed pairs.now need }
{
    match need {
        Need::Always => true,
        Need::UnlessPrometheus => !is_prometheus(pairs),
        Need::Never => false,
    }
}

/// Whether a key has to be there and isn't.
fn lacks(pairs: &[Pair], row: &Row) -> bool
    ensures { result ≡ lacks pairs.now (seen_row row.now) }
{
    is_needed(pairs, row.need) && !has_key(row.key, pairs)
}

/// The first key that has to be there and isn't.
fn missing(alloc: Global, rows: &[Row], site: &Names, pairs: &[Pair]) -> Found
    ensures { IfOk result (λ found. found ≡ first (missing (map seen_row rows.now) site.now pairs.now)) }
{
    for row in rows {
        if lacks(pairs, row) {
            let place = under(alloc, site.copy(alloc)?, row.key)?;
            return broken(alloc, ConfCause::Missing, place);
        }
    }
    Ok(None)
}

fn plain_entry(alloc: Global, rows: &[Row], site: &Names, pair: &Pair) -> Found
    ensures { IfOk result (λ found. found ≡ first (entry_faults plain_faults (map seen_row rows.now) site.now pair.now)) }
{
    let key = key_text(alloc, &pair.key)?;
    let site = under(alloc, site.copy(alloc)?, key.as_str())?;
    match row_of(rows, &pair.key) {
        Some(row) => plain_fault(alloc, row.form, site, &pair.value),
        None => broken(alloc, ConfCause::UnknownKey, site),
    }
}

/// The first fault of a map of which no value is a map.
#[tactic(auto, using(crate::proofs::Walks::walk_rules))]
fn plain_map(alloc: Global, rows: &[Row], site: &Names, pairs: &[Pair]) -> Found
    ensures { IfOk result (λ found. found ≡ first (map_faults plain_faults (map seen_row rows.now) site.now pairs.now)) }
{
    for pair in pairs {
        if let Some(found) = plain_entry(alloc, rows, site, pair)? {
            return Ok(Some(found));
        }
    }
    missing(alloc, rows, site, pairs)
}

fn part_fault(alloc: Global, part: Part, site: Names, tree: &Tree) -> Found
    ensures { IfOk result (λ found. found ≡ first (part_faults part site tree.now)) }
{
    match tree {
        Tree::Map(pairs) => plain_map(alloc, rows_of(part), &site, pairs.as_slice()),
        _ => broken(alloc, ConfCause::WrongType, site),
    }
}

fn named_entry(alloc: Global, part: Part, site: &Names, pair: &Pair) -> Found
    ensures { IfOk result (λ found. found ≡ first (named_entry part site.now pair.now.value pair.now.key)) }
{
    let name = key_text(alloc, &pair.key)?;
    let site = under(alloc, site.copy(alloc)?, name.as_str())?;
    match &pair.key {
        Key::Text(_) => part_fault(alloc, part, site, &pair.value),
        Key::Int(_) => broken(alloc, ConfCause::UnknownKey, site),
    }
}

/// The first fault of maps under names of the user's.
#[tactic(auto, using(crate::proofs::Walks::walk_rules))]
fn named_entries(alloc: Global, part: Part, site: &Names, pairs: &[Pair]) -> Found
    ensures { IfOk result (λ found. found ≡ first (flat_map (λ p. named_entry part site.now p.value p.key) pairs.now)) }
{
    for pair in pairs {
        if let Some(found) = named_entry(alloc, part, site, pair)? {
            return Ok(Some(found));
        }
    }
    Ok(None)
}

fn value_fault(alloc: Global, form: Form, site: Names, tree: &Tree) -> Found
    ensures { IfOk result (λ found. found ≡ first (value_faults form site tree.now)) }
{
    match form {
        Form::Named(part) => match tree {
            Tree::Map(pairs) => named_entries(alloc, part, &site, pairs.as_slice()),
            _ => broken(alloc, ConfCause::WrongType, site),
        },
        _ => plain_fault(alloc, form, site, tree),
    }
}

fn top_entry(alloc: Global, rows: &[Row], site: &Names, pair: &Pair) -> Found
    ensures { IfOk result (λ found. found ≡ first (entry_faults value_faults (map seen_row rows.now) site.now pair.now)) }
{
    let key = key_text(alloc, &pair.key)?;
    let site = under(alloc, site.copy(alloc)?, key.as_str())?;
    match row_of(rows, &pair.key) {
        Some(row) => value_fault(alloc, row.form, site, &pair.value),
        None => broken(alloc, ConfCause::UnknownKey, site),
    }
}

#[tactic(auto, using(crate::proofs::Walks::walk_rules))]
fn top_map(alloc: Global, rows: &[Row], site: &Names, pairs: &[Pair]) -> Found
    ensures { IfOk result (λ found. found ≡ first (map_faults value_faults (map seen_row rows.now) site.now pairs.now)) }
{
    for pair in pairs {
        if let Some(found) = top_entry(alloc, rows, site, pair)? {
            return Ok(Some(found));
        }
    }
    missing(alloc, rows, site, pairs)
}

/// The first fault of the tree of Gauge's file, in its order; `None` where its shape is right. In a map
/// each key stands in its turn: one that is unknown, and then the fault of its value; behind the last key
/// what is missing.
#[tactic(auto, unfolding(crate::specs::Faults::first_fault, crate::specs::Faults::faults_of))]
pub(crate) fn find_fault(alloc: Global, tree: &Tree) -> Found
    ensures { IfOk result (λ found. found ≡ first_fault tree.now) }
{
    let site = Names::new(alloc);
    match tree {
        Tree::Null => top_map(alloc, top_rows(), &site, &[]),
        Tree::Map(pairs) => top_map(alloc, top_rows(), &site, pairs.as_slice()),
        _ => broken(alloc, ConfCause::WrongType, site),
    }
}
