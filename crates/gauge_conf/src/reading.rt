ghost use Rattle.std.specs.Prelude.{◌≡◌, ◌-◌, ◌^◌, [], map, codes, Ok, IfOk, IfErr, option_and_then, unwrap_or};
ghost use Rattle.std.specs.Option.{option_map};
ghost use Rattle.conf_shape.specs.Reads.{value_at, number_of, words_of, items_of, entries_at};
ghost use Rattle.conf_shape.specs.Scalars.{within};
ghost use Rattle.std.specs.Ordering.{is_lt};
ghost use Rattle.conf_resolve.specs.InOrder.{in_order};
ghost use Rattle.gauge_conf.specs.Conflicts.{written_in, IsRefused};
ghost use Rattle.gauge_conf.specs.Raw.{kind_of, names_of, names_at, interval_at, watcher_with, watcher_of, db_with, db_of, is_before, first_text, raw_with, raw_of};

use crate::conflicts::find_conflict;
use crate::faults::find_fault;
use crate::forms::Part;
use crate::gauge::{Db, WatchKind};
use crate::raw::{RawDb, RawDbs, RawGauge, RawWatcher, RawWatchers};
use crate::tables::{default_number, rows_of};
use crate::values::{is_prometheus, words_at};
use conf_shape::{ConfFault, ConfRefused, as_entries, as_words, key_text, value_at};
use net_base::{Names, NoMemory, Text};
use std::alloc::Global;
use std::cmp::Ordering;
use yaml_tree::{Pair, Tree};

fn kind_of(text: &str) -> WatchKind
    ensures { result ≡ kind_of text.now }
{
    if text == "port_state" {
        WatchKind::PortState
    } else if text == "flow_table" {
        WatchKind::FlowTable
    } else {
        WatchKind::PortStats
    }
}

/// The items of a list; none of anything else.
fn as_items(tree: &Tree) -> &[Tree]
    ensures { result.now ≡ items_of tree.now }
{
    match tree {
        Tree::List(items) => items.as_slice(),
        _ => &[],
    }
}

fn all_words(alloc: Global, trees: &[Tree]) -> Result<Names, NoMemory>
    ensures { IfOk result (λ made. made ≡ map words_of trees.now) }
{
    let mut made = Names::new(alloc);
    for tree in trees {
        made.push(Text::from_str(alloc, as_words(tree))?)?;
    }
    Ok(made)
}

/// The list of texts under a key, where it is given.
fn names_at(alloc: Global, pairs: &[Pair], name: &str) -> Result<Option<Names>, NoMemory>
    ensures { IfOk result (λ made. made ≡ names_at name.now pairs.now) }
{
    match value_at(pairs, name) {
        Some(tree) => Ok(Some(all_words(alloc, as_items(tree))?)),
        None => Ok(None),
    }
}

/// The text under a key, where it is given.
fn text_at(alloc: Global, pairs: &[Pair], name: &str) -> Result<Option<Text>, NoMemory>
    ensures { IfOk result (λ made. made ≡ option_map words_of (value_at name.now pairs.now)) }
{
    match value_at(pairs, name) {
        Some(tree) => Ok(Some(Text::from_str(alloc, as_words(tree))?)),
        None => Ok(None),
    }
}

/// The entries of the map under a key.
fn entries_at<'a>(pairs: &'a [Pair], name: &str) -> &'a [Pair]
    ensures { result.now ≡ entries_at name.now pairs.now }
{
    match value_at(pairs, name) {
        Some(tree) => as_entries(tree),
        None => &[],
    }
}

/// The number, where it has 32 bits.
fn within(n: i128) -> Option<u64>
    ensures { result ≡ within 0 (2 ^ 32 - 1) n }
{
    let n = u64::try_from(n).ok()?;
    if n <= 0xffff_ffff { Some(n) } else { None }
}

fn as_number(tree: &Tree) -> Option<u64>
    ensures { result ≡ number_of 0 (2 ^ 32 - 1) tree.now }
{
    match tree {
        Tree::Int(n) => within(*n),
        _ => None,
    }
}

/// A whole number of 32 bits.
fn as_u32(tree: &Tree) -> Option<u32>
    ensures { result ≡ number_of 0 (2 ^ 32 - 1) tree.now }
{
    u32::try_from(as_number(tree)?).ok()
}

fn given_interval(pairs: &[Pair]) -> Option<u32>
    ensures { result ≡ option_and_then (number_of 0 (2 ^ 32 - 1)) (value_at (codes "interval") pairs.now) }
{
    as_u32(value_at(pairs, "interval")?)
}

/// The interval, or its default.
fn interval_at(pairs: &[Pair]) -> u32
    ensures { result ≡ interval_at pairs.now }
{
    match given_interval(pairs) {
        Some(n) => n,
        None => default_number(rows_of(Part::Watcher), "interval"),
    }
}

fn read_watcher(alloc: Global, name: Text, pairs: &[Pair]) -> Result<RawWatcher, NoMemory>
    ensures { IfOk result (λ made. made ≡ watcher_with name pairs.now) }
{
    Ok(RawWatcher {
        name,
        kind: kind_of(words_at(pairs, "type")),
        dps: names_at(alloc, pairs, "dps")?,
        all_dps: value_at(pairs, "all_dps").is_some(),
        db: text_at(alloc, pairs, "db")?,
        dbs: names_at(alloc, pairs, "dbs")?,
        interval: interval_at(pairs),
    })
}

fn all_watchers(alloc: Global, pairs: &[Pair]) -> Result<RawWatchers, NoMemory>
    ensures { IfOk result (λ made. made ≡ map watcher_of pairs.now) }
{
    let mut made = RawWatchers::new(alloc);
    for pair in pairs {
        let name = key_text(alloc, &pair.key)?;
        made.push(read_watcher(alloc, name, as_entries(&pair.value))?)?;
    }
    Ok(made)
}

/// The one whose name's bytes come first comes first.
fn rank(watcher: &RawWatcher, other: &RawWatcher) -> Ordering
    ensures { is_lt result ≡ is_before watcher.now other.now }
{
    watcher.name.as_str().cmp(other.name.as_str())
}

/// The watchers by the bytes of their names.
fn by_name(watchers: RawWatchers) -> Result<RawWatchers, NoMemory>
    ensures { IfOk result (λ made. made ≡ in_order is_before watchers) }
{
    let mut sorted = watchers.into_vec();
    sorted.sort_by(|watcher, other| rank(watcher, other))?;
    Ok(RawWatchers::from(sorted))
}

fn db_with(alloc: Global, pairs: &[Pair]) -> Result<Db, NoMemory>
    ensures { IfOk result (λ made. made ≡ db_with pairs.now) }
{
    if is_prometheus(pairs) {
        Ok(Db::Prometheus)
    } else {
        Ok(Db::Text(Text::from_str(alloc, words_at(pairs, "file"))?))
    }
}

fn read_db(alloc: Global, pair: &Pair) -> Result<RawDb, NoMemory>
    ensures { IfOk result (λ made. made ≡ db_of pair.now) }
{
    Ok(RawDb {
        name: key_text(alloc, &pair.key)?,
        db: db_with(alloc, as_entries(&pair.value))?,
    })
}

fn all_dbs(alloc: Global, pairs: &[Pair]) -> Result<RawDbs, NoMemory>
    ensures { IfOk result (λ made. made ≡ map db_of pairs.now) }
{
    let mut made = RawDbs::new(alloc);
    for pair in pairs {
        made.push(read_db(alloc, pair)?)?;
    }
    Ok(made)
}

fn first_words(alloc: Global, trees: &[Tree]) -> Result<Text, NoMemory>
    ensures { IfOk result (λ made. made ≡ first_text (map words_of trees.now)) }
{
    match trees {
        [first, ..] => Text::from_str(alloc, as_words(first)),
        [] => Ok(Text::new(alloc)),
    }
}

/// The first item of the list under a key, or an empty text.
fn first_at(alloc: Global, pairs: &[Pair], name: &str) -> Result<Text, NoMemory>
    ensures { IfOk result (λ made. made ≡ first_text (unwrap_or (names_at name.now pairs.now) [])) }
{
    match value_at(pairs, name) {
        Some(tree) => first_words(alloc, as_items(tree)),
        None => Ok(Text::new(alloc)),
    }
}

fn read_raw(alloc: Global, pairs: &[Pair]) -> Result<RawGauge, NoMemory>
    ensures { IfOk result (λ made. made ≡ raw_with pairs.now) }
{
    let watchers = all_watchers(alloc, entries_at(pairs, "watchers"))?;
    Ok(RawGauge {
        faucet_config: first_at(alloc, pairs, "faucet_configs")?,
        watchers: by_name(watchers)?,
        dbs: all_dbs(alloc, entries_at(pairs, "dbs"))?,
    })
}

/// What a document says, or its first fault.
#[tactic(auto, unfolding(crate::specs::Conflicts::written_in, crate::specs::Raw::raw_of))]
fn written(alloc: Global, tree: &Tree) -> Result<Result<RawGauge, ConfFault>, NoMemory>
    ensures { IfOk result (λ made. made ≡ written_in tree.now) }
{
    if let Some(fault) = find_fault(alloc, tree)? {
        return Ok(Err(fault));
    }
    let raw = read_raw(alloc, as_entries(tree))?;
    match find_conflict(alloc, raw.dbs.as_slice(), raw.watchers.as_slice())? {
        Some(fault) => Ok(Err(fault)),
        None => Ok(Ok(raw)),
    }
}

/// What the tree of Gauge's file says, its watchers in byte order of their names; or exactly where it has
/// one, its first fault: the first of its shape, in the order of the document; or else, watcher by watcher in
/// that order, `Conflict(1)` where not just one of `dps` and `all_dps` is given, `Conflict(2)` where not
/// just one of `db` and `dbs` is, and `Unresolved` at the name of a db that isn't there.
pub fn read_gauge(alloc: Global, tree: &Tree) -> Result<RawGauge, ConfRefused>
    ensures accepted { IfOk result (λ raw. written_in tree.now ≡ Ok raw) }
    ensures refused { IfErr result (IsRefused (written_in tree.now)) }
{
    match written(alloc, tree) {
        Ok(Ok(raw)) => Ok(raw),
        Ok(Err(fault)) => Err(ConfRefused::At(fault)),
        Err(_) => Err(ConfRefused::Memory),
    }
}
