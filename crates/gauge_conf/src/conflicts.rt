//! What is wrong between the keys and names of Gauge's file.

ghost use Rattle.std.specs.Prelude.{◌≡◌, ◌∷◌, ◌++◌, [], codes, is_some, IfOk, Some};
ghost use Rattle.std.specs.List.{flat_map};
ghost use Rattle.conf_rules.specs.Places.{first, fault_if, each_at, under};
ghost use Rattle.conf_shape.specs.declared.refused.ConfCause.TheVariants.{Conflict};
ghost use Rattle.gauge_conf.specs.Faults.{agree};
ghost use Rattle.gauge_conf.specs.Conflicts.{watcher_site, unknown_db, unknown_one, unknown_listed, watcher_conflicts};

use crate::faults::agree;
use crate::names::db_named;
use crate::raw::{RawDb, RawWatcher};
use conf_rules::{Found, broken, nth, under};
use conf_shape::ConfCause;
use net_base::{Names, NoMemory, Text, TryCopy};
use std::alloc::Global;

pub(crate) fn watcher_site(alloc: Global, watcher: &RawWatcher) -> Result<Names, NoMemory>
    ensures { IfOk result (λ site. site ≡ watcher_site watcher.now) }
{
    let site = under(alloc, Names::new(alloc), "watchers")?;
    under(alloc, site, watcher.name.as_str())
}

/// A key of a watcher.
pub(crate) fn under_watcher(
    alloc: Global,
    watcher: &RawWatcher,
    key: &str,
) -> Result<Names, NoMemory>
    ensures { IfOk result (λ site. site ≡ under (watcher_site watcher.now) key.now) }
{
    under(alloc, watcher_site(alloc, watcher)?, key)
}

fn unknown_db(alloc: Global, dbs: &[RawDb], site: Names, name: &Text) -> Found
    ensures { IfOk result (λ found. found ≡ first (unknown_db dbs.now (site, name.now))) }
{
    match db_named(dbs, name.as_str()) {
        Some(_) => Ok(None),
        None => broken(alloc, ConfCause::Unresolved, site),
    }
}

#[tactic(auto, using(crate::proofs::Walks::walk_rules))]
fn unknown_nth(alloc: Global, dbs: &[RawDb], site: &Names, names: &[Text]) -> Found
    ensures { IfOk result (λ found. found ≡ first (flat_map (unknown_db dbs.now) (each_at site.now names.now))) }
{
    for (i, name) in names.iter().enumerate() {
        let place = nth(alloc, site.copy(alloc)?, i)?;
        if let Some(found) = unknown_db(alloc, dbs, place, name)? {
            return Ok(Some(found));
        }
    }
    Ok(None)
}

#[tactic(auto, using(crate::proofs::Walks::walk_rules))]
fn unknown_one(alloc: Global, dbs: &[RawDb], watcher: &RawWatcher) -> Found
    ensures { IfOk result (λ found. found ≡ first (unknown_one dbs.now watcher.now)) }
{
    match &watcher.db {
        Some(name) => unknown_db(alloc, dbs, under_watcher(alloc, watcher, "db")?, name),
        None => Ok(None),
    }
}

#[tactic(auto, using(crate::proofs::Walks::walk_rules))]
fn unknown_listed(alloc: Global, dbs: &[RawDb], watcher: &RawWatcher) -> Found
    ensures { IfOk result (λ found. found ≡ first (unknown_listed dbs.now watcher.now)) }
{
    match &watcher.dbs {
        Some(names) => {
            let site = under_watcher(alloc, watcher, "dbs")?;
            unknown_nth(alloc, dbs, &site, names.as_slice())
        }
        None => Ok(None),
    }
}

fn unknown_dbs(alloc: Global, dbs: &[RawDb], watcher: &RawWatcher) -> Found
    ensures { IfOk result (λ found. found ≡ first (unknown_one dbs.now watcher.now ++ unknown_listed dbs.now watcher.now)) }
{
    match unknown_one(alloc, dbs, watcher)? {
        Some(found) => Ok(Some(found)),
        None => unknown_listed(alloc, dbs, watcher),
    }
}

/// Whether both are given, or neither.
fn conflict(alloc: Global, rule: u8, watcher: &RawWatcher, one: bool, other: bool) -> Found
    ensures { IfOk result (λ found. found ≡ first (fault_if (agree one other) (Conflict rule) (watcher_site watcher.now))) }
{
    if agree(one, other) {
        let site = watcher_site(alloc, watcher)?;
        broken(alloc, ConfCause::Conflict(rule), site)
    } else {
        Ok(None)
    }
}

#[tactic(auto, using(crate::proofs::Walks::walk_rules))]
fn watcher_conflict(alloc: Global, dbs: &[RawDb], watcher: &RawWatcher) -> Found
    ensures { IfOk result (λ found. found ≡ first (watcher_conflicts dbs.now watcher.now)) }
{
    if let Some(found) = conflict(alloc, 1, watcher, watcher.dps.is_some(), watcher.all_dps)? {
        return Ok(Some(found));
    }
    let listed = watcher.dbs.is_some();
    if let Some(found) = conflict(alloc, 2, watcher, watcher.db.is_some(), listed)? {
        return Ok(Some(found));
    }
    unknown_dbs(alloc, dbs, watcher)
}

/// The first place where keys or names don't fit together, watcher by watcher.
#[tactic(auto, using(crate::proofs::Walks::walk_rules))]
pub(crate) fn find_conflict(alloc: Global, dbs: &[RawDb], watchers: &[RawWatcher]) -> Found
    ensures { IfOk result (λ found. found ≡ first (flat_map (watcher_conflicts dbs.now) watchers.now)) }
{
    for watcher in watchers {
        if let Some(found) = watcher_conflict(alloc, dbs, watcher)? {
            return Ok(Some(found));
        }
    }
    Ok(None)
}
