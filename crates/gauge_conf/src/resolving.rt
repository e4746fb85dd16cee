ghost use Rattle.std.specs.Prelude.{◌≡◌, ◌++◌, map, Ok, IfOk, OnOk, IfErr};
ghost use Rattle.std.specs.List.{filter_map, flat_map};
ghost use Rattle.std.specs.Option.{option_copied};
ghost use Rattle.conf_resolve.specs.Resolved.{to_list};
ghost use Rattle.conf_rules.specs.Places.{first, each_at};
ghost use Rattle.gauge_conf.specs.Conflicts.{IsRefused};
ghost use Rattle.gauge_conf.specs.Resolved.{unknown_dp, unknown_of, unknown_dps, id_of, by_number, watched, found_db, db_names, dbs_of, watcher_of, gauge_with, once};

use crate::conflicts::under_watcher;
use crate::gauge::{Db, Dbs, GaugeConf, Watcher, Watchers};
use crate::names::{db_named, dp_named, once};
use crate::raw::{RawDb, RawGauge, RawWatcher};
use conf_rules::{Found, broken, nth};
use conf_shape::{ConfCause, ConfFault, ConfRefused};
use conf_types::{Conf, Dp, DpIds};
use net_base::{DpId, Names, NoMemory, Text, TryCopy};
use std::alloc::Global;

fn unknown_dp(alloc: Global, dps: &[Dp], site: Names, name: &Text) -> Found
    ensures { IfOk result (λ found. found ≡ first (unknown_dp dps.now (site, name.now))) }
{
    match dp_named(dps, name.as_str()) {
        Some(_) => Ok(None),
        None => broken(alloc, ConfCause::Unresolved, site),
    }
}

#[tactic(auto, using(crate::proofs::Walks::walk_rules))]
fn unknown_nth(alloc: Global, dps: &[Dp], site: &Names, names: &[Text]) -> Found
    ensures { IfOk result (λ found. found ≡ first (flat_map (unknown_dp dps.now) (each_at site.now names.now))) }
{
    for (i, name) in names.iter().enumerate() {
        let place = nth(alloc, site.copy(alloc)?, i)?;
        if let Some(found) = unknown_dp(alloc, dps, place, name)? {
            return Ok(Some(found));
        }
    }
    Ok(None)
}

#[tactic(auto, using(crate::proofs::Walks::walk_rules))]
fn unknown_of(alloc: Global, dps: &[Dp], watcher: &RawWatcher) -> Found
    ensures { IfOk result (λ found. found ≡ first (unknown_of dps.now watcher.now)) }
{
    match &watcher.dps {
        Some(names) => {
            let site = under_watcher(alloc, watcher, "dps")?;
            unknown_nth(alloc, dps, &site, names.as_slice())
        }
        None => Ok(None),
    }
}

/// The first datapath that is named and isn't there.
#[tactic(auto, using(crate::proofs::Walks::walk_rules))]
fn find_unknown(alloc: Global, dps: &[Dp], watchers: &[RawWatcher]) -> Found
    ensures { IfOk result (λ found. found ≡ first (unknown_dps dps.now watchers.now)) }
{
    for watcher in watchers {
        if let Some(found) = unknown_of(alloc, dps, watcher)? {
            return Ok(Some(found));
        }
    }
    Ok(None)
}

fn id_named(dps: &[Dp], name: &Text) -> Option<DpId>
    ensures { result ≡ id_of dps.now name.now }
{
    match dp_named(dps, name.as_str()) {
        Some(dp) => Some(dp.id),
        None => None,
    }
}

fn push_id(ids: &mut DpIds, id: Option<DpId>) -> Result<(), NoMemory>
    ensures { OnOk result (ids.new ≡ ids.old ++ to_list id) }
{
    match id {
        Some(id) => ids.push(id),
        None => Ok(()),
    }
}

fn ids_named(alloc: Global, dps: &[Dp], names: &[Text]) -> Result<DpIds, NoMemory>
    ensures { IfOk result (λ ids. ids ≡ filter_map (id_of dps.now) names.now) }
{
    let mut ids = DpIds::new(alloc);
    for name in names {
        push_id(&mut ids, id_named(dps, name))?;
    }
    Ok(ids)
}

fn all_ids(alloc: Global, dps: &[Dp]) -> Result<DpIds, NoMemory>
    ensures { IfOk result (λ ids. ids ≡ map (λ d. d.id) dps.now) }
{
    let mut ids = DpIds::new(alloc);
    for dp in dps {
        ids.push(dp.id)?;
    }
    Ok(ids)
}

/// These, ascending.
fn by_number(ids: DpIds) -> Result<DpIds, NoMemory>
    ensures { IfOk result (λ made. made ≡ by_number ids) }
{
    let mut sorted = ids.into_vec();
    sorted.sort_by(|a, b| a.0.cmp(&b.0))?;
    Ok(DpIds::from(sorted))
}

/// The datapaths of a watcher, each once, ascending.
fn watched(alloc: Global, dps: &[Dp], names: &Option<Names>) -> Result<DpIds, NoMemory>
    ensures { IfOk result (λ ids. ids ≡ watched dps.now names.now) }
{
    match names {
        Some(names) => {
            let names = once(alloc, names.as_slice())?;
            by_number(ids_named(alloc, dps, names.as_slice())?)
        }
        None => by_number(all_ids(alloc, dps)?),
    }
}

fn found_db<'a>(dbs: &'a [RawDb], name: &Text) -> Option<&'a Db>
    ensures { option_copied result ≡ found_db dbs.now name.now }
{
    match db_named(dbs, name.as_str()) {
        Some(found) => Some(&found.db),
        None => None,
    }
}

fn push_db(alloc: Global, dbs: &mut Dbs, db: Option<&Db>) -> Result<(), NoMemory>
    ensures { OnOk result (dbs.new ≡ dbs.old ++ to_list (option_copied db.entry)) }
{
    match db {
        Some(db) => dbs.push(db.copy(alloc)?),
        None => Ok(()),
    }
}

fn dbs_named(alloc: Global, dbs: &[RawDb], names: &[Text]) -> Result<Dbs, NoMemory>
    ensures { IfOk result (λ found. found ≡ filter_map (found_db dbs.now) names.now) }
{
    let mut found = Dbs::new(alloc);
    for name in names {
        push_db(alloc, &mut found, found_db(dbs, name))?;
    }
    Ok(found)
}

/// The names of a watcher's dbs, each once.
fn db_names(alloc: Global, watcher: &RawWatcher) -> Result<Names, NoMemory>
    ensures { IfOk result (λ names. names ≡ once (db_names watcher.now)) }
{
    if let Some(name) = &watcher.db {
        let mut names = Names::new(alloc);
        names.push(name.copy(alloc)?)?;
        return Ok(names);
    }
    match &watcher.dbs {
        Some(names) => once(alloc, names.as_slice()),
        None => Ok(Names::new(alloc)),
    }
}

fn dbs_of(alloc: Global, dbs: &[RawDb], watcher: &RawWatcher) -> Result<Dbs, NoMemory>
    ensures { IfOk result (λ found. found ≡ dbs_of dbs.now watcher.now) }
{
    let names = db_names(alloc, watcher)?;
    dbs_named(alloc, dbs, names.as_slice())
}

fn make_watcher(
    alloc: Global,
    dbs: &[RawDb],
    dps: &[Dp],
    watcher: &RawWatcher,
) -> Result<Watcher, NoMemory>
    ensures { IfOk result (λ made. made ≡ watcher_of dbs.now dps.now watcher.now) }
{
    Ok(Watcher {
        name: watcher.name.copy(alloc)?,
        kind: watcher.kind,
        dps: watched(alloc, dps, &watcher.dps)?,
        interval: watcher.interval,
        dbs: dbs_of(alloc, dbs, watcher)?,
    })
}

fn make_watchers(alloc: Global, raw: &RawGauge, dps: &[Dp]) -> Result<Watchers, NoMemory>
    ensures { IfOk result (λ made. made ≡ map (watcher_of raw.now.dbs dps.now) raw.now.watchers) }
{
    let mut made = Watchers::new(alloc);
    for watcher in raw.watchers.as_slice() {
        made.push(make_watcher(alloc, raw.dbs.as_slice(), dps, watcher)?)?;
    }
    Ok(made)
}

/// What Gauge watches, or the first datapath that isn't there.
#[tactic(auto, unfolding(crate::specs::Resolved::gauge_with))]
fn resolved(
    alloc: Global,
    raw: &RawGauge,
    conf: Conf,
) -> Result<Result<GaugeConf, ConfFault>, NoMemory>
    ensures { IfOk result (λ made. made ≡ gauge_with raw.now conf) }
{
    let dps = conf.dps().as_slice();
    if let Some(fault) = find_unknown(alloc, dps, raw.watchers.as_slice())? {
        return Ok(Err(fault));
    }
    let watchers = make_watchers(alloc, raw, dps)?;
    Ok(Ok(GaugeConf { watchers, conf }))
}

/// What Gauge watches, by what its file says and the configuration that this names; `Unresolved` at the
/// first name of a datapath that isn't there, watcher by watcher.
pub fn resolve_gauge(alloc: Global, raw: &RawGauge, conf: Conf) -> Result<GaugeConf, ConfRefused>
    ensures accepted { IfOk result (λ gauge. gauge_with raw.now conf ≡ Ok gauge) }
    ensures refused { IfErr result (IsRefused (gauge_with raw.now conf)) }
{
    match resolved(alloc, raw, conf) {
        Ok(Ok(gauge)) => Ok(gauge),
        Ok(Err(fault)) => Err(ConfRefused::At(fault)),
        Err(_) => Err(ConfRefused::Memory),
    }
}
