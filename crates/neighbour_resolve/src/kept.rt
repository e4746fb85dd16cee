//! What is kept of a table under a new configuration.

ghost use Rattle.std.specs.Prelude.{◌≡◌, filter, map, IfOk};
ghost use Rattle.std.specs.List.{filter_map};
ghost use Rattle.conf_types.specs.Groups.{group_of};
ghost use Rattle.neighbour_resolve.specs.Kept.{kept_neighbours, last_of_each};
ghost use Rattle.neighbour_resolve.specs.Regroup.{group_row, is_in, may_stay_by, regrouped_by};

use crate::hearing::is_neighbour_address;
use crate::table::is_known;
use conf_types::{Conf, Dp, NeighRec};
use net_base::{DpId, NoMemory};
use std::alloc::Global;

/// A datapath and the number of its group.
#[derive(Clone, Copy, Debug)]
struct GroupRow {
    dp: DpId,
    group: DpId,
}

fn group_row(conf: &Conf, dp: &Dp) -> GroupRow
    ensures { result ≡ group_row conf.now dp.now }
{
    GroupRow {
        dp: dp.id,
        group: conf.group_number(dp.id),
    }
}

/// The group of each datapath of the configuration.
fn rows(alloc: Global, conf: &Conf) -> Result<Vec<GroupRow>, NoMemory>
    ensures { IfOk result (λ v. v.items ≡ map (group_row conf.now) conf.now.dps) }
{
    conf.dps()
        .as_slice()
        .iter()
        .map(|dp| group_row(conf, dp))
        .collect(alloc)
}

/// The group of each datapath that runs.
fn running_groups(alloc: Global, conf: &Conf, running: &[DpId]) -> Result<Vec<DpId>, NoMemory>
    ensures { IfOk result (λ v. v.items ≡ map (group_of conf.now) running.now) }
{
    running
        .iter()
        .map(|dp| conf.group_number(*dp))
        .collect(alloc)
}

/// A neighbour in the group that has its datapath, by the groups of all.
fn regroup(rows: &[GroupRow], neighbour: &NeighRec) -> Option<NeighRec>
    ensures { result ≡ regrouped_by rows.now neighbour.now }
{
    let row = rows.iter().find(|row| row.dp == neighbour.group)?;
    Some(NeighRec {
        group: row.group,
        ..*neighbour
    })
}

fn all_regrouped(
    alloc: Global,
    rows: &[GroupRow],
    neighbours: &[NeighRec],
) -> Result<Vec<NeighRec>, NoMemory>
    ensures { IfOk result (λ v. v.items ≡ filter_map (regrouped_by rows.now) neighbours.now) }
{
    neighbours
        .iter()
        .filter_map(|neighbour| regroup(rows, neighbour))
        .collect(alloc)
}

/// Whether a neighbour's group is among these.
fn is_in(groups: &[DpId], neighbour: &NeighRec) -> bool
    ensures { result ≡ is_in groups.now neighbour.now }
{
    groups.iter().any(|group| *group == neighbour.group)
}

/// Whether a neighbour may stay, by the groups of the datapaths that run.
fn may_stay(conf: &Conf, groups: &[DpId], neighbour: &NeighRec) -> bool
    ensures { result ≡ may_stay_by conf.now groups.now neighbour.now }
{
    is_neighbour_address(conf, neighbour.vid, neighbour.ip) && is_in(groups, neighbour)
}

fn staying(
    alloc: Global,
    conf: &Conf,
    groups: &[DpId],
    neighbours: &[NeighRec],
) -> Result<Vec<NeighRec>, NoMemory>
    ensures { IfOk result (λ v. v.items ≡ filter (may_stay_by conf.now groups.now) neighbours.now) }
{
    neighbours
        .iter()
        .copied()
        .filter(|neighbour| may_stay(conf, groups, neighbour))
        .collect(alloc)
}

/// Of several neighbours with one key the last.
fn last_of_each(alloc: Global, neighbours: &[NeighRec]) -> Result<Vec<NeighRec>, NoMemory>
    ensures { IfOk result (λ v. v.items ≡ last_of_each neighbours.now) }
{
    let mut last = Vec::new(alloc);
    for (at, neighbour) in neighbours.iter().enumerate() {
        if !is_known(&neighbours[at + 1..], neighbour) {
            last.push(*neighbour)?;
        }
    }
    Ok(last)
}

/// The neighbours that are kept under a configuration in which these datapaths run.
pub(crate) fn kept_neighbours(
    alloc: Global,
    conf: &Conf,
    running: &[DpId],
    neighbours: &[NeighRec],
) -> Result<Vec<NeighRec>, NoMemory>
    ensures { IfOk result (λ v. v.items ≡ kept_neighbours conf.now running.now neighbours.now) }
{
    let rows = rows(alloc, conf)?;
    let groups = running_groups(alloc, conf, running)?;
    let regrouped = all_regrouped(alloc, rows.as_slice(), neighbours)?;
    let staying = staying(alloc, conf, groups.as_slice(), regrouped.as_slice())?;
    last_of_each(alloc, staying.as_slice())
}
