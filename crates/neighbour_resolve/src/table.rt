ghost use Rattle.std.specs.Prelude.{◌≡◌, ◌≤◌, ◌<◌, Some, true, false, [], length, position, take, IfOk, IfSome, vec_capacity};
ghost use Rattle.std.specs.List.{list_any};
ghost use Rattle.conf_types.specs.Lists.{EachBefore};
ghost use Rattle.conf_types.specs.State.{IsSameNeighbour};
ghost use Rattle.neighbour_resolve.specs.Due.{after_due, is_due, is_lost, due_said};
ghost use Rattle.neighbour_resolve.specs.Kept.{kept};
ghost use Rattle.neighbour_resolve.specs.Passed.{AreWaiting};
ghost use Rattle.neighbour_resolve.specs.Table.{after_told, outcome, gives_way, is_known, neighbours_after, off_group, replaced, resolved, stays, unresolved};

use crate::kept::kept_neighbours;
use crate::neighbour::{Due, Want, is_due, is_same, is_spent, next};
use crate::passed::Passed;
use conf_types::{Conf, Ip, NeighRec};
use net_base::{DpId, Mac, Moment, NoMemory, Vid};
use std::alloc::Global;
use std::marker::Model;

/// The neighbours that are to be resolved or are, in the order of adding, and how many there are at
/// most. Contracts see a `Table`. No two have one key.
#[derive(Debug, Drop)]
pub struct Neighbours {
    alloc: Global,
    limit: u32,
    neighbours: Vec<NeighRec>,
    passed: Passed,
}

impl Model for Neighbours {
    ghost use Rattle.std.specs.Prelude.{◌≤◌, vec_capacity};
    ghost use Rattle.neighbour_resolve.specs.Passed.{AreWaiting};
    ghost use Rattle.neighbour_resolve.specs.Table.{Table, IsTable};

    ghost Value = { Table };

    ghost view = { λ t. record { limit = t.limit; neighbours = t.neighbours.items } };

    ghost invariant = { λ t. IsTable (record { limit = t.limit; neighbours = t.neighbours.items }) × (t.limit ≤ vec_capacity t.neighbours) × AreWaiting t.passed t.neighbours.items };
}

pub(crate) fn is_known(neighbours: &[NeighRec], told: &NeighRec) -> bool
    ensures { result ≡ is_known neighbours.now told.now }
{
    neighbours.iter().any(|neighbour| is_same(told, neighbour))
}

/// Whether what is told stands in the place of a neighbour.
fn gives_way(told: &NeighRec, neighbour: &NeighRec, leave_resolved: bool) -> bool
    ensures { result ≡ gives_way (stays leave_resolved) told.now neighbour.now }
{
    is_same(told, neighbour) && !(leave_resolved && neighbour.mac.is_some())
}

/// Puts what is told in the place of the neighbour with its key, unless that one is resolved and is
/// to be left so.
fn replace(neighbours: &mut [NeighRec], told: &NeighRec, leave_resolved: bool)
    ensures { neighbours.new ≡ replaced (stays leave_resolved) told.now neighbours.old }
{
    for neighbour in neighbours.iter_mut() {
        if gives_way(told, neighbour, leave_resolved) {
            *neighbour = *told;
        }
    }
}

/// Takes in what is told. A neighbour that is new finds room in what the table has taken.
fn tell(neighbours: &mut Vec<NeighRec>, limit: u32, told: NeighRec, leave_resolved: bool) -> Want
    requires { limit ≤ vec_capacity neighbours.old }
    ensures outcome { result ≡ outcome (record { limit = limit; neighbours = neighbours.old.items }) told }
    ensures list { neighbours.new.items ≡ neighbours_after (stays leave_resolved) told neighbours.old.items result }
    ensures capacity { vec_capacity neighbours.old ≤ vec_capacity neighbours.new }
{
    if is_known(neighbours.as_slice(), &told) {
        replace(neighbours.as_mut_slice(), &told, leave_resolved);
        Want::Known
    } else if neighbours.len() >= limit as usize {
        Want::Full
    } else {
        neighbours.push(told).unwrap();
        Want::Added
    }
}

/// Where the first neighbour stands that is due. None of the first `from` is.
fn due_place(neighbours: &[NeighRec], from: usize, now: Moment) -> Option<usize>
    requires { list_any (is_due now.0) (take from neighbours.now) ≡ false }
    ensures place { result ≡ position (is_due now.0) neighbours.now }
    ensures within { IfSome result (λ at. at < length neighbours.now) }
    ensures before { IfSome result (λ at. list_any (is_due now.0) (take at neighbours.now) ≡ false) }
{
    for at in from..neighbours.len() {
        if is_due(now, &neighbours[at]) {
            return Some(at);
        }
    }
    None
}

/// Whether the first neighbour that is due is known and was asked as often as it may be. None of the
/// first `from` is due.
fn is_lost(neighbours: &[NeighRec], from: usize, now: Moment) -> bool
    requires { list_any (is_due now.0) (take from neighbours.now) ≡ false }
    ensures { result ≡ is_lost now.0 neighbours.now }
{
    match due_place(neighbours, from, now) {
        Some(at) => is_spent(&neighbours[at]),
        None => false,
    }
}

/// Changes the first neighbour that is due, which stands at the place, or takes it out.
fn take_at(neighbours: &mut Vec<NeighRec>, at: usize, conf: &Conf, now: Moment) -> Due
    requires place { Some at ≡ position (is_due now.0) neighbours.old.items }
    requires within { at < length neighbours.old.items }
    ensures said { Some result ≡ due_said conf.now now.0 neighbours.old.items }
    ensures list { neighbours.new.items ≡ after_due conf.now now.0 neighbours.old.items }
    ensures before { take at neighbours.new.items ≡ take at neighbours.old.items }
    ensures capacity { vec_capacity neighbours.new ≡ vec_capacity neighbours.old }
{
    let due = neighbours[at];
    match next(conf, now, &due) {
        Some(next) => {
            neighbours[at] = next;
            Due::Ask {
                group: due.group,
                vid: due.vid,
                ip: due.ip,
            }
        }
        None => {
            neighbours.remove(at);
            Due::Gone {
                group: due.group,
                vid: due.vid,
                ip: due.ip,
            }
        }
    }
}

/// Changes the first neighbour that is due, or takes it out.
fn take_due(
    neighbours: &mut Vec<NeighRec>,
    passed: &mut Passed,
    conf: &Conf,
    now: Moment,
) -> Option<Due>
    requires { AreWaiting passed.old neighbours.old.items }
    ensures said { result ≡ due_said conf.now now.0 neighbours.old.items }
    ensures list { neighbours.new.items ≡ after_due conf.now now.0 neighbours.old.items }
    ensures passed { AreWaiting passed.new neighbours.new.items }
    ensures capacity { vec_capacity neighbours.new ≡ vec_capacity neighbours.old }
{
    let at = due_place(neighbours.as_slice(), passed.count(now), now)?;
    let due = take_at(neighbours, at, conf, now);
    *passed = Passed::until(now, at);
    Some(due)
}

fn leave_group(neighbours: &mut Vec<NeighRec>, group: DpId)
    ensures list { neighbours.new.items ≡ off_group group neighbours.old.items }
    ensures capacity { vec_capacity neighbours.new ≡ vec_capacity neighbours.old }
{
    neighbours.retain(|neighbour| neighbour.group != group);
}

impl Neighbours {
    /// An empty table that holds at most so many neighbours. It takes all its memory.
    pub fn new(alloc: Global, limit: u32) -> Result<Neighbours, NoMemory>
        ensures { IfOk result (λ table. table ≡ record { limit = limit; neighbours = [] }) }
    {
        Ok(Neighbours {
            alloc,
            limit,
            neighbours: Vec::with_capacity(alloc, limit as usize)?,
            passed: Passed::none(),
        })
    }

    /// The neighbours, in the order of adding.
    pub fn list(&self) -> &[NeighRec]
        ensures value { result.now ≡ self.now.neighbours }
        ensures limit { length result.now ≤ self.now.limit }
        ensures keys { EachBefore (λ a b. IsSameNeighbour a b → ⊥) result.now }
    {
        self.neighbours.as_slice()
    }

    /// Takes in that an address is wanted. A neighbour that isn't resolved begins anew: it was not
    /// asked yet, and is due now.
    pub fn want(&mut self, group: DpId, vid: Vid, ip: Ip, now: Moment) -> Want
        ensures outcome { result ≡ outcome self.old (unresolved group vid ip now) }
        ensures list { self.new ≡ after_told (stays true) (unresolved group vid ip now) self.old }
    {
        let told = NeighRec {
            group,
            vid,
            ip,
            mac: None,
            tries: 0,
            due: now,
        };
        self.passed = Passed::none();
        tell(&mut self.neighbours, self.limit, told, true)
    }

    /// Takes in that an address is at this Ethernet address. The neighbour is resolved, and is due
    /// when `timeout` milliseconds have passed; a sum past the greatest moment counts as that moment.
    pub fn heard(
        &mut self,
        group: DpId,
        vid: Vid,
        ip: Ip,
        mac: Mac,
        timeout: u32,
        now: Moment,
    ) -> Want
        ensures outcome { result ≡ outcome self.old (resolved group vid ip mac timeout now) }
        ensures list { self.new ≡ after_told (stays false) (resolved group vid ip mac timeout now) self.old }
    {
        let told = NeighRec {
            group,
            vid,
            ip,
            mac: Some(mac),
            tries: 0,
            due: Moment(now.0.saturating_add(u64::from(timeout))),
        };
        self.passed = Passed::none();
        tell(&mut self.neighbours, self.limit, told, false)
    }

    /// Whether the first neighbour that is due is known and was asked as often as it may be: then
    /// `due` at this moment leaves it known no more, whether it is taken out or asked on.
    pub fn loses(&self, now: Moment) -> bool
        ensures lost { result ≡ is_lost now.0 self.now.neighbours }
        ensures keys { EachBefore (λ a b. IsSameNeighbour a b → ⊥) self.now.neighbours }
    {
        is_lost(self.neighbours.as_slice(), self.passed.count(now), now)
    }

    /// What is to be done with the first neighbour that is due; `None` exactly where none is. One
    /// that is to be asked has a try more, and is due again after the wait of that try.
    ///
    /// After ten tries a neighbour is taken out, but for the gateway of a route of its VLAN: that is
    /// resolved no more, and is asked every 64 seconds.
    pub fn due(&mut self, conf: &Conf, now: Moment) -> Option<Due>
        ensures said { result ≡ due_said conf.now now.0 self.old.neighbours }
        ensures list { self.new ≡ record self.old { neighbours = after_due conf.now now.0 self.old.neighbours } }
    {
        take_due(&mut self.neighbours, &mut self.passed, conf, now)
    }

    /// Takes out the neighbours of the group with this number.
    pub fn forget_group(&mut self, group: DpId)
        ensures { self.new ≡ record self.old { neighbours = off_group group self.old.neighbours } }
    {
        self.passed = Passed::none();
        leave_group(&mut self.neighbours, group);
    }

    /// The table that is kept under a new configuration, in which these datapaths run: each
    /// neighbour in the group that now has the datapath whose identifier was the number of its
    /// group; without those for which there is none, or whose address isn't a neighbour's of their
    /// VLAN, or of whose group no datapath runs; and of several with one key the last. The limit is
    /// the same, and the moment changes nothing.
    pub fn kept(&self, conf: &Conf, running: &[DpId], _now: Moment) -> Result<Neighbours, NoMemory>
        ensures { IfOk result (λ table. table ≡ kept conf.now running.now self.now) }
    {
        let kept = kept_neighbours(self.alloc, conf, running, self.neighbours.as_slice())?;
        let mut neighbours = Vec::with_capacity(self.alloc, self.limit as usize)?;
        neighbours.extend_from_slice(kept.as_slice())?;
        Ok(Neighbours {
            alloc: self.alloc,
            limit: self.limit,
            neighbours,
            passed: Passed::none(),
        })
    }
}
