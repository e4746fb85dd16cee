//! The datapaths on which hosts stand, and how early the hosts of each were heard.

ghost use Rattle.std.specs.Prelude.{◌≡◌, ◌==◌, map, OnOk, OnErr};
ghost use Rattle.std.specs.List.{list_any};
ghost use Rattle.host_list.specs.Order.{is_due_from, tight, tightened};
ghost use Rattle.host_list.specs.Shelves.{is_above, is_less, last_moment, least_on, lowered, noted};

use conf_types::{Conf, HostRec};
use net_base::{DpId, Moment, NoMemory};
use std::collections::BTreeMap;

/// A datapath, and a moment before which none of its hosts was last heard.
#[derive(Clone, Copy, Debug, PartialEq, Eq)]
pub(crate) struct Shelf {
    pub dp: DpId,
    pub least: Moment,
}

fn has_dp(shelves: &[Shelf], dp: DpId) -> bool
    ensures { result ≡ list_any (λ s. s.dp.0 == dp.0) shelves.now }
{
    shelves.iter().any(|shelf| shelf.dp == dp)
}

fn is_above(shelf: &Shelf, dp: DpId, heard: Moment) -> bool
    ensures { result ≡ is_above dp heard shelf.now }
{
    shelf.dp == dp && heard.0 < shelf.least.0
}

fn lower_each(shelves: &mut [Shelf], dp: DpId, heard: Moment)
    ensures { shelves.new ≡ map (lowered dp heard) shelves.old }
{
    for shelf in shelves.iter_mut() {
        if is_above(shelf, dp, heard) {
            *shelf = Shelf {
                least: heard,
                ..*shelf
            };
        }
    }
}

/// Notes that a host of a datapath with a shelf was heard.
pub(crate) fn hear(shelves: &mut Vec<Shelf>, dp: DpId, heard: Moment)
    ensures { shelves.new.items ≡ map (lowered dp heard) shelves.old.items }
{
    lower_each(shelves.as_mut_slice(), dp, heard);
}

/// Notes that a host of a datapath was heard.
pub(crate) fn note(shelves: &mut Vec<Shelf>, dp: DpId, heard: Moment) -> Result<(), NoMemory>
    ensures ok { OnOk result (shelves.new.items ≡ noted dp heard shelves.old.items) }
    ensures err { OnErr result (shelves.new.items ≡ shelves.old.items) }
{
    if has_dp(shelves.as_slice(), dp) {
        hear(shelves, dp, heard);
    } else {
        shelves.push(Shelf { dp, least: heard })?;
    }
    Ok(())
}

fn is_less(host: &HostRec, dp: DpId, least: Moment) -> bool
    ensures { result ≡ is_less dp least host.now }
{
    host.dp == dp && host.learned.0 < least.0
}

/// The least moment of a datapath's hosts.
fn least_on(hosts: &BTreeMap<u64, HostRec>, dp: DpId) -> Moment
    ensures { result ≡ least_on dp last_moment hosts.now.entries }
{
    let mut least = Moment(u64::MAX);
    for (_, host) in hosts {
        if is_less(host, dp, least) {
            least = host.learned;
        }
    }
    least
}

/// Whether a host of a datapath that was last heard at the shelf's moment would be to be forgotten, if
/// its port doesn't keep it for good.
pub(crate) fn is_due_from(conf: &Conf, now: Moment, shelf: &Shelf) -> bool
    ensures { result ≡ is_due_from conf.now now.0 shelf.now }
{
    conf.forgotten_at(shelf.dp, shelf.least).0 <= now.0
}

/// The least moment of the shelf's hosts, where one of them may be to be forgotten. No host is looked at
/// for another shelf.
fn tight(conf: &Conf, now: Moment, hosts: &BTreeMap<u64, HostRec>, shelf: &Shelf) -> Moment
    ensures { result ≡ tight conf.now now.0 hosts.now.entries shelf.now }
{
    if is_due_from(conf, now, shelf) {
        least_on(hosts, shelf.dp)
    } else {
        shelf.least
    }
}

fn tighten_each(conf: &Conf, now: Moment, hosts: &BTreeMap<u64, HostRec>, shelves: &mut [Shelf])
    ensures { shelves.new ≡ map (tightened conf.now now.0 hosts.now.entries) shelves.old }
{
    for shelf in shelves.iter_mut() {
        let least = tight(conf, now, hosts, shelf);
        shelf.least = least;
    }
}

/// Gives each shelf the least moment of its hosts, where one of them may be to be forgotten.
pub(crate) fn tighten(
    conf: &Conf,
    now: Moment,
    hosts: &BTreeMap<u64, HostRec>,
    shelves: &mut Vec<Shelf>,
)
    ensures { shelves.new.items ≡ map (tightened conf.now now.0 hosts.now.entries) shelves.old.items }
{
    tighten_each(conf, now, hosts, shelves.as_mut_slice());
}
