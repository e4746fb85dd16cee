//! How a host stands that is heard again, and one that moved.

ghost use Rattle.std.specs.Prelude.{◌≡◌, ◌<◌, ◌^◌, filter, length, not, OnOk, OnErr};
ghost use Rattle.host_list.specs.Hosts.{moved, refreshed};
ghost use Rattle.host_list.specs.Order.{AreRising, first_entry, hosts_of, is_old, is_other};

use crate::addresses::Entry;
use crate::known::{has_heard, is_in_place};
use crate::order::{Order, address_of};
use conf_types::{Conf, HostRec};
use net_base::NoMemory;

fn first_old(entries: &[Entry], heard: &HostRec) -> Option<u64>
    ensures { result ≡ first_entry (is_old heard.now) entries.now }
{
    for entry in entries {
        if is_in_place(heard, &entry.1) && entry.1.learned.0 != heard.learned.0 {
            return Some(entry.0);
        }
    }
    None
}

/// Where the host that is heard stands with another moment.
fn old_place(order: &Order, heard: &HostRec) -> Option<u64>
    ensures rising { AreRising order.now }
    ensures value { result ≡ first_entry (is_old heard.now) order.now }
{
    first_old(order.entries(&address_of(heard)), heard)
}

/// Gives the host that is heard its new moment, where it stands there.
pub(crate) fn refresh(order: &mut Order, heard: &HostRec)
    ensures { hosts_of order.new ≡ refreshed heard.now (hosts_of order.old) }
{
    while let Some(place) = old_place(order, heard) {
        order.refresh(place, heard.learned);
    }
}

fn first_other(conf: &Conf, entries: &[Entry], heard: &HostRec, place: u64) -> Option<u64>
    ensures { result ≡ first_entry (is_other conf.now heard.now place) entries.now }
{
    for entry in entries {
        if has_heard(conf, heard, &entry.1) && entry.0 != place {
            return Some(entry.0);
        }
    }
    None
}

/// Where the host that is heard stands beside a place.
fn other_place(conf: &Conf, order: &Order, heard: &HostRec, place: u64) -> Option<u64>
    ensures rising { AreRising order.now }
    ensures value { result ≡ first_entry (is_other conf.now heard.now place) order.now }
{
    first_other(conf, order.entries(&address_of(heard)), heard, place)
}

fn leave_others(conf: &Conf, order: &mut Order, heard: &HostRec, place: u64)
    ensures { order.new ≡ filter (λ e. not (is_other conf.now heard.now place e)) order.old }
{
    while let Some(other) = other_place(conf, order, heard, place) {
        order.remove(other);
    }
}

/// Takes a host out and puts it last. What needs memory comes first, so that nothing changes without.
pub(crate) fn move_last(conf: &Conf, order: &mut Order, heard: &HostRec) -> Result<(), NoMemory>
    requires { length order.old < 2 ^ 32 }
    ensures ok { OnOk result (hosts_of order.new ≡ moved conf.now heard.now (hosts_of order.old)) }
    ensures err { OnErr result (order.new ≡ order.old) }
{
    let place = order.push(heard)?;
    leave_others(conf, order, heard, place);
    Ok(())
}
