//! What is asked of a host that is heard: whether it is known, and where it stands. The hosts of its
//! address tell it.

ghost use Rattle.std.specs.Prelude.{◌≡◌, ◌&&◌};
ghost use Rattle.std.specs.List.{find, list_any};
ghost use Rattle.std.specs.Option.{option_copied};
ghost use Rattle.conf_types.specs.State.{is_permanent};
ghost use Rattle.host_list.specs.Hosts.{has_key, is_heard, is_in_place, is_known, is_staying, stands_there};
ghost use Rattle.host_list.specs.Order.{hosts_of};

use crate::addresses::Entry;
use crate::order::{Order, address_of};
use conf_types::{Conf, HostRec};
use net_base::{DpId, Mac, Vid};

/// Whether a host has this key: the number of its datapath's group, its VLAN and its address.
pub fn has_key(conf: &Conf, host: &HostRec, group: DpId, vid: Vid, mac: Mac) -> bool
    ensures { result ≡ has_key conf.now group vid mac.0 host.now }
{
    host.has_mac(mac) && conf.is_host_in(group, vid, host)
}

/// Whether a host is the one that is heard, and stands where it is heard.
pub(crate) fn is_in_place(heard: &HostRec, host: &HostRec) -> bool
    ensures { result ≡ is_in_place heard.now host.now }
{
    host.is_at(heard.dp, heard.port) && host.vid.get() == heard.vid.get() && host.has_mac(heard.mac)
}

pub(crate) fn has_heard(conf: &Conf, heard: &HostRec, host: &HostRec) -> bool
    ensures { result ≡ is_heard conf.now heard.now host.now }
{
    has_key(
        conf,
        host,
        conf.group_number(heard.dp),
        heard.vid,
        heard.mac,
    )
}

fn any_in_place(entries: &[Entry], heard: &HostRec) -> bool
    ensures { result ≡ list_any (λ e. is_in_place heard.now e.1) entries.now }
{
    entries.iter().any(|entry| is_in_place(heard, &entry.1))
}

pub(crate) fn stands_there(order: &Order, heard: &HostRec) -> bool
    ensures { result ≡ stands_there (hosts_of order.now) heard.now }
{
    any_in_place(order.entries(&address_of(heard)), heard)
}

fn any_heard(conf: &Conf, entries: &[Entry], heard: &HostRec) -> bool
    ensures { result ≡ list_any (λ e. is_heard conf.now heard.now e.1) entries.now }
{
    entries.iter().any(|entry| has_heard(conf, heard, &entry.1))
}

pub(crate) fn is_known(conf: &Conf, order: &Order, heard: &HostRec) -> bool
    ensures { result ≡ is_known conf.now (hosts_of order.now) heard.now }
{
    any_heard(conf, order.entries(&address_of(heard)), heard)
}

fn any_staying(conf: &Conf, entries: &[Entry], heard: &HostRec) -> bool
    ensures { result ≡ list_any (λ e. is_heard conf.now heard.now e.1 && is_permanent conf.now e.1) entries.now }
{
    entries.iter().any(|entry| has_heard(conf, heard, &entry.1) && conf.is_permanent(&entry.1))
}

/// Whether the host that is heard stays for good somewhere in the group.
pub(crate) fn is_staying(conf: &Conf, order: &Order, heard: &HostRec) -> bool
    ensures { result ≡ is_staying conf.now (hosts_of order.now) heard.now }
{
    any_staying(conf, order.entries(&address_of(heard)), heard)
}

/// The first host of a list that has a key.
pub(crate) fn find_host<'a>(
    entries: &'a [Entry],
    conf: &Conf,
    group: DpId,
    vid: Vid,
    mac: Mac,
) -> Option<&'a HostRec>
    ensures { option_copied result ≡ find (has_key conf.now group vid mac.0) (hosts_of entries.now) }
{
    for entry in entries {
        if has_key(conf, &entry.1, group, vid, mac) {
            return Some(&entry.1);
        }
    }
    None
}
