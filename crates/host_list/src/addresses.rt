//! The hosts of an address in a VLAN, to be looked up.

ghost use Rattle.std.specs.Prelude.{◌≡◌, ◌==◌, ◌++◌, ◌∷◌, [], None, Some, true, if◌then◌else◌, not, IfOk, IfSome, OnOk, OnErr};
ghost use Rattle.std.specs.List.{list_any};
ghost use Rattle.indexmap.specs.IndexMap.{get};
ghost use Rattle.host_list.specs.Addresses.{entries_at, entries_of, heard_at, is_address, off_place};

use conf_types::HostRec;
use indexmap::IndexMap;
use net_base::{Mac, Moment, NoMemory};
use std::alloc::Global;
use std::slice::from_ref;

/// An address in a VLAN.
#[derive(Clone, Copy, Debug, PartialEq, Eq, Hash)]
pub(crate) struct Address {
    pub vid: u16,
    pub mac: Mac,
}

/// A host with its place in the order of learning.
pub(crate) type Entry = (u64, HostRec);

/// The hosts of an address, in order. Nearly every address has one, which needs no memory of its own.
#[derive(Debug, Drop)]
pub(crate) enum Standing {
    One(Entry),
    Several(Vec<Entry>),
}

/// The hosts of each address.
pub(crate) type Addresses = IndexMap<Address, Standing>;

impl Standing {
    fn entries(&self) -> &[Entry]
        ensures { result.now ≡ entries_of self.now }
    {
        match self {
            Standing::One(entry) => from_ref(entry),
            Standing::Several(list) => list.as_slice(),
        }
    }
}

pub(crate) fn entries<'a>(addresses: &'a Addresses, address: &Address) -> &'a [Entry]
    ensures { result.now ≡ entries_at addresses.now address.now }
{
    match addresses.get(address) {
        Some(standing) => standing.entries(),
        None => &[],
    }
}

fn begin(addresses: &mut Addresses, address: Address, entry: Entry) -> Result<(), NoMemory>
    requires { get is_address addresses.old address ≡ None }
    ensures ok { OnOk result ((q : Address) → entries_at addresses.new q ≡ entries_at addresses.old q ++ (if is_address address q then entry ∷ [] else [])) }
    ensures err { OnErr result (addresses.new.entries ≡ addresses.old.entries) }
{
    addresses.insert(address, Standing::One(entry))?;
    Ok(())
}

fn both(alloc: Global, first: Entry, second: Entry) -> Result<Vec<Entry>, NoMemory>
    ensures { IfOk result (λ list. list.items ≡ first ∷ second ∷ []) }
{
    let mut list = Vec::with_capacity(alloc, 2)?;
    list.push(first)?;
    list.push(second)?;
    Ok(list)
}

fn add(alloc: Global, standing: &mut Standing, entry: Entry) -> Result<(), NoMemory>
    ensures ok { OnOk result (entries_of standing.new ≡ entries_of standing.old ++ entry ∷ []) }
    ensures err { OnErr result (entries_of standing.new ≡ entries_of standing.old) }
{
    match standing {
        Standing::One(first) => {
            let list = both(alloc, *first, entry)?;
            *standing = Standing::Several(list);
        }
        Standing::Several(list) => {
            list.push(entry)?;
        }
    }
    Ok(())
}

/// Puts a host last among those of its address.
pub(crate) fn put(
    alloc: Global,
    addresses: &mut Addresses,
    address: Address,
    entry: Entry,
) -> Result<(), NoMemory>
    ensures ok { OnOk result ((q : Address) → entries_at addresses.new q ≡ entries_at addresses.old q ++ (if is_address address q then entry ∷ [] else [])) }
    ensures err { OnErr result ((q : Address) → entries_at addresses.new q ≡ entries_at addresses.old q) }
{
    if !addresses.contains_key(&address) {
        return begin(addresses, address, entry);
    }
    match addresses.get_mut(&address) {
        Some(standing) => {
            add(alloc, standing, entry)?;
        }
        None => {}
    }
    Ok(())
}

/// The host of a list that has no other.
fn alone(standing: &Standing) -> Option<Entry>
    ensures { IfSome result (λ entry. entries_of standing.now ≡ entry ∷ []) }
{
    match standing.entries() {
        [entry] => Some(*entry),
        _ => None,
    }
}

/// One host that is left needs no memory of its own.
fn narrow(standing: &mut Standing)
    ensures { entries_of standing.new ≡ entries_of standing.old }
{
    if let Some(entry) = alone(standing) {
        *standing = Standing::One(entry);
    }
}

fn leave(standing: &mut Standing, place: u64)
    requires { list_any (λ e. not (e.0 == place)) (entries_of standing.old) ≡ true }
    ensures { entries_of standing.new ≡ off_place place (entries_of standing.old) }
{
    if let Standing::Several(list) = standing {
        list.retain(|entry| entry.0 != place);
        narrow(standing);
    }
}

fn hear(standing: &mut Standing, place: u64, moment: Moment)
    ensures { entries_of standing.new ≡ heard_at place moment (entries_of standing.old) }
{
    match standing {
        Standing::One(entry) => hear_one(entry, place, moment),
        Standing::Several(list) => hear_each(list.as_mut_slice(), place, moment),
    }
}

fn hear_each(list: &mut [Entry], place: u64, moment: Moment)
    ensures { list.new ≡ heard_at place moment list.old }
{
    for entry in list.iter_mut() {
        if entry.0 == place {
            entry.1.learned = moment;
        }
    }
}

fn hear_one(entry: &mut Entry, place: u64, moment: Moment)
    ensures { entry.new ∷ [] ≡ heard_at place moment (entry.old ∷ []) }
{
    if entry.0 == place {
        entry.1.learned = moment;
    }
}

fn has_others(entries: &[Entry], place: u64) -> bool
    ensures { result ≡ list_any (λ e. not (e.0 == place)) entries.now }
{
    entries.iter().any(|entry| entry.0 != place)
}

fn leave_at(addresses: &mut Addresses, address: &Address, place: u64)
    requires { list_any (λ e. not (e.0 == place)) (entries_at addresses.old address.now) ≡ true }
    ensures { (q : Address) → entries_at addresses.new q ≡ (if is_address address.now q then off_place place (entries_at addresses.old q) else entries_at addresses.old q) }
{
    if let Some(standing) = addresses.get_mut(address) {
        leave(standing, place);
    }
}

/// Takes the host at a place out of those of its address. An address without hosts isn't kept.
pub(crate) fn take(addresses: &mut Addresses, address: &Address, place: u64)
    ensures { (q : Address) → entries_at addresses.new q ≡ (if is_address address.now q then off_place place (entries_at addresses.old q) else entries_at addresses.old q) }
{
    if has_others(entries(addresses, address), place) {
        leave_at(addresses, address, place);
    } else {
        addresses.swap_remove(address);
    }
}

/// Gives the host at a place another moment.
pub(crate) fn refresh(addresses: &mut Addresses, address: &Address, place: u64, moment: Moment)
    ensures { (q : Address) → entries_at addresses.new q ≡ (if is_address address.now q then heard_at place moment (entries_at addresses.old q) else entries_at addresses.old q) }
{
    if let Some(standing) = addresses.get_mut(address) {
        hear(standing, place, moment);
    }
}
