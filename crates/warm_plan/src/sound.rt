//! That a configuration, a state and tables are as the laws ask. Nothing is done.

ghost use Rattle.std.specs.Prelude.{◌≡◌, true, IfSome};
ghost use Rattle.std.specs.List.{list_any};
ghost use Rattle.net_base.specs.Address.{IsSixBytes};
ghost use Rattle.of_match.specs.FlowTables.{IsInKeyOrder};
ghost use Rattle.conf_types.specs.Changes.{AreNamed};
ghost use Rattle.conf_types.specs.State.{IsValidState};
ghost use Rattle.packet_way.specs.Present.{state_of};
ghost use Rattle.warm_plan.specs.Kept.{HaveAddresses, IsSound};
ghost use Rattle.warm_plan.specs.Named.{names_neighbour};

use crate::named::name_neighbour;
use crate::seen::Seen;
use conf_types::{Change, Conf, NeighRec};
use net_base::Mac;
use of_match::Tables;
use packet_way::Now;

// What is read of the bytes tells how many they are.
fn first_byte(mac: Mac) -> u8
    ensures { IsSixBytes mac.0 }
{
    let bytes = mac.0;
    let slice = &bytes[..];
    slice[0]
}

fn of_neighbour(neighbour: &NeighRec)
    ensures { IfSome neighbour.now.mac (λ mac. IsSixBytes mac.0) }
{
    if let Some(mac) = neighbour.mac {
        let _first = first_byte(mac);
    }
}

fn of_neighbours(neighbours: &[NeighRec])
    ensures { HaveAddresses neighbours.now }
{
    for neighbour in neighbours {
        of_neighbour(neighbour);
    }
}

/// The configuration is valid, and the addresses have six bytes.
pub(crate) fn is_sound(conf: &Conf, now: &Now)
    requires { IsValidState conf.now (state_of now.now) }
    ensures { IsSound conf.now (state_of now.now) }
{
    let _dps = conf.dps();
    now.hosts.are_sound();
    of_neighbours(now.neighbours);
}

fn of_named(neighbours: &[NeighRec], changes: &[Change])
    ensures { list_any names_neighbour changes.now ≡ true → HaveAddresses neighbours.now }
{
    if name_neighbour(changes) {
        of_neighbours(neighbours);
    }
}

/// The same of the state that follows one of which it holds. The neighbours are gone over only where a change
/// names one.
pub(crate) fn stays_sound(conf: &Conf, before: &Seen, now: &Now, changes: &[Change])
    requires state { IsValidState conf.now (state_of now.now) }
    requires sound { IsSound conf.now before.now }
    requires named { AreNamed conf.now before.now (state_of now.now) changes.now }
    ensures { IsSound conf.now (state_of now.now) }
{
    let _ = conf;
    let _ = before;
    now.hosts.are_sound();
    of_named(now.neighbours, changes);
}

/// The entries are in key order, also where memory ran out as they were changed.
pub(crate) fn are_ordered(tables: &Tables)
    ensures { IsInKeyOrder tables.now }
{
    let _entries = tables.iter();
}
