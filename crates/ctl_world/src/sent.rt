//! What a switch was sent, as contracts see it.

ghost use Rattle.std.specs.Prelude.{◌≡◌, []};

use of_match::Tables;
use std::alloc::Global;
use std::marker::Model;
use std::snapshot::Snapshot;

/// The entries that a switch holds once it has done all that was said since its tables were wiped. Contracts
/// see the list, of which nothing is kept here: whoever keeps the plan of the datapath keeps them.
#[derive(Drop)]
pub struct Sent {
    tables: Snapshot<Tables>,
}

impl Model for Sent {
    ghost use Rattle.std.specs.Prelude.{List};
    ghost use Rattle.of_match.specs.declared.entry.Entry.{Entry};

    ghost Value = { List Entry };

    ghost view = { λ s. s.tables.value };
}

impl Sent {
    /// None.
    pub fn none(alloc: Global) -> Sent
        ensures { result ≡ [] }
    {
        let none = Tables::new(alloc);
        Sent::of(&none)
    }

    /// These.
    pub fn of(tables: &Tables) -> Sent
        ensures { result ≡ tables.now }
    {
        Sent {
            tables: Snapshot::of(tables),
        }
    }
}
