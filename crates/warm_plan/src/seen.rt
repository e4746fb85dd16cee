//! A state as contracts see it, of which nothing is kept.

ghost use Rattle.std.specs.Prelude.{◌≡◌, List};
ghost use Rattle.std.specs.Borrow.{ftrue};
ghost use Rattle.conf_types.specs.declared.state.NeighRec.{NeighRec};
ghost use Rattle.packet_way.specs.Present.{state_of};

use conf_types::{DpIds, NeighRec, UpRecs};
use host_list::Hosts;
use net_base::Moment;
use packet_way::Now;
use std::marker::Model;
use std::snapshot::Snapshot;

/// Neighbours as contracts see them. They have no bytes.
#[derive(Drop)]
pub(crate) struct Neighbours {
    pub(crate) ghost list: { List NeighRec },
}

impl Model for Neighbours {
    ghost also_owns = { λ _. ftrue };
}

impl Neighbours {
    fn of(list: &[NeighRec]) -> Neighbours
        ensures { result.list ≡ list.now }
    {
        let _ = list;
        Neighbours {}
    }
}

/// The state that was handed in, which is what contracts see.
#[derive(Drop)]
pub(crate) struct Seen {
    moment: Snapshot<Moment>,
    running: Snapshot<DpIds>,
    ups: Snapshot<UpRecs>,
    hosts: Snapshot<Hosts>,
    neighbours: Neighbours,
}

impl Model for Seen {
    ghost use Rattle.conf_types.specs.State.{State};

    ghost Value = { State };

    ghost view = { λ s. record { moment = s.moment.value.0; running = s.running.value; ups = s.ups.value; hosts = s.hosts.value; neighbours = s.neighbours.list } };
}

impl Seen {
    /// The state.
    pub(crate) fn of(now: &Now) -> Seen
        ensures { result ≡ state_of now.now }
    {
        Seen {
            moment: Snapshot::of(&now.moment),
            running: Snapshot::of(now.running),
            ups: Snapshot::of(now.ups),
            hosts: Snapshot::of(now.hosts),
            neighbours: Neighbours::of(now.neighbours),
        }
    }
}
