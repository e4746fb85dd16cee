//! How far the neighbours were gone through at a moment.

ghost use Rattle.std.specs.Prelude.{◌≡◌, List, false, take};
ghost use Rattle.std.specs.List.{list_any};
ghost use Rattle.conf_types.specs.declared.state.NeighRec.{NeighRec};
ghost use Rattle.neighbour_resolve.specs.Due.{is_due};
ghost use Rattle.neighbour_resolve.specs.Passed.{AreWaiting};

use net_base::Moment;

/// At a moment none of so many first neighbours is due.
#[derive(Clone, Copy, Debug)]
pub(crate) struct Passed {
    moment: Moment,
    count: usize,
}

impl Passed {
    /// Nothing is known.
    pub(crate) fn none() -> Passed
        ensures { (neighbours : List NeighRec) → AreWaiting result neighbours }
    {
        Passed {
            moment: Moment(0),
            count: 0,
        }
    }

    /// At this moment none of so many is due.
    pub(crate) fn until(now: Moment, count: usize) -> Passed
        ensures { (neighbours : List NeighRec) → list_any (is_due now.0) (take count neighbours) ≡ false → AreWaiting result neighbours }
    {
        Passed { moment: now, count }
    }

    /// How many of the first neighbours needn't be looked at.
    pub(crate) fn count(self, now: Moment) -> usize
        ensures { (neighbours : List NeighRec) → AreWaiting self neighbours → list_any (is_due now.0) (take result neighbours) ≡ false }
    {
        if self.moment == now { self.count } else { 0 }
    }
}
