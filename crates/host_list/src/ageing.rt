//! Which hosts are to be forgotten, and how they are taken out.

ghost use Rattle.std.specs.Prelude.{◌≡◌, ◌≤◌, filter, length, not};
ghost use Rattle.std.specs.List.{list_any};
ghost use Rattle.conf_types.specs.State.{is_to_forget};
ghost use Rattle.host_list.specs.Order.{hosts_of, is_due_from};
ghost use Rattle.host_list.specs.Passed.{ArePassed, is_due_past, no_earlier, none_passed, start_from};
ghost use Rattle.host_list.specs.Hosts.{first_due, without_first};

use crate::order::Order;
use crate::shelves::{Shelf, is_due_from};
use conf_types::{Conf, HostRec};
use net_base::Moment;

fn any_due_from(conf: &Conf, now: Moment, shelves: &[Shelf]) -> bool
    ensures { result ≡ list_any (is_due_from conf.now now.0) shelves.now }
{
    shelves.iter().any(|shelf| is_due_from(conf, now, shelf))
}

/// The hosts before a place, and a moment before which none of them was heard.
#[derive(Clone, Copy, Debug)]
pub(crate) struct Passed {
    pub front: u64,
    pub least: Moment,
}

impl Passed {
    /// No host.
    pub(crate) fn none() -> Passed
        ensures { result ≡ none_passed }
    {
        Passed {
            front: 0,
            least: Moment(u64::MAX),
        }
    }
}

/// The shelf with a moment that is no earlier than this one.
fn no_earlier(least: Moment, shelf: &Shelf) -> Shelf
    ensures { result ≡ no_earlier least shelf.now }
{
    if shelf.least.0 < least.0 {
        Shelf { least, ..*shelf }
    } else {
        *shelf
    }
}

/// Whether a host that was passed may be to be forgotten.
fn is_due_past(conf: &Conf, now: Moment, least: Moment, shelf: &Shelf) -> bool
    ensures { result ≡ is_due_past conf.now now.0 least shelf.now }
{
    is_due_from(conf, now, &no_earlier(least, shelf))
}

fn any_due_past(conf: &Conf, now: Moment, least: Moment, shelves: &[Shelf]) -> bool
    ensures { result ≡ list_any (is_due_past conf.now now.0 least) shelves.now }
{
    shelves
        .iter()
        .any(|shelf| is_due_past(conf, now, least, shelf))
}

/// Which hosts needn't be looked at: those that were passed, unless one of them may be to be forgotten.
fn start_from(conf: &Conf, now: Moment, shelves: &[Shelf], passed: &Passed) -> Passed
    ensures { result ≡ start_from conf.now now.0 shelves.now passed.now }
{
    if any_due_past(conf, now, passed.least, shelves) {
        Passed::none()
    } else {
        *passed
    }
}

/// Takes out the first host that is to be forgotten.
fn take_first(order: &mut Order, passed: &mut Passed, conf: &Conf, now: Moment) -> Option<HostRec>
    requires { ArePassed passed.old order.old }
    ensures found { result ≡ first_due conf.now now.0 (hosts_of order.old) }
    ensures left { hosts_of order.new ≡ without_first (is_to_forget conf.now now.0) (hosts_of order.old) }
    ensures fewer { length order.new ≤ length order.old }
    ensures passed { ArePassed passed.new order.new }
{
    let start = start_from(conf, now, order.shelves(), passed);
    match order.next_due(&start, conf, now) {
        (Some(front), least) => {
            *passed = Passed { front, least };
            order.remove(front)
        }
        (None, _) => {
            *passed = Passed::none();
            order.tighten(conf, now);
            None
        }
    }
}

/// Takes out the first host that is to be forgotten, if there may be one.
pub(crate) fn take_due(
    order: &mut Order,
    passed: &mut Passed,
    conf: &Conf,
    now: Moment,
) -> Option<HostRec>
    requires { ArePassed passed.old order.old }
    ensures found { result ≡ first_due conf.now now.0 (hosts_of order.old) }
    ensures left { hosts_of order.new ≡ without_first (is_to_forget conf.now now.0) (hosts_of order.old) }
    ensures fewer { length order.new ≤ length order.old }
    ensures passed { ArePassed passed.new order.new }
{
    if !any_due_from(conf, now, order.shelves()) {
        return None;
    }
    take_first(order, passed, conf, now)
}

/// Takes out the hosts that are to be forgotten, as `leave` does.
fn leave_due(order: &mut Order, conf: &Conf, now: Moment)
    ensures { order.new ≡ filter (λ e. not (is_to_forget conf.now now.0 e.1)) order.old }
{
    let mut passed = Passed::none();
    while let Some(place) = order.next_due(&passed, conf, now).0 {
        order.remove(place);
        passed.front = place;
    }
}

/// Takes out the hosts that are to be forgotten, where there may be one.
pub(crate) fn leave_any_due(order: &mut Order, conf: &Conf, now: Moment)
    ensures { order.new ≡ filter (λ e. not (is_to_forget conf.now now.0 e.1)) order.old }
{
    if any_due_from(conf, now, order.shelves()) {
        leave_due(order, conf, now);
        order.tighten(conf, now);
    }
}
