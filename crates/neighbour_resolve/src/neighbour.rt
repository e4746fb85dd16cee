//! What is asked of one neighbour, and what becomes of it.

ghost use Rattle.std.specs.Prelude.{◌≡◌, ◌<◌, ◌^◌};
ghost use Rattle.neighbour_resolve.specs.Due.{asked, asked_on, is_due, is_gateway, is_spent, later, next, said_of, wait_after};
ghost use Rattle.neighbour_resolve.specs.Table.{is_same};

use conf_types::{Conf, Ip, NeighRec};
use net_base::{DpId, Moment, Vid};

/// What became of a neighbour that is wanted or heard.
#[derive(Clone, Copy, Debug, PartialEq, Eq)]
pub enum Want {
    /// It is new, and stands last.
    Added,
    /// It was there.
    Known,
    /// It is new, and the table has as many neighbours as it may.
    Full,
}

/// What is to be done with a neighbour that is due. Its key is the number of its group, its VLAN
/// and its address.
#[derive(Clone, Copy, Debug, PartialEq, Eq)]
pub enum Due {
    /// It is to be asked.
    Ask { group: DpId, vid: Vid, ip: Ip },
    /// It gave no answer, and stands in the table no more.
    Gone { group: DpId, vid: Vid, ip: Ip },
}

/// The greatest moment, which never comes.
const NEVER: u64 = u64::MAX;

/// Milliseconds that an answer is waited for after each of the first tries.
const WAITS: [u64; 6] = [1_000, 2_000, 4_000, 8_000, 16_000, 32_000];

/// Milliseconds that an answer is waited for after each further one.
const LAST_WAIT: u64 = 64_000;

/// After so many tries a neighbour is given up, unless it is a gateway.
const MOST_TRIES: u8 = 10;

/// Whether two neighbours have one key.
pub(crate) fn is_same(a: &NeighRec, b: &NeighRec) -> bool
    ensures { result ≡ is_same a.now b.now }
{
    a.group == b.group && a.vid.get() == b.vid.get() && a.ip.is_same(b.ip)
}

/// Whether a neighbour's moment has come.
pub(crate) fn is_due(now: Moment, neighbour: &NeighRec) -> bool
    ensures { result ≡ is_due now.0 neighbour.now }
{
    neighbour.due.0 <= now.0 && neighbour.due.0 != NEVER
}

fn wait_after(tries: u8) -> u64
    ensures { result ≡ wait_after tries }
{
    match WAITS.get(tries as usize) {
        Some(wait) => *wait,
        None => LAST_WAIT,
    }
}

fn later(now: Moment, wait: u64) -> Moment
    ensures { result ≡ later now.0 wait }
{
    Moment(now.0.saturating_add(wait))
}

/// Whether a route of its VLAN leads over a neighbour.
fn is_gateway(conf: &Conf, neighbour: &NeighRec) -> bool
    ensures { result ≡ is_gateway conf.now neighbour.now }
{
    match conf.vlan(neighbour.vid) {
        Some(vlan) => vlan
            .routes
            .as_slice()
            .iter()
            .any(|route| route.gw.is_same(neighbour.ip)),
        None => false,
    }
}

fn asked(now: Moment, neighbour: &NeighRec) -> NeighRec
    requires { neighbour.now.tries < 255 }
    ensures { result ≡ asked now.0 neighbour.now }
{
    NeighRec {
        tries: neighbour.tries + 1,
        due: later(now, wait_after(neighbour.tries)),
        ..*neighbour
    }
}

fn asked_on(now: Moment, neighbour: &NeighRec) -> NeighRec
    ensures { result ≡ asked_on now.0 neighbour.now }
{
    NeighRec {
        mac: None,
        due: later(now, LAST_WAIT),
        ..*neighbour
    }
}

/// Whether a neighbour is known, and was asked as often as it may be.
pub(crate) fn is_spent(neighbour: &NeighRec) -> bool
    ensures { result ≡ is_spent neighbour.now }
{
    neighbour.mac.is_some() && neighbour.tries >= MOST_TRIES
}

/// What becomes of a neighbour that is due; `None` where it is given up.
pub(crate) fn next(conf: &Conf, now: Moment, neighbour: &NeighRec) -> Option<NeighRec>
    ensures { result ≡ next conf.now now.0 neighbour.now }
{
    if neighbour.tries < MOST_TRIES {
        Some(asked(now, neighbour))
    } else if is_gateway(conf, neighbour) {
        Some(asked_on(now, neighbour))
    } else {
        None
    }
}
