//! What whole runs of a hub come to.
ghost use Rattle.std.specs.Prelude.{◌≡◌, ◌≢◌, ◌++◌, ◌∷◌, [], ℕ, List, Some};
ghost use Rattle.fg_outside.specs.HubStep.{HubStep, turned, said, Leads, story};
ghost use Rattle.fg_outside.specs.declared.hub.EndCause.TheVariants.{LinkFault};
ghost use Rattle.fg_outside.specs.declared.hub.Happening.TheVariants.{Closed};
ghost use Rattle.fg_outside.specs.declared.hub.Turn.{Turn};
ghost use Rattle.fg_outside.specs.declared.hub.Turn.TheVariants.{Happened, Memory};
ghost use Rattle.fg_outside.specs.declared.hub.Said.TheVariants.{Taken};
ghost use Rattle.link_hub.specs.Hub.{live_at, IsFresh, Turns};
ghost use Rattle.link_hub.specs.Runs.{IsServedInOrder, TellsGone, IsReadyIn, IsWritten, TellsQuiet, IsFault, OneCall};

use crate::hub::LinkHub;
use fg_links::Poller;
use fg_outside::Hub;

/// Whatever turns were taken of a hub, whatever was said and closed: on an open connection the bytes
/// that were heard are those that its link gave since it opened, in order; and what its link was given
/// since, and what waits, are together what was said there and taken, in order and without a gap.
pub fn open_links_are_served_in_order<P: Poller>()
    ensures { (poller : _) (from to : _) (steps : List HubStep) → IsFresh poller from
        → Leads ⟦<LinkHub<P> as Hub>⟧.may from steps to
        → (conn : ℕ) (live : _) → live_at to conn ≡ Some live → IsServedInOrder P.L.Link conn (story steps) live }
{}

/// Whatever happens, the poller is told exactly once of each link that it gave that the link is no
/// longer used, once the link isn't open: where it ended, was closed, or was let go unopened.
pub fn a_link_is_told_gone_once<P: Poller>()
    ensures { (poller : _) (from to : _) (steps : List HubStep) → IsFresh poller from
        → Leads ⟦<LinkHub<P> as Hub>⟧.may from steps to → TellsGone P.Poller from to }
{}

/// Whatever came before: behind a piece that was taken, and behind a turn in which the poller told its link
/// ready, nothing waits on a connection, or its link took no more in this call, or it isn't open. In a turn
/// that ran out of memory a link may not have been served.
pub fn what_waits_is_written_as_far_as_it_can_be<P: Poller>()
    ensures said { (poller : _) (from old new : _) (steps : List HubStep) (conn : ℕ) (piece : List ℕ) → IsFresh poller from
        → Leads ⟦<LinkHub<P> as Hub>⟧.may from steps old → ⟦<LinkHub<P> as Hub>⟧.may old (said conn piece Taken) new
        → IsWritten P.L.Link conn old new }
    ensures turned { (poller : _) (from old new : _) (steps : List HubStep) (turn : Turn) (conn : ℕ) → IsFresh poller from
        → Leads ⟦<LinkHub<P> as Hub>⟧.may from steps old → (call : Turns P.L.Link P.Poller old turn new)
        → turn ≢ Memory → IsReadyIn P.L.Link P.Poller conn old turn new call → IsWritten P.L.Link conn old new }
{}

/// Whatever came before, and whatever comes then: the poller is told that no byte has come exactly of the links of
/// which a read answered so.
pub fn quiet_is_told_of_reads_that_wait<P: Poller>()
    ensures { (poller : _) (from old new : _) (before steps : List HubStep) → IsFresh poller from
        → Leads ⟦<LinkHub<P> as Hub>⟧.may from before old → Leads ⟦<LinkHub<P> as Hub>⟧.may old steps new
        → TellsQuiet P.L.Link P.Poller old new }
{}

/// Where a turn tells that a connection ended by a fault of its link, then in this call or an earlier one of the
/// run that link was let go, and its count of faults had risen since it opened.
pub fn a_link_fault_is_one_of_that_link<P: Poller>()
    ensures { (poller : _) (from old new : _) (steps : List HubStep) (conn : ℕ) → IsFresh poller from
        → Leads ⟦<LinkHub<P> as Hub>⟧.may from steps old
        → ⟦<LinkHub<P> as Hub>⟧.may old (turned (Happened (Closed conn LinkFault))) new
        → OneCall ⟦<LinkHub<P> as Hub>⟧.may (IsFault P.L.Link conn) from (steps ++ turned (Happened (Closed conn LinkFault)) ∷ []) new }
{}
