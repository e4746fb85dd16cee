ghost use Rattle.std.specs.Prelude.{◌≡◌, ◌≢◌, ◌+◌, ◌-◌, ◌^◌, ◌≤◌, true, List, [], ◌∷◌, drop, Some, None, IfOk, IsSome};
ghost use Rattle.std.specs.Option.{option_map};
ghost use Rattle.fg_outside.specs.Counts.{Rose};
ghost use Rattle.fg_links.specs.declared.next.MemNext.{MemNext};
ghost use Rattle.fg_links.specs.declared.told.Told.{Told};
ghost use Rattle.fg_links.specs.Nexts.{next_of, links_of};
ghost use Rattle.fg_links.specs.Calls.{Appends};
ghost use Rattle.real_links.specs.Port.{link_at};
ghost use Rattle.real_links.specs.Ticks.{last_of};
ghost use Rattle.real_links.specs.Poller.{ahead_of, told_to, last_moment, is_ready, Follows};

use crate::mio_link::MioLink;
use crate::port::Port;
use crate::sources::Sources;
use crate::ticks::Ticks;
use fg_links::{Next, Poller};
use mio::Events;
use net_base::{Ip4, NoMemory};
use std::io;
use std::net::{Ipv4Addr, Net, SocketAddr};
use std::time::Clock;

// How many events the system tells at a time.
const MOST_EVENTS: usize = 256;

// An open port, and the clock.
#[derive(Drop)]
struct Listening {
    port: Port,
    ticks: Ticks,
}

/// A poller that listens at a port, and gives each connection as a link. It tells nothing of what it
/// will give and was told, and counts its faults.
#[derive(Drop)]
pub struct MioPoller<'a, R> {
    rt: &'a R,
    // None where the port couldn't be opened.
    listening: Option<Listening>,
    given: u32,
    faults: u64,
}

impl Listening {
    fn new<R: Net + Clock + AllocGlobal>(
        rt: &R,
        at: SocketAddr,
        events: Events,
    ) -> io::Result<Listening>
        ensures { IfOk result (λ listening. last_of listening.ticks ≡ None) }
    {
        Ok(Listening {
            port: Port::open(rt, at, events, Sources::new(rt.alloc()))?,
            ticks: Ticks::start(rt)?,
        })
    }

    // Waits for what happens next; a link that opens is to have this number.
    fn next<R: Clock>(&mut self, rt: &R, number: Option<u32>) -> Next<MioLink>
        ensures follows { Follows (last_of self.old.ticks) result (last_of self.new.ticks) }
        ensures new { (link : _) → result ≡ Next.New link → IsSome number }
        ensures ready { (link : _) → result ≡ Next.Ready link → link_at self.new.port link ≡ Some true }
    {
        let next = self.port.next(rt, &self.ticks, number);
        if let Ok(Next::Moment(moment)) = next {
            self.ticks.tell(moment);
        }
        next.unwrap_or(Next::Failed)
    }
}

impl<'a, R: Net + Clock + AllocGlobal> MioPoller<'a, R> {
    /// Listens at this address and port. Where that can't be, each `next` fails.
    pub fn new(rt: &'a R, ip: Ip4, port: u16) -> Result<MioPoller<'a, R>, NoMemory>
        ensures given { IfOk result (λ poller. ⟦<MioPoller<'a, R> as Poller>⟧.given poller ≡ 0) }
        ensures faults { IfOk result (λ poller. ⟦<MioPoller<'a, R> as Poller>⟧.faults poller ≡ 0) }
        ensures moment { IfOk result (λ poller. last_moment poller ≡ None) }
    {
        let at = SocketAddr::from((Ipv4Addr::from(ip.0), port));
        let events = Events::with_capacity(rt.alloc(), MOST_EVENTS)?;
        Ok(MioPoller {
            rt,
            listening: Listening::new(rt, at, events).ok(),
            given: 0,
            faults: 0,
        })
    }
}

impl<R: Net + Clock + AllocGlobal> Poller for MioPoller<'_, R> {
    type L = MioLink;

    ghost given = { λ poller. poller.given };

    ghost ahead = { ahead_of };

    ghost told = { told_to };

    ghost faults = { λ poller. poller.faults };

    /// Gives a moment first, and then one whenever 100 ms have passed; between these, in turn, the
    /// connections that come and the links that are ready. A link is ready from its opening on until
    /// `quiet` is called, and again once the system says so.
    fn next(&mut self) -> Next<MioLink>
        ensures next { (list : List (MemNext MioLink)) → ahead_of self.old ≡ Some list → result ≢ Next.Failed → result ≡ next_of list }
        ensures onward { result ≢ Next.Failed → ahead_of self.new ≡ option_map (drop 1) (ahead_of self.old) }
        ensures kept { result ≡ Next.Failed → ahead_of self.new ≡ ahead_of self.old }
        ensures given { self.new.given ≡ self.old.given + links_of result }
        ensures most { self.new.given ≤ 2 ^ 32 - 1 }
        ensures told { told_to self.new ≡ told_to self.old }
        ensures failed { result ≡ Next.Failed → Rose self.old.faults self.new.faults }
        ensures no_fault { result ≢ Next.Failed → self.new.faults ≡ self.old.faults }
        ensures faults { self.old.faults ≤ self.new.faults }

        ensures follows { Follows (last_moment self.old) result (last_moment self.new) }
        ensures ready { (link : _) → result ≡ Next.Ready link → is_ready self.new link ≡ Some true }
    {
        let number = self.given.checked_add(1);
        let next = match &mut self.listening {
            Some(at) => at.next(self.rt, number),
            None => Next::Failed,
        };
        match next {
            Next::New(_) => self.given = number.unwrap_or(self.given),
            Next::Failed => self.faults = self.faults.saturating_add(1),
            _ => {}
        }
        next
    }

    fn quiet(&mut self, link: u32)
        ensures told { Appends (told_to self.old) (Told.Quiet link ∷ []) (told_to self.new) }
        ensures ahead { ahead_of self.new ≡ ahead_of self.old }
        ensures given { self.new.given ≡ self.old.given }
        ensures faults { self.new.faults ≡ self.old.faults }

        ensures silent { is_ready self.new link ≢ Some true }
        ensures moment { last_moment self.new ≡ last_moment self.old }
    {
        if let Some(at) = &mut self.listening {
            at.port.quiet(link);
        }
    }

    fn gone(&mut self, link: u32)
        ensures told { Appends (told_to self.old) (Told.Gone link ∷ []) (told_to self.new) }
        ensures ahead { ahead_of self.new ≡ ahead_of self.old }
        ensures given { self.new.given ≡ self.old.given }
        ensures faults { self.new.faults ≡ self.old.faults }

        ensures closed { is_ready self.new link ≡ None }
        ensures moment { last_moment self.new ≡ last_moment self.old }
    {
        if let Some(at) = &mut self.listening {
            at.port.close(link);
        }
    }
}
