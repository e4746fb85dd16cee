ghost use Rattle.std.specs.Prelude.{◌≡◌, ◌≢◌, ◌≤◌, None, Some};
ghost use Rattle.std.specs.Option.{option_copied, option_map};
ghost use Rattle.fg_outside.specs.Counts.{Rose};

use crate::live::Live;
use crate::table::{say_at, serve_at};
use fg_links::{Link, Next, Poller, Took};
use fg_outside::{EndCause, Happening, Hub, Said, Turn};
use net_base::Bytes;
use std::alloc::Global;
use std::collections::BTreeMap;

// How many links may be open.
const MOST_OPEN: usize = 256;

// How many bytes a read takes at most.
const READ_LEN: usize = 65_536;

// How many answers of the poller a turn takes at most that give nothing.
const MOST_EMPTY: u32 = 1024;

/// A hub that serves the links of a poller that has given none yet. They have the poller's
/// numbers, from 1 on, and at most 256 are open. On each at most 67,108,864 bytes wait to be
/// written.
#[derive(Drop)]
pub struct LinkHub<P: Poller> {
    alloc: Global,
    poller: P,
    // How many links the poller gave.
    given: u32,
    live: BTreeMap<u32, Live<P::L>>,
    // The links that ended while something was said, and whose ends are still to be told.
    ended: BTreeMap<u32, EndCause>,
    // The last moment, in milliseconds.
    moment: u64,
    spent: bool,
}

impl<P: Poller> LinkHub<P> {
    ghost use Rattle.link_hub.specs.Hub.{live_at, poller_of, Asks, TakesLink, ServesLink, LetsGo, LetsGoLater, IsFresh, IsIdle, TellsTurn};

    /// A hub with no link yet.
    pub fn new(alloc: Global, poller: P) -> LinkHub<P>
        ensures { IsFresh poller result }
    {
        LinkHub {
            alloc,
            poller,
            given: 0,
            live: BTreeMap::new(alloc),
            ended: BTreeMap::new(alloc),
            moment: 0,
            spent: false,
        }
    }

    /// The link of an open connection; `None` exactly where the connection isn't open.
    pub fn link(&self, conn: u32) -> Option<&P::L>
        ensures { option_copied result ≡ option_map (λ live. live.link) (live_at self.now conn) }
    {
        match self.live.get(&conn) {
            Some(live) => Some(live.link()),
            None => None,
        }
    }

    /// The poller, with all that it counted.
    pub fn into_poller(self) -> P
        ensures { result ≡ poller_of self }
    {
        self.poller
    }

    // Lets the link of a connection go, where it is open.
    fn let_go(&mut self, conn: u32)
        ensures goes { LetsGo P.Poller conn self.old self.new }
        ensures faults { P.faults (poller_of self.new) ≡ P.faults (poller_of self.old) }
    {
        if self.live.remove(&conn).is_some() {
            self.poller.gone(conn);
        }
    }

    // Takes a link that opens, or lets it go.
    fn open(&mut self, link: P::L) -> Option<Turn>
        ensures takes { TakesLink P.Poller link self.old result self.new }
        ensures faults { P.faults (poller_of self.new) ≡ P.faults (poller_of self.old) }
    {
        let conn = self.given.checked_add(1)?;
        self.given = conn;
        if self.live.len() >= MOST_OPEN {
            self.poller.gone(conn);
            return None;
        }
        if self.live.insert(conn, Live::new(self.alloc, link)).is_err() {
            self.poller.gone(conn);
            self.spent = true;
            return Some(Turn::Memory);
        }
        Some(Turn::Happened(Happening::Opened(conn)))
    }

    // Serves a link that is ready.
    fn serve(&mut self, conn: u32) -> Option<Turn>
        ensures serves { ServesLink P.L.Link P.Poller conn self.old result self.new }
        ensures faults { P.faults (poller_of self.new) ≡ P.faults (poller_of self.old) }
    {
        let Ok(mut piece) = Vec::from_elem(self.alloc, 0, READ_LEN) else {
            self.spent = true;
            return Some(Turn::Memory);
        };
        let took = serve_at(&mut self.live, conn, &mut piece)?;
        match took {
            Took::Some(_) => {
                let piece = Bytes::from(piece);
                Some(Turn::Happened(Happening::Heard { conn, piece }))
            }
            Took::NotYet => {
                self.poller.quiet(conn);
                None
            }
            Took::End => self.end(conn, EndCause::End),
            Took::Failed => self.end(conn, EndCause::LinkFault),
        }
    }

    // Lets an open link go, and tells its end.
    fn end(&mut self, conn: u32, cause: EndCause) -> Option<Turn>
        ensures goes { LetsGo P.Poller conn self.old self.new }
        ensures told { result ≡ Some (Turn.Happened (Happening.Closed conn cause)) }
        ensures faults { P.faults (poller_of self.new) ≡ P.faults (poller_of self.old) }
    {
        self.let_go(conn);
        Some(Turn::Happened(Happening::Closed { conn, cause }))
    }

    // Asks the poller once.
    fn ask(&mut self) -> Option<Turn>
        ensures asks { Asks P.L.Link P.Poller self.old result self.new }
        ensures failed { result ≡ Some Turn.Failed → Rose (P.faults (poller_of self.old)) (P.faults (poller_of self.new)) }
        ensures no_fault { result ≢ Some Turn.Failed → P.faults (poller_of self.new) ≡ P.faults (poller_of self.old) }
        ensures faults { P.faults (poller_of self.old) ≤ P.faults (poller_of self.new) }
    {
        match self.poller.next() {
            Next::New(link) => self.open(link),
            Next::Ready(conn) => self.serve(conn),
            Next::Moment(moment) => {
                self.moment = moment;
                Some(Turn::Happened(Happening::Moment(moment)))
            }
            Next::Stop => Some(Turn::Done),
            Next::Failed => Some(Turn::Failed),
        }
    }

    // Tells the first end that waits to be told.
    fn tell_end(&mut self) -> Option<Turn>
        ensures none { result ≡ None → IsIdle self.old × (self.new ≡ self.old) }
        ensures some { (turn : _) → result ≡ Some turn → TellsTurn self.old turn self.new }
    {
        if self.ended.is_empty() {
            return None;
        }
        let (conn, cause) = self.ended.pop_first()?;
        Some(Turn::Happened(Happening::Closed { conn, cause }))
    }

    // Lets an open link go that ended while something was said, so that a later turn tells its end.
    fn end_later(&mut self, conn: u32, cause: EndCause) -> Said
        ensures goes { LetsGoLater P.Poller conn cause self.old result self.new }
        ensures faults { P.faults (poller_of self.new) ≡ P.faults (poller_of self.old) }
    {
        self.let_go(conn);
        if self.ended.insert(conn, cause).is_err() {
            self.spent = true;
            return Said::Memory;
        }
        Said::Gone
    }
}

impl<P: Poller> Hub for LinkHub<P> {
    ghost use Rattle.link_hub.specs.Hub.{is_live, poller_of, LinkStep};

    ghost may = { λ old step new. LinkStep P.L.Link P.Poller old step new };

    ghost is_open = { λ hub conn. is_live hub conn };

    ghost faults = { λ hub. P.faults (poller_of hub) };

    fn turn(&mut self) -> Turn {
        if self.spent {
            return Turn::Memory;
        }
        match self.tell_end() {
            Some(turn) => return turn,
            None => {}
        }
        let mut asked = 0;
        while asked < MOST_EMPTY {
            match self.ask() {
                Some(turn) => return turn,
                None => asked += 1,
            }
        }
        Turn::Happened(Happening::Moment(self.moment))
    }

    fn say(&mut self, conn: u32, piece: &[u8]) -> Said {
        if self.spent {
            return Said::Memory;
        }
        match say_at(&mut self.live, conn, piece) {
            None => Said::Gone,
            Some(Ok(None)) => Said::Taken,
            Some(Ok(Some(cause))) => self.end_later(conn, cause),
            Some(Err(_)) => {
                self.spent = true;
                Said::Memory
            }
        }
    }

    fn close(&mut self, conn: u32) {
        self.let_go(conn);
        self.ended.remove(&conn);
    }
}
