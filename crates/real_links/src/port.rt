ghost use Rattle.std.specs.Prelude.{◌≡◌, ◌≢◌, true, None, Some, Ok, IfOk, IsSome};
ghost use Rattle.real_links.specs.Ticks.{last_of};
ghost use Rattle.real_links.specs.Port.{link_at, Comes};

use crate::mio_link::MioLink;
use crate::sources::{LISTENER, Sources};
use crate::ticks::Ticks;
use fg_links::Next;
use mio::net::TcpListener;
use mio::{Events, Interest, Poll, Token};
use std::io::{self, ErrorKind};
use std::net::{Net, SocketAddr};
use std::time::{Clock, Duration};

/// A port that is open for connections, and what may happen there.
#[derive(Drop)]
pub(crate) struct Port {
    poll: Poll,
    events: Events,
    listener: TcpListener,
    sources: Sources,
}

impl Port {
    /// Opens the port.
    pub(crate) fn open<R: Net>(
        rt: &R,
        at: SocketAddr,
        events: Events,
        sources: Sources,
    ) -> io::Result<Port> {
        let poll = Poll::new(rt)?;
        let mut listener = TcpListener::bind(rt, at)?;
        let token = Token(LISTENER as usize);
        poll.registry()
            .register(&mut listener, token, Interest::READABLE)?;
        let mut sources = sources;
        sources.open(LISTENER)?;
        Ok(Port {
            poll,
            events,
            listener,
            sources,
        })
    }

    /// The link with this number isn't ready.
    pub(crate) fn quiet(&mut self, link: u32)
        ensures { link_at self.new link ≢ Some true }
    {
        self.sources.set(link, false);
    }

    /// The link with this number isn't open any more.
    pub(crate) fn close(&mut self, link: u32)
        ensures { link_at self.new link ≡ None }
    {
        self.sources.close(link);
    }

    // Takes the next connection, as the link with this number.
    fn take(&mut self, number: u32) -> io::Result<MioLink> {
        let (mut stream, _) = self.listener.accept()?;
        stream.set_nodelay(true)?;
        let token = Token(number as usize);
        let both = Interest::READABLE | Interest::WRITABLE;
        self.poll.registry().register(&mut stream, token, both)?;
        self.sources.open(number)?;
        Ok(MioLink::new(stream))
    }

    // The next connection, where there is one and a number for it. Else the listener is asked no more
    // until the system tells of one or a moment was told, unless the connection was gone again.
    fn accept(&mut self, number: Option<u32>) -> Option<MioLink>
        ensures { IsSome result → IsSome number }
    {
        let taken = match number {
            Some(number) => self.take(number),
            None => Err(io::Error::from(ErrorKind::QuotaExceeded)),
        };
        match taken {
            Ok(link) => Some(link),
            Err(e) => {
                let was_gone = e.kind() == ErrorKind::ConnectionAborted;
                self.sources.set(LISTENER, was_gone);
                None
            }
        }
    }

    // Waits until the system tells of something or a signal comes, so many milliseconds at most; where
    // something is ready already, it only asks.
    fn wait(&mut self, most: u64) -> io::Result<()> {
        let most = if self.sources.is_any_ready() { 0 } else { most };
        let timeout = Duration::from_millis(most);
        match self.poll.poll(&mut self.events, Some(timeout)) {
            Err(e) if e.kind() == ErrorKind::Interrupted => return Ok(()),
            told => told?,
        }
        for event in &self.events {
            if let Ok(number) = u32::try_from(event.token().0) {
                self.sources.set(number, true);
            }
        }
        Ok(())
    }

    /// Waits for what happens next: a moment once it is due, else a connection, as the link with this
    /// number, or a link that is ready, in turn.
    pub(crate) fn next<R: Clock>(
        &mut self,
        rt: &R,
        ticks: &Ticks,
        number: Option<u32>,
    ) -> io::Result<Next<MioLink>>
        ensures comes { IfOk result (Comes (last_of ticks.now) number) }
        ensures ready { (link : _) → result ≡ Ok (Next.Ready link) → link_at self.new link ≡ Some true }
    {
        for _ in 0..u64::MAX {
            let now = ticks.now(rt)?;
            let left = ticks.left(now);
            if left == 0 {
                self.sources.set(LISTENER, true);
                return Ok(Next::Moment(now));
            }
            match self.sources.next() {
                Some(LISTENER) => {
                    if let Some(link) = self.accept(number) {
                        return Ok(Next::New(link));
                    }
                }
                Some(link) => return Ok(Next::Ready(link)),
                None => self.wait(left)?,
            }
        }
        Err(io::Error::from(ErrorKind::TimedOut))
    }
}
