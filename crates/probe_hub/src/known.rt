//! What a hub knows whose links are probed.

ghost use Rattle.std.specs.Prelude.{◌≡◌, None, [], IfOk, OnOk};
ghost use Rattle.probe_hub.specs.declared.links.Links.{Links as Read};
ghost use Rattle.probe_hub.specs.Known.{after, after_heard, begun, gone, next_told, noted_in, opened_in, reloaded, renewed, shown, taken};

use crate::conns::Conns;
use crate::frames::asked_id;
use crate::links::Links;
use crate::notices::make_piece;
use crate::probing::Probing;
use crate::reader::ReadsLinks;
use fg_outside::Happening;
use net_base::{Bytes, Items, NoMemory};
use std::alloc::Global;

/// What follows the cut in bytes that came on a connection.
#[derive(Debug, Drop)]
pub(crate) struct Rest {
    pub(crate) conn: u32,
    pub(crate) bytes: Bytes,
}

/// What is known of links, of connections and of the clock.
#[derive(Drop)]
pub(crate) struct Known {
    pub(crate) links: Links,
    /// What the clock showed last, in milliseconds; 0 before that.
    pub(crate) moment: u64,
    pub(crate) conns: Conns,
    /// The probes that were said with what happened last, and when the last one of each port was said.
    pub(crate) probing: Probing,
    /// What is still to be given of bytes that came.
    pub(crate) rest: Option<Rest>,
}

impl Known {
    /// Nothing, with no link.
    pub(crate) fn new(alloc: Global) -> Known
        ensures { result ≡ begun }
    {
        Known {
            links: Links::none(alloc),
            moment: 0,
            conns: Conns::new(alloc),
            probing: Probing {
                last: Items::new(alloc),
                said: Items::new(alloc),
            },
            rest: None,
        }
    }

    /// What came whole on connections is heard.
    pub(crate) fn take_in(&mut self, alloc: Global) -> Result<(), NoMemory>
        ensures { OnOk result (self.new ≡ taken self.old) }
    {
        self.conns.take_in(alloc, &self.links, self.moment)
    }

    /// Bytes came on a connection: those of them that are given now.
    fn hear(&mut self, alloc: Global, conn: u32, piece: Bytes) -> Result<Bytes, NoMemory>
        ensures { IfOk result (λ first. (self.new, first) ≡ after_heard conn piece self.old) }
    {
        let given = self
            .conns
            .take_piece(alloc, &self.links, self.moment, conn, piece.as_slice())?;
        if given >= piece.len() {
            return Ok(piece);
        }
        let (first, behind) = piece.as_slice().split_at(given);
        let bytes = Bytes::from_slice(alloc, behind)?;
        self.rest = Some(Rest { conn, bytes });
        Bytes::from_slice(alloc, first)
    }

    /// What is to be told before anything else happens: what is due on a connection, or what follows a cut.
    pub(crate) fn next_told(&mut self, alloc: Global) -> Result<Option<Happening>, NoMemory>
        ensures { IfOk result (λ told. (self.new, told) ≡ next_told self.old) }
    {
        if let Some((conn, notice)) = self.conns.take_due() {
            let piece = make_piece(alloc, notice)?;
            return Ok(Some(Happening::Heard { conn, piece }));
        }
        match self.rest.take() {
            Some(rest) => {
                let conn = rest.conn;
                let piece = self.hear(alloc, conn, rest.bytes)?;
                Ok(Some(Happening::Heard { conn, piece }))
            }
            None => Ok(None),
        }
    }

    /// A connection is gone.
    pub(crate) fn end(&mut self, conn: u32)
        ensures { self.new ≡ gone conn self.old }
    {
        self.conns.end(conn);
        let is_its = match &self.rest {
            Some(rest) => rest.conn == conn,
            None => false,
        };
        if is_its {
            self.rest = None;
        }
    }

    /// A message was said on a connection.
    pub(crate) fn note(&mut self, conn: u32, message: &[u8])
        ensures { self.new ≡ noted_in conn message.now self.old }
    {
        if let Some(xid) = asked_id(message) {
            self.conns.ask(conn, xid);
        }
    }

    /// The clock shows a moment; one below the last counts as that. Probes are said, and ports get lost.
    fn show(&mut self, alloc: Global, moment: u64) -> Result<(), NoMemory>
        ensures { OnOk result (self.new ≡ shown moment self.old) }
    {
        self.moment = self.moment.max(moment);
        self.probing.probe_all(
            alloc,
            self.conns.as_slice(),
            self.moment,
            self.links.ends.as_slice(),
        )?;
        self.conns.lose(self.moment, self.links.ends.as_slice())
    }

    /// The links are these from now on.
    pub(crate) fn renew(&mut self, next: Links) -> Result<(), NoMemory>
        ensures { OnOk result (self.new ≡ renewed next self.old) }
    {
        self.conns.release(&next, self.links.ends.as_slice())?;
        self.links = next;
        Ok(())
    }

    /// A configuration came; one that isn't accepted changes nothing.
    fn reload<R: ReadsLinks>(
        &mut self,
        alloc: Global,
        reader: &R,
        text: &[u8],
    ) -> Result<(), NoMemory>
        ensures { OnOk result (self.new ≡ reloaded (R.links_of reader.now text.now) self.old) }
    {
        match reader.read(alloc, text)? {
            Some(next) => self.renew(next),
            None => Ok(()),
        }
    }

    /// Takes in what happens at the hub, and tells what is given of it.
    pub(crate) fn take<R: ReadsLinks>(
        &mut self,
        alloc: Global,
        reader: &R,
        it: Happening,
    ) -> Result<Happening, NoMemory>
        ensures { IfOk result (λ given. (self.new, given) ≡ after (R.links_of reader.now) it self.old) }
    {
        self.probing.said = Items::new(alloc);
        match it {
            Happening::Opened(conn) => {
                self.conns.open(alloc, conn)?;
                Ok(Happening::Opened(conn))
            }
            Happening::Heard { conn, piece } => {
                let piece = self.hear(alloc, conn, piece)?;
                Ok(Happening::Heard { conn, piece })
            }
            Happening::Closed { conn, cause } => {
                self.end(conn);
                Ok(Happening::Closed { conn, cause })
            }
            Happening::Moment(moment) => {
                self.show(alloc, moment)?;
                Ok(Happening::Moment(moment))
            }
            Happening::Reload(text) => {
                self.reload(alloc, reader, text.as_slice())?;
                Ok(Happening::Reload(text))
            }
        }
    }
}
