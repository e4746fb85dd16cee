ghost use Rattle.std.specs.Prelude.{not};

use fg_outside::{EndCause, Happening, Hub, Said, Turn};
use lldp_probe::Probe;
use net_base::{Bytes, DpId, Items, NoMemory, PortNo};
use probe_hub::{LinkEnd, LinkEnds, LinkWatch, Links};
use std::alloc::Global;
use test_lines::bytes_of;

/// What happens, with bytes in hexadecimal.
#[derive(Clone, Copy)]
pub enum It {
    Opens(u32),
    Hears(u32, &'static [&'static str]),
    Ends(u32),
    Shows(u64),
    /// A configuration in which the link is watched, or isn't.
    Loads(bool),
}

/// The bytes of words in hexadecimal, one behind the other.
pub fn bytes_in(alloc: Global, words: &[&str]) -> Result<Bytes, NoMemory> {
    let mut bytes = Bytes::new(alloc);
    for word in words {
        bytes.append(bytes_of(alloc, word)?.as_slice())?;
    }
    Ok(bytes)
}

/// It as a hub gives it.
pub fn happening(alloc: Global, it: It) -> Result<Happening, NoMemory> {
    match it {
        It::Opens(conn) => Ok(Happening::Opened(conn)),
        It::Hears(conn, words) => {
            let piece = bytes_in(alloc, words)?;
            Ok(Happening::Heard { conn, piece })
        }
        It::Ends(conn) => Ok(Happening::Closed {
            conn,
            cause: EndCause::End,
        }),
        It::Shows(moment) => Ok(Happening::Moment(moment)),
        It::Loads(watched) => {
            let text = Bytes::from_slice(alloc, &[u8::from(watched)])?;
            Ok(Happening::Reload(text))
        }
    }
}

/// What a hub was told on a connection.
#[derive(Drop)]
pub struct Told {
    pub conn: u32,
    pub bytes: Bytes,
}

/// A hub that gives these in turn, and keeps what it is told on connections.
#[derive(Drop)]
pub struct Script {
    alloc: Global,
    setup: &'static [It],
    turns: &'static [It],
    pub told: Items<Told>,
    closed: bool,
}

impl Script {
    pub fn new(alloc: Global, setup: &'static [It], turns: &'static [It]) -> Script {
        Script {
            alloc,
            setup,
            turns,
            told: Items::new(alloc),
            closed: false,
        }
    }
}

impl Script {
    // What happens next: of the setup, and then of the others.
    fn next(&mut self) -> Option<It> {
        if let [it, rest @ ..] = self.setup {
            self.setup = rest;
            return Some(*it);
        }
        if let [it, rest @ ..] = self.turns {
            self.turns = rest;
            return Some(*it);
        }
        None
    }
}

impl Hub for Script {
    ghost may = { λ _ _ _. Unit {0} };

    ghost is_open = { λ it _. not it.closed };

    ghost faults = { λ _. 0 };

    fn turn(&mut self) -> Turn {
        let Some(it) = self.next() else {
            return Turn::Done;
        };
        match happening(self.alloc, it) {
            Ok(it) => Turn::Happened(it),
            Err(_) => Turn::Memory,
        }
    }

    fn say(&mut self, conn: u32, piece: &[u8]) -> Said {
        if self.closed {
            return Said::Gone;
        }
        let Ok(bytes) = Bytes::from_slice(self.alloc, piece) else {
            return Said::Memory;
        };
        match self.told.push(Told { conn, bytes }) {
            Ok(()) => Said::Taken,
            Err(_) => Said::Memory,
        }
    }

    fn close(&mut self, _conn: u32) {
        self.closed = true;
    }
}

/// Two datapaths, whose ports 1 are joined. Each has a probe said every 5 seconds where the link is watched.
pub fn links(alloc: Global, watched: bool) -> Result<Links, NoMemory> {
    let watch = if watched {
        Some(LinkWatch {
            window: 15_000,
            interval: 5,
        })
    } else {
        None
    };
    let mut ends = LinkEnds::new(alloc);
    if let Some(port) = PortNo::new(1) {
        for (dp, far) in [(1, 2), (2, 1)] {
            ends.push(LinkEnd {
                dp: DpId(dp),
                port,
                far: Probe {
                    dp: DpId(far),
                    port,
                },
                watch,
            })?;
        }
    }
    let dps = Items::from_slice(alloc, &[DpId(1), DpId(2)])?;
    Ok(Links { dps, ends })
}
