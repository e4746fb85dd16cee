//! Links in memory, and what a poller gives, as words say.

ghost use Rattle.std.specs.Prelude.{◌<◌};

use fg_links::{Gave, Link, MemLink, MemNext, MemNexts, Took};
use fg_outside::CallNos;
use net_base::{Bytes, NoMemory};
use std::alloc::Global;
use test_lines::bytes_of;

/// A link in memory of which a call moves at most so many bytes.
#[derive(Drop)]
pub struct Narrow {
    link: MemLink,
    most: usize,
    ghost some: { 0 < most },
}

impl Narrow {
    /// The link itself.
    pub fn link(&self) -> &MemLink {
        &self.link
    }
}

impl Link for Narrow {
    ghost left = { λ it. ⟦<MemLink as Link>⟧.left it.link };

    ghost wrote = { λ it. ⟦<MemLink as Link>⟧.wrote it.link };

    ghost faults = { λ it. ⟦<MemLink as Link>⟧.faults it.link };

    ghost unread = { λ it. ⟦<MemLink as Link>⟧.unread it.link };

    ghost unwritten = { λ it. ⟦<MemLink as Link>⟧.unwritten it.link };

    fn read(&mut self, buf: &mut [u8]) -> Took {
        let most = buf.len().min(self.most);
        self.link.read(&mut buf[..most])
    }

    fn write(&mut self, piece: &[u8]) -> Gave {
        let most = piece.len().min(self.most);
        self.link.write(&piece[..most])
    }
}

/// The numbers of calls that a text names, as `1,4,7-9`; of any other text none.
pub fn calls_of(alloc: Global, text: &str) -> Result<CallNos, NoMemory> {
    let mut calls = CallNos::new(alloc);
    for part in text.split(',') {
        let (first, last) = part.split_once('-').unwrap_or((part, part));
        let first = first.parse::<u64>().unwrap_or(1);
        let last = last.parse::<u64>().unwrap_or(0);
        for number in first..=last {
            calls.push(number)?;
        }
    }
    Ok(calls)
}

/// A link: its input, and then in any order `room=N` (9 else), `most=N` (100,000 else), `fail=CALLS` and
/// `wait=CALLS`.
fn link_of(alloc: Global, text: &str) -> Result<Narrow, NoMemory> {
    let mut parts = text.split('/');
    let input = bytes_of(alloc, parts.next().unwrap_or(""))?;
    let mut room = 9;
    let mut most = 100_000;
    let mut fail = CallNos::new(alloc);
    let mut wait = CallNos::new(alloc);
    for part in parts {
        match part.split_once('=').unwrap_or((part, "")) {
            ("room", n) => room = n.parse::<usize>().unwrap_or(0),
            ("most", n) => most = n.parse::<usize>().unwrap_or(1),
            ("fail", text) => fail = calls_of(alloc, text)?,
            ("wait", text) => wait = calls_of(alloc, text)?,
            _ => {}
        }
    }
    let link = MemLink::new(alloc, input, room, fail, wait)?;
    let most = most.max(1);
    Ok(Narrow { link, most })
}

/// What a poller gives: `new:LINK`, `ready:N` or `moment:N` a word, of which `N*` before it gives so many.
pub fn nexts_of(alloc: Global, text: &str) -> Result<MemNexts<Narrow>, NoMemory> {
    let mut nexts = MemNexts::new(alloc);
    for word in text.split_whitespace() {
        let (times, word) = word.split_once('*').unwrap_or(("1", word));
        let (name, rest) = word.split_once(':').unwrap_or((word, ""));
        for _ in 0..times.parse::<u32>().unwrap_or(0) {
            match name {
                "new" => nexts.push(MemNext::New(link_of(alloc, rest)?))?,
                "ready" => nexts.push(MemNext::Ready(rest.parse::<u32>().unwrap_or(0)))?,
                "moment" => nexts.push(MemNext::Moment(rest.parse::<u64>().unwrap_or(0)))?,
                _ => {}
            }
        }
    }
    Ok(nexts)
}
