ghost use Rattle.std.specs.Prelude.{◌≡◌, ◌==◌, ◌≤◌, ◌<◌, ◌-◌, ◌++◌, [], length, drop, vec_len, OnOk, OnErr};
ghost use Rattle.std.specs.Borrow.{sem};
ghost use Rattle.std.specs.Io.BufRead.{Rests};
ghost use Rattle.switch_session.specs.Frames.{Cuts, IsCut, OnNotYet};
ghost use Rattle.switch_session.specs.contracts.stream.Stream.{the_row};

use net_base::NoMemory;
use of13_codec::header;
use std::alloc::Global;
use std::marker::Model;

/// The bytes of a header (OpenFlow 1.3, 7.1).
const HEADER: usize = 8;

/// A whole frame: its header tells just as many bytes as it has.
#[derive(Clone, Copy, Debug)]
pub struct Frame<'a> {
    pub bytes: &'a [u8],
}

/// What stands at the front of the unread bytes.
#[derive(Clone, Copy, Debug)]
pub enum Got<'a> {
    /// Less than a frame.
    NotYet,
    /// A frame.
    Frame(Frame<'a>),
    /// A header that tells fewer bytes than it has itself.
    Bad,
}

/// The bytes that came and that no frame has taken yet. Contracts see these bytes.
#[derive(Debug, Drop)]
pub struct Stream {
    bytes: Vec<u8>,
    /// How many of the bytes were read.
    start: usize,
}

impl Model for Stream {
    ghost use Rattle.std.specs.Prelude.{ℕ, List, ◌≤◌, drop, vec_len};

    ghost Value = { List ℕ };

    ghost view = { λ s. drop s.start s.bytes.items };

    ghost invariant = { λ s. s.start ≤ vec_len s.bytes };
}

/// What stands at the front: the length of a frame that is whole.
enum Cut {
    NotYet,
    Whole(usize),
    Bad,
}

/// Looks for a frame at the front.
fn front_of(unread: &[u8]) -> Cut
    ensures { IsCut result unread.now }
{
    match header(unread) {
        None => Cut::NotYet,
        Some(head) => {
            let len = usize::from(head.length);
            if len < HEADER {
                Cut::Bad
            } else if unread.len() < len {
                Cut::NotYet
            } else {
                Cut::Whole(len)
            }
        }
    }
}

impl Stream {
    /// A stream of which nothing came yet. It takes no memory yet.
    pub fn new(alloc: Global) -> Stream
        ensures { result ≡ [] }
    {
        Stream {
            bytes: Vec::new(alloc),
            start: 0,
        }
    }

    /// How many bytes came that no frame has taken yet.
    pub fn len(&self) -> usize
        ensures { result ≡ length self.now }
    {
        self.bytes.len() - self.start
    }

    /// Whether there is no such byte.
    pub fn is_empty(&self) -> bool
        ensures { result ≡ (length self.now == 0) }
    {
        self.len() == 0
    }

    /// Lets go what was read, where that is half of the bytes or more: so a byte is moved for at
    /// most one other that was read.
    fn compact(&mut self)
        ensures { self.new ≡ self.old }
    {
        let unread = self.bytes.len() - self.start;
        if unread <= self.start {
            self.bytes.rotate_left(self.start);
            self.bytes.truncate(unread);
            self.start = 0;
        }
    }

    /// Adds the bytes of a piece at the end. After `NoMemory` the unread bytes are as they were.
    pub fn feed(&mut self, piece: &[u8]) -> Result<(), NoMemory>
        ensures ok { OnOk result (self.new ≡ self.old ++ piece.now) }
        ensures err { OnErr result (self.new ≡ self.old) }
    {
        self.compact();
        self.bytes.extend_from_slice(piece)
    }

    /// Lends the next frame, and takes it from the unread bytes. `NotYet` exactly where less than
    /// a frame came, `Bad` exactly at a header whose length is under 8 (OpenFlow 1.3, 7.1);
    /// neither takes anything.
    pub fn next(&mut self) -> Got<'_>
        ensures* rest { sem 𝓛 (Rests the_row self.entry (λ after. Cuts result self.old after)) }
        ensures short { OnNotYet result (length self.old < 65535) }
    {
        match front_of(&self.bytes[self.start..]) {
            Cut::NotYet => Got::NotYet,
            Cut::Bad => Got::Bad,
            Cut::Whole(len) => {
                let from = self.start;
                self.start += len;
                Got::Frame(Frame {
                    bytes: &self.bytes[from..self.start],
                })
            }
        }
    }
}
