ghost use Rattle.std.specs.Prelude.{◌≡◌, ◌≤◌, [], ◌++◌, drop, length, vec_len, OnOk, OnErr, IsTrue, ◌↔◌};

use net_base::NoMemory;
use std::alloc::Global;
use std::marker::Model;

/// Bytes that wait to be written, in order. What was taken from the front stays in memory until it
/// is more than what still waits, so that a byte is moved once on average.
#[derive(Drop)]
pub(crate) struct Queue {
    alloc: Global,
    bytes: Vec<u8>,
    start: usize,
}

impl Model for Queue {
    ghost use Rattle.std.specs.Prelude.{List, ℕ, ◌≤◌, drop, vec_len};

    ghost Value = { List ℕ };

    ghost view = { λ it. drop it.start it.bytes.items };

    ghost invariant = { λ it. it.start ≤ vec_len it.bytes };
}

impl Queue {
    /// An empty queue, which takes no memory yet.
    pub(crate) fn new(alloc: Global) -> Queue
        ensures { result ≡ [] }
    {
        Queue {
            alloc,
            bytes: Vec::new(alloc),
            start: 0,
        }
    }

    /// The bytes.
    pub(crate) fn as_slice(&self) -> &[u8]
        ensures { result.now ≡ self.now }
    {
        &self.bytes[self.start..]
    }

    /// How many bytes wait.
    pub(crate) fn len(&self) -> usize
        ensures { result ≡ length self.now }
    {
        self.bytes.len() - self.start
    }

    /// Adds a piece at the end. After `NoMemory` the queue is as it was.
    pub(crate) fn append(&mut self, piece: &[u8]) -> Result<(), NoMemory>
        ensures ok { OnOk result (self.new ≡ self.old ++ piece.now) }
        ensures err { OnErr result (self.new ≡ self.old) }
    {
        self.bytes.extend_from_slice(piece)
    }

    /// Takes so many bytes from the front.
    pub(crate) fn take_front(&mut self, count: usize)
        requires { count ≤ length self.old }
        ensures { self.new ≡ drop count self.old }
    {
        self.start += count;
        if self.len() < self.start {
            self.cut();
        }
    }

    // Lets go of the bytes that were taken, where there is memory to copy the others.
    fn cut(&mut self)
        ensures { self.new ≡ self.old }
    {
        if let Ok(rest) = Vec::from_slice(self.alloc, self.as_slice()) {
            self.bytes = rest;
            self.start = 0;
        }
    }
}
