ghost use Rattle.std.specs.Prelude.{◌≡◌, ◌≢◌, ◌<◌, ◌≤◌, None, length, take, IfOk};
ghost use Rattle.fg_outside.specs.Counts.{counted, Rose};
ghost use Rattle.fg_outside.specs.Left.{prepended, IsAtEnd};
ghost use Rattle.fg_outside.specs.Wrote.{appended};
ghost use Rattle.fg_links.specs.Moved.{IfTook, UnlessTook, IfGave, UnlessGave};

use fg_links::{Gave, Link, Took};
use mio::net::TcpStream;
use std::io::{self, ErrorKind, Read, Write};

/// A TCP connection as a link. It tells nothing of what it holds, and counts its faults and the calls
/// that would have waited.
#[derive(Drop)]
pub struct MioLink {
    stream: TcpStream,
    faults: u64,
    unread: u64,
    unwritten: u64,
}

impl MioLink {
    /// A connection at which no call waits. No call has failed yet.
    pub(crate) fn new(stream: TcpStream) -> MioLink {
        MioLink {
            stream,
            faults: 0,
            unread: 0,
            unwritten: 0,
        }
    }
}

// Reads once, and again where a signal interrupted it.
fn read_on<S: Read>(stream: &mut S, buf: &mut [u8]) -> io::Result<usize>
    ensures count { IfOk result (λ n. n ≤ length buf.old) }
    ensures length { length buf.new ≡ length buf.old }
{
    for _ in 0..u64::MAX {
        match stream.read(buf) {
            Err(e) if e.kind() == ErrorKind::Interrupted => {}
            answer => return answer,
        }
    }
    Err(io::Error::from(ErrorKind::Interrupted))
}

// Writes once, and again where a signal interrupted it.
fn write_on<S: Write>(stream: &mut S, piece: &[u8]) -> io::Result<usize>
    ensures count { IfOk result (λ n. n ≤ length piece.now) }
{
    for _ in 0..u64::MAX {
        match stream.write(piece) {
            Err(e) if e.kind() == ErrorKind::Interrupted => {}
            answer => return answer,
        }
    }
    Err(io::Error::from(ErrorKind::Interrupted))
}

impl Link for MioLink {
    ghost left = { λ _. None };

    ghost wrote = { λ _. None };

    ghost faults = { λ link. link.faults };

    ghost unread = { λ link. link.unread };

    ghost unwritten = { λ link. link.unwritten };

    fn read(&mut self, buf: &mut [u8]) -> Took {
        match read_on(&mut self.stream, buf) {
            Ok(0) if !buf.is_empty() => Took::End,
            Ok(count) => Took::Some(count),
            Err(e) if e.kind() == ErrorKind::WouldBlock => {
                self.unread = self.unread.saturating_add(1);
                Took::NotYet
            }
            Err(_) => {
                self.faults = self.faults.saturating_add(1);
                Took::Failed
            }
        }
    }

    /// A write of which the system takes nothing of a piece that isn't empty, is a fault.
    fn write(&mut self, piece: &[u8]) -> Gave {
        match write_on(&mut self.stream, piece) {
            Ok(count) if 0 < count || piece.is_empty() => Gave::Some(count),
            Err(e) if e.kind() == ErrorKind::WouldBlock => {
                self.unwritten = self.unwritten.saturating_add(1);
                Gave::NotYet
            }
            _ => {
                self.faults = self.faults.saturating_add(1);
                Gave::Failed
            }
        }
    }
}
