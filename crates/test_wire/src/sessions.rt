//! Sessions and the streams that they read from.

use crate::bytes_of;
use net_base::{Bytes, Mac, Moment, NoMemory};
use of13_codec::{Message, PortDesc, WireRefused, decode};
use std::alloc::{AllocError, Global};
use std::fmt::Write;
use switch_session::{Closing, Got, Session, Stream};

/// The message of the next frame; `None` where there is none, or the frame spells none.
fn next_message(alloc: Global, session: &mut Session) -> Result<Option<(Message, u32)>, NoMemory> {
    match session.next() {
        Got::Frame(frame) => match decode(alloc, frame.bytes) {
            Ok(heard) => Ok(Some(heard)),
            Err(WireRefused::Memory) => Err(AllocError),
            Err(_) => Ok(None),
        },
        Got::NotYet | Got::Bad => Ok(None),
    }
}

/// Hears the messages of a piece, and writes what each leads to.
fn hear_piece(
    out: &mut String,
    alloc: Global,
    session: &mut Session,
    piece: &[u8],
    now: Moment,
) -> Result<(), NoMemory> {
    session.feed(piece, now)?;
    for _ in 0..piece.len() {
        match next_message(alloc, session)? {
            Some((message, xid)) => write!(out, "{:?}; ", session.hear(&message, xid)?)?,
            None => break,
        }
    }
    Ok(())
}

/// Hears that the ports from 1 to so many are there.
fn hear_ports(alloc: Global, session: &mut Session, count: u32) -> Result<(), NoMemory> {
    for no in 0..count {
        let port = PortDesc {
            no: no + 1,
            hw: Mac([2, 0, 0, 0, 0, 1]),
            name: Bytes::from_slice(alloc, &[0; 16])?,
            config: 0,
            state: 0,
            rest: Bytes::from_slice(alloc, &[0; 24])?,
        };
        let _ = session.hear(&Message::PortStatus { reason: 0, port }, 0)?;
    }
    Ok(())
}

/// Writes how far a session is, and the last four of the ports that were told.
fn write_state(out: &mut String, session: &Session) -> Result<(), NoMemory> {
    let ports = session.ports();
    write!(out, "{:?}, {} ports", session.stage(), ports.len())?;
    for port in ports.iter().skip(ports.len().saturating_sub(4)) {
        write!(
            out,
            ", {} {}",
            port.no.get(),
            if port.up { "up" } else { "down" }
        )?;
    }
    write!(out, ", {} unread", session.unread_len())
}

/// Writes what a session that is opened at moment 0 says to the words of a text: `at=MOMENT` what is due
/// then, `xid` the next transaction id, `asked=XID` that a request with it was said, `ports=COUNT` that
/// so many ports are there, `heard` when it was heard last, another word that these bytes came.
pub fn write_session(out: &mut String, alloc: Global, text: &str) -> Result<(), NoMemory> {
    let mut session = Session::open(alloc, Moment(0));
    let mut now = Moment(0);
    for word in text.split_whitespace() {
        let (name, number) = word.split_once('=').unwrap_or((word, ""));
        let number = number.parse::<u32>().unwrap_or(0);
        match name {
            "asked" => session.asked(number),
            "ports" => hear_ports(alloc, &mut session, number)?,
            "xid" => write!(out, "{}; ", session.next_xid())?,
            "heard" => write!(out, "{}; ", session.heard().0)?,
            "at" => {
                now = Moment(u64::from(number));
                write!(out, "{:?}; ", session.quiet(now))?;
            }
            _ => {
                let piece = bytes_of(alloc, word)?;
                hear_piece(out, alloc, &mut session, piece.as_slice(), now)?;
            }
        }
    }
    write_state(out, &session)
}

/// Writes the lengths of the frames of a stream that comes in single bytes, up to a bad header.
pub fn write_stream(out: &mut String, alloc: Global, bytes: &[u8]) -> Result<(), NoMemory> {
    let mut stream = Stream::new(alloc);
    for (at, byte) in bytes.iter().enumerate() {
        stream.feed(&[*byte])?;
        match stream.next() {
            Got::NotYet => {}
            Got::Frame(frame) => write!(out, "{} bytes; ", frame.bytes.len())?,
            Got::Bad => write!(out, "bad at {at}; ")?,
        }
    }
    write!(out, "{} unread", stream.len())
}

/// Writes the number and the name of each closing.
pub fn write_closings(out: &mut String) -> Result<(), NoMemory> {
    for closing in [
        Closing::WrongVersion,
        Closing::BadFrame,
        Closing::UnknownDp,
        Closing::TooFewTables,
        Closing::Auxiliary,
        Closing::Replaced,
        Closing::SwitchError { kind: 5, code: 1 },
        Closing::Silent,
        Closing::Overfull,
        Closing::LinkFault,
        Closing::End,
    ] {
        write!(out, "{} {}; ", closing.number(), closing.name())?;
    }
    Ok(())
}
