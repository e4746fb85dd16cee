//! A speaker over whole stories.

use crate::messages::{write_ip, write_net};
use bgp_peer::{Bgp, BgpClosing, BgpSaying, Peering};
use fg_outside::{EndCause, Happening};
use net_base::{Ip4, NoMemory};
use std::alloc::Global;
use std::fmt::Write;
use test_lines::bytes_of;

pub fn number_in(word: &str) -> u64 {
    word.parse::<u64>().unwrap_or(0)
}

fn conn_in(word: &str) -> u32 {
    u32::try_from(number_in(word)).unwrap_or(0)
}

/// What a word says: that a connection opens, ends or fails, that a moment comes, in milliseconds, or that
/// bytes come on a connection.
pub fn happening_in(alloc: Global, what: &str, rest: &str) -> Result<Happening, NoMemory> {
    let conn = conn_in(rest);
    Ok(match what {
        "open" => Happening::Opened(conn),
        "end" => Happening::Closed {
            conn,
            cause: EndCause::End,
        },
        "fault" => Happening::Closed {
            conn,
            cause: EndCause::LinkFault,
        },
        "overfull" => Happening::Closed {
            conn,
            cause: EndCause::Overfull,
        },
        "at" => Happening::Moment(number_in(rest)),
        "reload" => Happening::Reload(bytes_of(alloc, "")?),
        _ => Happening::Heard {
            conn: conn_in(what),
            piece: bytes_of(alloc, rest)?,
        },
    })
}

fn as_in(word: &str) -> u16 {
    u16::try_from(number_in(word)).unwrap_or(0)
}

/// Between whom BGP is spoken, by the words for our AS, our identifier and the peer's AS.
pub fn peering_of(our_as: &str, id: &str, peer_as: &str) -> Peering {
    Peering {
        our_as: as_in(our_as),
        id: Ip4::parse(id).unwrap_or(Ip4(0)),
        peer_as: as_in(peer_as),
    }
}

fn write_closing(out: &mut String, cause: BgpClosing) -> Result<(), NoMemory> {
    match cause {
        BgpClosing::Sent { code, sub } => write!(out, "sent {code}/{sub}"),
        BgpClosing::Heard { code, sub } => write!(out, "heard {code}/{sub}"),
        BgpClosing::Overfull => out.push_str("overfull"),
        BgpClosing::LinkFault => out.push_str("link fault"),
        BgpClosing::End => out.push_str("end"),
    }
}

fn write_saying(out: &mut String, alloc: Global, saying: &BgpSaying) -> Result<(), NoMemory> {
    match saying {
        BgpSaying::Send { conn, bytes } => {
            let digits = hex::encode(alloc, bytes.as_slice())?;
            write!(out, "{conn}: {digits}")?;
        }
        BgpSaying::Close { conn, cause } => {
            write!(out, "{conn} ")?;
            write_closing(out, *cause)?;
        }
    }
    out.push_str("; ")
}

/// Writes how many routes there are, and the first four.
fn write_routes(out: &mut String, alloc: Global, bgp: &Bgp) -> Result<(), NoMemory> {
    let routes = bgp.routes();
    write!(out, "{} routes", routes.len())?;
    for route in routes.iter().take(4) {
        out.push_str(", ")?;
        write_net(out, alloc, &route.dst)?;
        out.push_str(" by ")?;
        write_ip(out, alloc, route.gw)?;
    }
    out.push_str("; ")
}

fn take_word(out: &mut String, alloc: Global, bgp: &mut Bgp, word: &str) -> Result<(), NoMemory> {
    let (what, rest) = word.split_once(':').unwrap_or((word, ""));
    if what == "routes" {
        return write_routes(out, alloc, bgp);
    }
    let sayings = bgp.turn(&happening_in(alloc, what, rest)?)?;
    for saying in sayings.as_slice() {
        write_saying(out, alloc, saying)?;
    }
    Ok(())
}

/// Writes what a speaker says to the words of a text. The first three are our AS, our identifier and the
/// peer's AS. Of the others `open:CONN` says that a connection opens, `end:CONN`, `fault:CONN` and
/// `overfull:CONN` that one ends, `at:MOMENT` that a moment comes, `reload:` that a configuration does,
/// `CONN:BYTES` that bytes come, and `routes` asks for the routes.
pub fn write_story(out: &mut String, alloc: Global, text: &str) -> Result<(), NoMemory> {
    let mut words = text.split_whitespace();
    let our_as = words.next().unwrap_or("");
    let id = words.next().unwrap_or("");
    let peering = peering_of(our_as, id, words.next().unwrap_or(""));
    let mut bgp = Bgp::new(alloc, peering);
    for word in words {
        take_word(out, alloc, &mut bgp, word)?;
    }
    write_routes(out, alloc, &bgp)
}
