ghost use Rattle.std.specs.Prelude.{◌≡◌, ◌++◌, IfOk, OnOk};
ghost use Rattle.std.specs.List.{flat_map};
ghost use Rattle.bgp_drive.specs.Speech.{closes, closing_text, codes_text, end_line, sayings_by};

use bgp_peer::{BgpClosing, BgpSaying};
use ctl_life::{Saying, Sayings};
use itoa::Buffer;
use net_base::{NoMemory, Text, TryCopy};
use std::alloc::Global;
use switch_session::Closing;

fn put_codes(text: &mut Text, code: u8, sub: u8) -> Result<(), NoMemory>
    ensures { OnOk result (text.new ≡ text.old ++ codes_text code sub) }
{
    text.append(Buffer::new().format(code))?;
    text.append(" ")?;
    text.append(Buffer::new().format(sub))
}

/// Adds the closing's name, and of a NOTIFICATION its error code and subcode.
fn put_closing(text: &mut Text, cause: BgpClosing) -> Result<(), NoMemory>
    ensures { OnOk result (text.new ≡ text.old ++ closing_text cause) }
{
    match cause {
        BgpClosing::Sent { code, sub } => {
            text.append("BgpSent ")?;
            put_codes(text, code, sub)
        }
        BgpClosing::Heard { code, sub } => {
            text.append("BgpHeard ")?;
            put_codes(text, code, sub)
        }
        BgpClosing::Overfull => text.append("Overfull"),
        BgpClosing::LinkFault => text.append("LinkFault"),
        BgpClosing::End => text.append("End"),
    }
}

fn make_line(alloc: Global, conn: u32, cause: BgpClosing) -> Result<Saying, NoMemory>
    ensures { IfOk result (λ made. made ≡ end_line conn cause) }
{
    let mut text = Text::from_str(alloc, "conn ")?;
    text.append(Buffer::new().format(conn))?;
    text.append(": ")?;
    put_closing(&mut text, cause)?;
    Ok(Saying::Line(text))
}

/// Adds that a connection is closed that a NOTIFICATION ends.
fn put_close(sayings: &mut Sayings, conn: u32, cause: BgpClosing) -> Result<(), NoMemory>
    ensures { OnOk result (sayings.new ≡ sayings.old ++ closes conn cause) }
{
    match cause {
        BgpClosing::Sent { .. } | BgpClosing::Heard { .. } => sayings.push(Saying::Close {
            conn,
            cause: Closing::End,
        }),
        BgpClosing::Overfull | BgpClosing::LinkFault | BgpClosing::End => Ok(()),
    }
}

fn put_saying(alloc: Global, sayings: &mut Sayings, saying: &BgpSaying) -> Result<(), NoMemory>
    ensures { OnOk result (sayings.new ≡ sayings.old ++ sayings_by saying.now) }
{
    match saying {
        BgpSaying::Send { conn, bytes } => sayings.push(Saying::Send {
            conn: *conn,
            bytes: bytes.copy(alloc)?,
        }),
        BgpSaying::Close { conn, cause } => {
            put_close(sayings, *conn, *cause)?;
            sayings.push(make_line(alloc, *conn, *cause)?)
        }
    }
}

/// What the hub is told of what a speaker says, and the lines, in order.
pub(crate) fn sayings_of(alloc: Global, says: &[BgpSaying]) -> Result<Sayings, NoMemory>
    ensures { IfOk result (λ sayings. sayings ≡ flat_map sayings_by says.now) }
{
    let mut sayings = Sayings::new(alloc);
    for saying in says {
        put_saying(alloc, &mut sayings, saying)?;
    }
    Ok(sayings)
}
