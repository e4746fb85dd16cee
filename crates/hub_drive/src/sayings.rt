ghost use Rattle.std.specs.Prelude.{◌≡◌, ◌++◌, IfOk, OnOk};
ghost use Rattle.std.specs.List.{flat_map};
ghost use Rattle.hub_drive.specs.Driving.{error_of, line_by, written_by, written_on};

use ctl_life::Saying;
use net_base::{Bytes, NoMemory};
use recording::{SwitchError, put_closed, put_sent};
use std::alloc::Global;
use switch_session::Closing;

/// Where messages go.
#[derive(Clone, Copy, Debug, PartialEq, Eq)]
pub enum Outlet {
    /// To standard output, as records; so do closings, and nothing else.
    Records,
    /// To the connections of the hub; what is printed, to standard output.
    Hub,
    /// Nowhere; what is printed, to standard output.
    Nowhere,
}

/// The type and code of an error for which a connection is closed.
fn error_of(cause: Closing) -> Option<SwitchError>
    ensures { result ≡ error_of cause }
{
    match cause {
        Closing::SwitchError { kind, code } => Some(SwitchError { kind, code }),
        _ => None,
    }
}

/// Adds the record of a saying, if it has one.
fn put_record(alloc: Global, out: &mut Bytes, moment: u64, saying: &Saying) -> Result<(), NoMemory>
    ensures { OnOk result (out.new ≡ out.old ++ written_by moment saying.now) }
{
    match saying {
        Saying::Send { conn, bytes } => put_sent(out, moment, *conn, bytes.as_slice()),
        Saying::Close { conn, cause } => {
            put_closed(alloc, out, moment, *conn, cause.number(), error_of(*cause))
        }
        Saying::Line(_) => Ok(()),
    }
}

/// The records of what is said at a moment.
fn make_records(alloc: Global, moment: u64, sayings: &[Saying]) -> Result<Bytes, NoMemory>
    ensures { IfOk result (λ bytes. bytes ≡ flat_map (written_by moment) sayings.now) }
{
    let mut bytes = Bytes::new(alloc);
    for saying in sayings {
        put_record(alloc, &mut bytes, moment, saying)?;
    }
    Ok(bytes)
}

/// What goes to standard output of what is said at a moment and of what is printed: records, where messages go
/// there, and else what is printed.
pub fn make_out(
    alloc: Global,
    outlet: Outlet,
    moment: u64,
    sayings: &[Saying],
    prints: Bytes,
) -> Result<Bytes, NoMemory>
    ensures { IfOk result (λ bytes. bytes ≡ written_on outlet moment sayings.now prints) }
{
    match outlet {
        Outlet::Records => make_records(alloc, moment, sayings),
        Outlet::Hub | Outlet::Nowhere => Ok(prints),
    }
}

/// Adds the line of a saying, if it is one.
fn put_line(lines: &mut Bytes, saying: &Saying) -> Result<(), NoMemory>
    ensures { OnOk result (lines.new ≡ lines.old ++ line_by saying.now) }
{
    if let Saying::Line(text) = saying {
        lines.append(text.as_str().as_bytes())?;
        lines.push(b'\n')?;
    }
    Ok(())
}

/// The lines among what is said, each with its end.
pub fn make_lines(alloc: Global, sayings: &[Saying]) -> Result<Bytes, NoMemory>
    ensures { IfOk result (λ lines. lines ≡ flat_map line_by sayings.now) }
{
    let mut lines = Bytes::new(alloc);
    for saying in sayings {
        put_line(&mut lines, saying)?;
    }
    Ok(lines)
}
