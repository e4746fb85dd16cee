ghost use Rattle.std.specs.Prelude.{◌≡◌, ◌++◌, IfOk, OnOk};
ghost use Rattle.std.specs.List.{flat_map};
ghost use Rattle.bgp_drive.specs.Speech.{record_by, record_of_end, record_of_text, records_at};

use bgp_peer::{BgpClosing, BgpSaying};
use net_base::{Bytes, NoMemory};
use recording::{RecordKind, put_read, put_record, put_sent};
use std::alloc::Global;

/// Adds the record of a connection that a NOTIFICATION ended.
fn put_end(out: &mut Bytes, moment: u64, conn: u32, cause: BgpClosing) -> Result<(), NoMemory>
    ensures { OnOk result (out.new ≡ out.old ++ record_of_end moment conn cause) }
{
    match cause {
        BgpClosing::Sent { code, sub } => put_record(out, moment, 131, conn, &[12, code, sub]),
        BgpClosing::Heard { code, sub } => put_record(out, moment, 131, conn, &[13, code, sub]),
        BgpClosing::Overfull | BgpClosing::LinkFault | BgpClosing::End => Ok(()),
    }
}

fn put_saying(out: &mut Bytes, moment: u64, saying: &BgpSaying) -> Result<(), NoMemory>
    ensures { OnOk result (out.new ≡ out.old ++ record_by moment saying.now) }
{
    match saying {
        BgpSaying::Send { conn, bytes } => put_sent(out, moment, *conn, bytes.as_slice()),
        BgpSaying::Close { conn, cause } => put_end(out, moment, *conn, *cause),
    }
}

/// The records of what is said at a moment.
fn records_of(alloc: Global, moment: u64, says: &[BgpSaying]) -> Result<Bytes, NoMemory>
    ensures { IfOk result (λ bytes. bytes ≡ flat_map (record_by moment) says.now) }
{
    let mut bytes = Bytes::new(alloc);
    for saying in says {
        put_saying(&mut bytes, moment, saying)?;
    }
    Ok(bytes)
}

fn put_text(out: &mut Bytes, moment: u64, text: &Option<Bytes>) -> Result<(), NoMemory>
    ensures { OnOk result (out.new ≡ out.old ++ record_of_text moment text.now) }
{
    match text {
        Some(text) => put_read(out, moment, RecordKind::Reload, 0, text.as_slice()),
        None => Ok(()),
    }
}

/// The records of what is said at a moment, and behind them that of a text.
pub(crate) fn records_at(
    alloc: Global,
    moment: u64,
    says: &[BgpSaying],
    text: &Option<Bytes>,
) -> Result<Bytes, NoMemory>
    ensures { IfOk result (λ bytes. bytes ≡ records_at moment says.now text.now) }
{
    let mut bytes = records_of(alloc, moment, says)?;
    put_text(&mut bytes, moment, text)?;
    Ok(bytes)
}
