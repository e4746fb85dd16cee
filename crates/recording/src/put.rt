ghost use Rattle.std.specs.Prelude.{◌≡◌, ℕ, ◌+◌, ◌^◌, ◌<◌, ◌≤◌, [], ◌∷◌, ◌++◌, length, take, Option, OnOk, OnErr, IfOk};
ghost use Rattle.std.specs.Option.{option_copied};
ghost use Rattle.recording.specs.Kinds.{number_of};
ghost use Rattle.recording.specs.Layout.{Spells};
ghost use Rattle.recording.specs.Written.{number, laid, written, error_bytes, sent, closed};

use crate::kind::RecordKind;
use crate::written::SwitchError;
use byteorder::{BigEndian, ByteOrder};
use net_base::{Bytes, NoMemory};
use std::alloc::Global;

// Adds a number in 8 bytes, the highest first.
#[tactic(auto, unfolding(crate::specs::Written::number))]
fn put_u64(out: &mut Bytes, value: u64) -> Result<(), NoMemory>
    ensures ok { OnOk result (out.new ≡ out.old ++ number 8 value) }
    ensures err { OnErr result (out.new ≡ out.old) }
{
    let mut bytes = [0u8; 8];
    BigEndian::write_u64(&mut bytes, value);
    out.append(&bytes)
}

// Adds a number in 4 bytes.
#[tactic(auto, unfolding(crate::specs::Written::number))]
fn put_u32(out: &mut Bytes, value: u32) -> Result<(), NoMemory>
    ensures ok { OnOk result (out.new ≡ out.old ++ number 4 value) }
    ensures err { OnErr result (out.new ≡ out.old) }
{
    let mut bytes = [0u8; 4];
    BigEndian::write_u32(&mut bytes, value);
    out.append(&bytes)
}

// Adds a number in 2 bytes.
#[tactic(auto, unfolding(crate::specs::Written::number))]
fn put_u16(out: &mut Bytes, value: u16) -> Result<(), NoMemory>
    ensures ok { OnOk result (out.new ≡ out.old ++ number 2 value) }
    ensures err { OnErr result (out.new ≡ out.old) }
{
    let mut bytes = [0u8; 2];
    BigEndian::write_u16(&mut bytes, value);
    out.append(&bytes)
}

// Adds the lowest 4 bytes of a length, the highest of them first.
#[tactic(auto, unfolding(crate::specs::Written::number))]
fn put_len(out: &mut Bytes, len: usize) -> Result<(), NoMemory>
    ensures ok { OnOk result (out.new ≡ out.old ++ number 4 len) }
    ensures err { OnErr result (out.new ≡ out.old) }
{
    let mut bytes = [0u8; 8];
    BigEndian::write_u64(&mut bytes, len as u64);
    out.append(&bytes[4..])
}

// Adds a record part by part. After `NoMemory` some parts may stand there.
fn put_parts(out: &mut Bytes, moment: u64, kind: u8, conn: u32, body: &[u8]) -> Result<(), NoMemory>
    ensures ok { OnOk result (out.new ≡ out.old ++ laid moment kind conn body.now) }
    ensures err { take (length out.old) out.new ≡ out.old }
{
    put_u64(out, moment)?;
    out.push(kind)?;
    put_u32(out, conn)?;
    put_len(out, body.len())?;
    out.append(body)
}

/// Adds a record with these parts, whatever the number of its kind. One with a body of 2^32 bytes or more can't be read,
/// since a record tells its length in 4 bytes. After `NoMemory` the bytes are as they were.
pub fn put_record(
    out: &mut Bytes,
    moment: u64,
    kind: u8,
    conn: u32,
    body: &[u8],
) -> Result<(), NoMemory>
    ensures ok { OnOk result (out.new ≡ out.old ++ laid moment kind conn body.now) }
    ensures err { OnErr result (out.new ≡ out.old) }
{
    let start = out.len();
    let put = put_parts(out, moment, kind, conn, body);
    if put.is_err() {
        out.truncate(start);
    }
    put
}

/// Adds the record of what happened, as it is read: `conn` is 0 where the kind has none. After `NoMemory` the
/// bytes are as they were.
pub fn put_read(
    out: &mut Bytes,
    moment: u64,
    kind: RecordKind,
    conn: u32,
    body: &[u8],
) -> Result<(), NoMemory>
    ensures ok { OnOk result (out.new ≡ out.old ++ laid moment (number_of kind) conn body.now) }
    ensures spelled { length body.now < 2 ^ 32
        → Spells (record { moment = moment; kind = kind; conn = conn; body = body.now }) (laid moment (number_of kind) conn body.now) }
    ensures err { OnErr result (out.new ≡ out.old) }
{
    put_record(out, moment, kind.number(), conn, body)
}

/// Adds the record of one message that was sent on a connection: one of 2^32 bytes or more has no record
/// that could be read, since a record tells its length in 4 bytes. After `NoMemory` the bytes are as they
/// were.
pub fn put_sent(out: &mut Bytes, moment: u64, conn: u32, message: &[u8]) -> Result<(), NoMemory>
    ensures ok { OnOk result (out.new ≡ out.old ++ written (record { moment = moment; conn = conn; told = sent message.now })) }
    ensures err { OnErr result (out.new ≡ out.old) }
{
    put_record(out, moment, 130, conn, message)
}

// The bytes of a closing: the number of the cause, and an error's type and code.
fn closing_bytes(alloc: Global, cause: u8, error: Option<SwitchError>) -> Result<Bytes, NoMemory>
    ensures { IfOk result (λ bytes. bytes ≡ (cause ∷ []) ++ error_bytes error) }
{
    let mut bytes = Bytes::new(alloc);
    bytes.push(cause)?;
    let Some(error) = error else {
        return Ok(bytes);
    };
    put_u16(&mut bytes, error.kind)?;
    put_u16(&mut bytes, error.code)?;
    Ok(bytes)
}

/// Adds the record of a connection that the controller closed, for the cause with this number, and
/// for an error of the switch with its type and code. After `NoMemory` the bytes are as they were.
pub fn put_closed(
    alloc: Global,
    out: &mut Bytes,
    moment: u64,
    conn: u32,
    cause: u8,
    error: Option<SwitchError>,
) -> Result<(), NoMemory>
    ensures ok { OnOk result (out.new ≡ out.old ++ written (record { moment = moment; conn = conn; told = closed cause error })) }
    ensures err { OnErr result (out.new ≡ out.old) }
{
    let bytes = closing_bytes(alloc, cause, error)?;
    put_record(out, moment, 131, conn, bytes.as_slice())
}
