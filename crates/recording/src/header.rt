ghost use Rattle.std.specs.Prelude.{◌≡◌, ℕ, ◌+◌, ◌≤◌, length, Some, None, IfOk, IsErrOf};
ghost use Rattle.recording.specs.declared.refused.RecordCause.{RecordCause};
ghost use Rattle.recording.specs.Numbers.{number_at};
ghost use Rattle.recording.specs.Kinds.{kind_of};
ghost use Rattle.recording.specs.Layout.{moment_in, kind_in, conn_in, len_in};
ghost use Rattle.recording.specs.Recording.{Place};
ghost use Rattle.recording.specs.Refused.{header_refusal};

use crate::conns::Conns;
use crate::kind::RecordKind;
use crate::refused::RecordCause;
use byteorder::{BigEndian, ByteOrder};

/// How many bytes a header has.
pub const HEADER_LEN: usize = 17;

/// What stands in front of a record's bytes: the moment in milliseconds, the kind, the connection,
/// and how many bytes follow.
#[derive(Clone, Copy, Debug)]
pub struct Header {
    pub moment: u64,
    pub kind: RecordKind,
    pub conn: u32,
    pub len: u32,
}

// The number in the 8 bytes from a place on.
#[tactic(auto, unfolding(crate::specs::Numbers::number_at))]
fn u64_at(bytes: &[u8], at: usize) -> u64
    requires { at + 8 ≤ length bytes.now }
    ensures { result ≡ number_at 8 at bytes.now }
{
    BigEndian::read_u64(&bytes[at..])
}

// The number in the 4 bytes from a place on.
#[tactic(auto, unfolding(crate::specs::Numbers::number_at))]
fn u32_at(bytes: &[u8], at: usize) -> u32
    requires { at + 4 ≤ length bytes.now }
    ensures { result ≡ number_at 4 at bytes.now }
{
    BigEndian::read_u32(&bytes[at..])
}

// The number in the byte at a place.
#[tactic(auto, unfolding(crate::specs::Numbers::number_at))]
fn u8_at(bytes: &[u8], at: usize) -> u8
    requires { at + 1 ≤ length bytes.now }
    ensures { result ≡ number_at 1 at bytes.now }
{
    bytes[at]
}

/// The header in these bytes, which stand behind records with this last moment and these open
/// connections; or the first cause for which it is refused.
pub fn read_header(bytes: &[u8], last: u64, opened: &Conns) -> Result<Header, RecordCause>
    requires { 17 ≤ length bytes.now }
    ensures moment { IfOk result (λ h. h.moment ≡ moment_in bytes.now) }
    ensures kind { IfOk result (λ h. kind_of (kind_in bytes.now) ≡ Some h.kind) }
    ensures conn { IfOk result (λ h. h.conn ≡ conn_in bytes.now) }
    ensures len { IfOk result (λ h. h.len ≡ len_in bytes.now) }
    ensures accepted { (count : ℕ) → IfOk result (λ h. header_refusal (record { count = count; moment = last; opened = opened.now }) bytes.now (kind_of (kind_in bytes.now)) ≡ None) }
    ensures refused { (count : ℕ) (cause : RecordCause) → IsErrOf result cause → header_refusal (record { count = count; moment = last; opened = opened.now }) bytes.now (kind_of (kind_in bytes.now)) ≡ Some cause }
{
    let Some(kind) = RecordKind::from_number(u8_at(bytes, 8)) else {
        return Err(RecordCause::Kind);
    };
    let header = Header {
        moment: u64_at(bytes, 0),
        kind,
        conn: u32_at(bytes, 9),
        len: u32_at(bytes, 13),
    };
    if !kind.may_have(header.len) {
        return Err(RecordCause::Length);
    }
    if header.moment < last {
        return Err(RecordCause::Falls);
    }
    if !opened.may_be_named(kind, header.conn) {
        return Err(RecordCause::Conn);
    }
    Ok(header)
}
