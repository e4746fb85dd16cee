ghost use Rattle.std.specs.Prelude.{◌≡◌, ◌≢◌, ◌≤◌, ◌<◌, ◌+◌, ◌++◌, ◌^◌, ◌⊎◌, length, Option, OnOk, IfOk, IfErr};
ghost use Rattle.of_wire.specs.Reading.{Gives, many};
ghost use Rattle.of13_codec.specs.Decoding.{short, first_bitmap, element_at, hello_step, hello_at};
ghost use Rattle.of13_codec.specs.Messages.{hello_bytes};

use crate::message::Message;
use crate::sizes::short;
use net_base::{Bytes, NoMemory};
use of_wire::{
    PartCause, PartFault, PartRefused, put_number, refused, take_padding, u16_at, u32_at, up_to_8,
};

/// The type of the element that has a bitmap of versions (OpenFlow 1.3, 7.5.1).
const VERSION_BITMAP: u128 = 1;

/// Writes the body of a HELLO.
pub fn put_hello(bitmap: Option<u32>, out: &mut Bytes) -> Result<(), NoMemory>
    ensures { OnOk result (out.new ≡ out.old ++ hello_bytes bitmap) }
{
    let Some(versions) = bitmap else {
        return Ok(());
    };
    put_number(out, VERSION_BITMAP, 2)?;
    put_number(out, 8, 2)?;
    put_number(out, u128::from(versions), 4)
}

/// The bitmap so far, which is that of the first element that has one.
fn first_bitmap(bitmap: Option<u32>, kind: u16, bytes: &[u8]) -> Option<u32>
    requires { 8 ≤ length bytes.now ⊎ (kind ≡ 1 → ⊥) }
    ensures { result ≡ first_bitmap bitmap kind bytes.now }
{
    match bitmap {
        Some(bitmap) => Some(bitmap),
        None if u128::from(kind) == VERSION_BITMAP => Some(u32_at(bytes, 4)),
        None => None,
    }
}

/// Reads an element of a type and a length, with its padding.
#[tactic(auto, unfolding(crate::specs::Decoding::element_at))]
fn read_element(
    past: PartFault,
    bitmap: Option<u32>,
    kind: u16,
    len: usize,
    at: u32,
    bytes: &[u8],
) -> Result<(Option<u32>, usize), PartRefused>
    requires head { 4 ≤ length bytes.now }
    requires most { len < 2 ^ 16 }
    requires small { at + length bytes.now < 2 ^ 32 }
    ensures exact { Gives (λ x. x) result (element_at past bitmap kind len at bytes.now) }
    ensures taken { IfOk result (λ x. (4 ≤ x.1) × (x.1 ≤ length bytes.now)) }
    ensures sure { IfErr result (λ e. e ≢ PartRefused.Memory) }
{
    if len < 4 || (u128::from(kind) == VERSION_BITMAP && len < 8) {
        return Err(refused(at + 2, PartCause::BadLength));
    }
    let taken = take_padding(past, at, len, up_to_8(len), bytes)?;
    Ok((first_bitmap(bitmap, kind, bytes), taken))
}

/// Reads one element more, and says how many bytes it takes.
#[tactic(auto, unfolding(crate::specs::Decoding::hello_step))]
fn take_element(
    past: PartFault,
    bitmap: Option<u32>,
    at: u32,
    bytes: &[u8],
) -> Result<(Option<u32>, usize), PartRefused>
    requires { at + length bytes.now < 2 ^ 32 }
    ensures exact { Gives (λ x. x) result (hello_step past bitmap at bytes.now) }
    ensures taken { IfOk result (λ x. (4 ≤ x.1) × (x.1 ≤ length bytes.now)) }
    ensures sure { IfErr result (λ e. e ≢ PartRefused.Memory) }
{
    if bytes.len() < 4 {
        return Err(PartRefused::At(past));
    }
    let len = usize::from(u16_at(bytes, 2));
    read_element(past, bitmap, u16_at(bytes, 0), len, at, bytes)
}

fn read_elements(body: &[u8]) -> Result<Option<u32>, PartRefused>
    requires { length body.now < 2 ^ 16 }
    ensures exact { Gives (λ x. x) result (many (hello_step (short body.now)) (length body.now) None 8 body.now) }
    ensures sure { IfErr result (λ e. e ≢ PartRefused.Memory) }
{
    let past = short(body);
    let mut bitmap = None;
    let mut rest = body;
    let mut place = 8;
    while !rest.is_empty() {
        let (next, taken) = take_element(past, bitmap, place, rest)?;
        bitmap = next;
        let (_, after) = rest.split_at(taken);
        rest = after;
        place += taken as u32;
    }
    Ok(bitmap)
}

/// Reads the body of a HELLO of a version.
#[tactic(auto, unfolding(crate::specs::Decoding::hello_at))]
pub fn read_hello(version: u8, body: &[u8]) -> Result<Message, PartRefused>
    requires { length body.now < 2 ^ 16 }
    ensures exact { Gives (λ m. m) result (hello_at version body.now) }
    ensures sure { IfErr result (λ e. e ≢ PartRefused.Memory) }
{
    let bitmap = read_elements(body)?;
    Ok(Message::Hello { version, bitmap })
}
