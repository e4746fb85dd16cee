ghost use Rattle.std.specs.Prelude.{◌≡◌, ◌≤◌, ◌<◌, ◌+◌, ◌++◌, ◌^◌, length, OnOk, OnErr, IsOk};
ghost use Rattle.of_wire.specs.Parts.{number, zeros};
ghost use Rattle.of_wire.specs.Numbers.{number_in};

use byteorder::{BigEndian, ByteOrder};
use net_base::{Bytes, NoMemory};

/// Writes the lowest `len` bytes of a number, the highest of them first (OpenFlow 1.3, 7). After
/// `NoMemory` `out` is as it was.
#[tactic(auto, unfolding(crate::specs::Parts::number))]
pub fn put_number(out: &mut Bytes, value: u128, len: usize) -> Result<(), NoMemory>
    requires { len ≤ 16 }
    ensures ok { OnOk result (out.new ≡ out.old ++ number len value) }
    ensures err { OnErr result (out.new ≡ out.old) }
{
    let mut bytes = [0u8; 16];
    BigEndian::write_u128(&mut bytes, value);
    out.append(&bytes[16 - len..])?;
    Ok(())
}

/// Writes zeros. After `NoMemory` `out` is as it was.
#[tactic(auto, using(crate::proofs::Numbers::replicate_more, std::proofs::lemmas::Grind::common_steps))]
pub fn put_zeros(out: &mut Bytes, count: usize) -> Result<(), NoMemory>
    ensures ok { OnOk result (out.new ≡ out.old ++ zeros count) }
    ensures err { OnErr result (out.new ≡ out.old) }
    ensures sure { count ≡ 0 → IsOk result }
{
    let start = out.len();
    for _ in 0..count {
        if let Err(no_memory) = out.push(0) {
            out.truncate(start);
            return Err(no_memory);
        }
    }
    Ok(())
}

/// The number in `len` bytes from a place on, the highest of them first.
#[tactic(auto, unfolding(crate::specs::Numbers::number_in))]
pub fn number_at(bytes: &[u8], at: usize, len: usize) -> u128
    requires least { 1 ≤ len }
    requires most { len ≤ 16 }
    requires room { at + len ≤ length bytes.now }
    ensures value { result ≡ number_in at len bytes.now }
{
    BigEndian::read_uint128(&bytes[at..], len)
}

/// The number in the byte at a place.
#[tactic(auto, unfolding(crate::specs::Numbers::number_in))]
pub fn u8_at(bytes: &[u8], at: usize) -> u8
    requires { at < length bytes.now }
    ensures { result ≡ number_in at 1 bytes.now }
{
    bytes[at]
}

/// The number in the 2 bytes from a place on.
#[tactic(auto, unfolding(crate::specs::Numbers::number_in))]
pub fn u16_at(bytes: &[u8], at: usize) -> u16
    requires { at + 2 ≤ length bytes.now }
    ensures { result ≡ number_in at 2 bytes.now }
{
    BigEndian::read_u16(&bytes[at..])
}

/// The number in the 4 bytes from a place on.
#[tactic(auto, unfolding(crate::specs::Numbers::number_in))]
pub fn u32_at(bytes: &[u8], at: usize) -> u32
    requires { at + 4 ≤ length bytes.now }
    ensures { result ≡ number_in at 4 bytes.now }
{
    BigEndian::read_u32(&bytes[at..])
}

/// The number in the 8 bytes from a place on.
#[tactic(auto, unfolding(crate::specs::Numbers::number_in))]
pub fn u64_at(bytes: &[u8], at: usize) -> u64
    requires { at + 8 ≤ length bytes.now }
    ensures { result ≡ number_in at 8 bytes.now }
{
    BigEndian::read_u64(&bytes[at..])
}
