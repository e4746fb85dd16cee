ghost use Rattle.std.specs.Prelude.{◌≡◌, ◌≤◌, ◌<◌, ◌+◌, ◌++◌, length, slice_index, OnOk, OnErr};
ghost use Rattle.bgp_messages.specs.Numbers.{number, number_in};

use byteorder::{BigEndian, ByteOrder};
use net_base::{Bytes, NoMemory};

/// The number in the byte at a place.
#[tactic(auto, unfolding(crate::specs::Numbers::number_in))]
pub fn u8_at(bytes: &[u8], at: usize) -> u8
    requires { at < length bytes.now }
    ensures { result ≡ number_in at 1 bytes.now }
{
    bytes[at]
}

/// The number in the 2 bytes from a place on.
#[tactic(auto, unfolding(crate::specs::Numbers::number_in))]
pub fn u16_at(bytes: &[u8], at: usize) -> u16
    requires { at + 2 ≤ length bytes.now }
    ensures { result ≡ number_in at 2 bytes.now }
{
    BigEndian::read_u16(&bytes[at..])
}

/// The number in the 4 bytes from a place on.
#[tactic(auto, unfolding(crate::specs::Numbers::number_in))]
pub fn u32_at(bytes: &[u8], at: usize) -> u32
    requires { at + 4 ≤ length bytes.now }
    ensures { result ≡ number_in at 4 bytes.now }
{
    BigEndian::read_u32(&bytes[at..])
}

/// The byte at a place, or 0 where there is none.
pub fn byte_or_zero(bytes: &[u8], at: usize) -> u8
    ensures { result ≡ slice_index bytes.now at }
{
    if at < bytes.len() { bytes[at] } else { 0 }
}

/// The number in the first 4 bytes, of which those that aren't there are zeros.
#[tactic(auto, unfolding(crate::specs::Numbers::number_in))]
pub fn address_of(bytes: &[u8]) -> u32
    ensures { result ≡ number_in 0 4 bytes.now }
{
    u32::from(byte_or_zero(bytes, 0)) * 0x100_0000
        + u32::from(byte_or_zero(bytes, 1)) * 0x1_0000
        + u32::from(byte_or_zero(bytes, 2)) * 0x100
        + u32::from(byte_or_zero(bytes, 3))
}

/// Adds a number in 2 bytes, the highest first. After `NoMemory` `out` is as it was.
#[tactic(auto, unfolding(crate::specs::Numbers::number))]
pub fn put_u16(out: &mut Bytes, value: u16) -> Result<(), NoMemory>
    ensures ok { OnOk result (out.new ≡ out.old ++ number 2 value) }
    ensures err { OnErr result (out.new ≡ out.old) }
{
    let mut bytes = [0u8; 2];
    BigEndian::write_u16(&mut bytes, value);
    out.append(&bytes)
}

/// Adds a number in 4 bytes, the highest first. After `NoMemory` `out` is as it was.
#[tactic(auto, unfolding(crate::specs::Numbers::number))]
pub fn put_u32(out: &mut Bytes, value: u32) -> Result<(), NoMemory>
    ensures ok { OnOk result (out.new ≡ out.old ++ number 4 value) }
    ensures err { OnErr result (out.new ≡ out.old) }
{
    let mut bytes = [0u8; 4];
    BigEndian::write_u32(&mut bytes, value);
    out.append(&bytes)
}
