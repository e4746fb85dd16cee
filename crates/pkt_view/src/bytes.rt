//! Numbers and addresses that stand in bytes.

ghost use Rattle.std.specs.Prelude.{◌≡◌, ◌+◌, ◌≤◌, ◌++◌, length, OnOk};
ghost use Rattle.pkt_view.specs.Numbers.{number_at, number, mac_at, ip4_at, ip6_at};

use byteorder::{BigEndian, ByteOrder};
use net_base::{Bytes, Ip4, Ip6, Mac, NoMemory};

/// The number of two bytes that begins at a place.
#[tactic(auto, unfolding(crate::specs::Numbers::number_at))]
pub fn u16_at(bytes: &[u8], at: usize) -> u16
    requires { at + 2 ≤ length bytes.now }
    ensures { result ≡ number_at 2 at bytes.now }
{
    BigEndian::read_u16(&bytes[at..])
}

/// The IPv4 address that begins at a place.
#[tactic(auto, unfolding(crate::specs::Numbers::number_at))]
pub fn ip4_at(bytes: &[u8], at: usize) -> Ip4
    requires { at + 4 ≤ length bytes.now }
    ensures { result ≡ ip4_at at bytes.now }
{
    Ip4(BigEndian::read_u32(&bytes[at..]))
}

/// The IPv6 address that begins at a place.
#[tactic(auto, unfolding(crate::specs::Numbers::number_at))]
pub fn ip6_at(bytes: &[u8], at: usize) -> Ip6
    requires { at + 16 ≤ length bytes.now }
    ensures { result ≡ ip6_at at bytes.now }
{
    Ip6(BigEndian::read_u128(&bytes[at..]))
}

/// The Ethernet address that begins at a place.
pub fn mac_at(bytes: &[u8], at: usize) -> Mac
    requires { at + 6 ≤ length bytes.now }
    ensures { result ≡ mac_at at bytes.now }
{
    let mut mac = [0u8; 6];
    mac.copy_from_slice(&bytes[at..at + 6]);
    Mac(mac)
}

/// Adds a number of two bytes at the end.
#[tactic(auto, unfolding(crate::specs::Numbers::number))]
pub fn put_u16(out: &mut Bytes, value: u16) -> Result<(), NoMemory>
    ensures { OnOk result (out.new ≡ out.old ++ number 2 value) }
{
    let mut bytes = [0u8; 2];
    BigEndian::write_u16(&mut bytes, value);
    out.append(&bytes)
}

/// Adds a number of four bytes at the end.
#[tactic(auto, unfolding(crate::specs::Numbers::number))]
pub fn put_u32(out: &mut Bytes, value: u32) -> Result<(), NoMemory>
    ensures { OnOk result (out.new ≡ out.old ++ number 4 value) }
{
    let mut bytes = [0u8; 4];
    BigEndian::write_u32(&mut bytes, value);
    out.append(&bytes)
}

/// Adds an IPv4 address at the end.
pub fn put_ip4(out: &mut Bytes, address: Ip4) -> Result<(), NoMemory>
    ensures { OnOk result (out.new ≡ out.old ++ number 4 address.0) }
{
    put_u32(out, address.0)
}

/// Adds an IPv6 address at the end.
#[tactic(auto, unfolding(crate::specs::Numbers::number))]
pub fn put_ip6(out: &mut Bytes, address: Ip6) -> Result<(), NoMemory>
    ensures { OnOk result (out.new ≡ out.old ++ number 16 address.0) }
{
    let mut bytes = [0u8; 16];
    BigEndian::write_u128(&mut bytes, address.0);
    out.append(&bytes)
}

/// The last three bytes of an IPv6 address.
#[tactic(auto, unfolding(crate::specs::Numbers::number))]
pub fn last_three(address: Ip6) -> [u8; 3]
    ensures { result ≡ number 3 address.0 }
{
    [
        (address.0 / 0x1_0000 % 0x100) as u8,
        (address.0 / 0x100 % 0x100) as u8,
        (address.0 % 0x100) as u8,
    ]
}
