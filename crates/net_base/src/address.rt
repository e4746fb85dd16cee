ghost use Rattle.std.specs.Prelude.{◌≡◌, ◌+◌, ◌*◌, ◌^◌, ◌<◌, ◌≤◌, ◌++◌, List, ℕ, IfSome, IfNone, MatchOption, OnOk, OnErr};
ghost use Rattle.net_base.specs.Address.{SpellsMac, mac_text, ip4_text, mac_value, mac_of, is_group};
ghost use Rattle.net_base.specs.AddressReading.{Lends, IsRead, IsMac, Cuts, hex_of, digit_of, first_digit_of, pair_at, next_at, spelled_mac, number_of, number_up_to, cut_at, ip4_of};

use crate::ascii::{put_ip4, put_mac};
use crate::text::Text;
use crate::try_copy::{NoMemory, TryCopy};
use std::alloc::Global;

/// The bit of a group address, in the address as a number (IEEE 802, 8.2.2).
pub const GROUP_BIT: u128 = 0x0100_0000_0000;

/// An Ethernet address (IEEE 802, 8.1), its bytes in the order of sending.
#[derive(Clone, Copy, Debug, PartialEq, Eq, PartialOrd, Ord, Hash)]
pub struct Mac(pub [u8; 6]);

impl TryCopy for Mac {
    fn copy(&self, _alloc: Global) -> Result<Mac, NoMemory> {
        Ok(*self)
    }
}

impl Mac {
    /// The address that a text spells: six pairs of hexadecimal digits of either case, joined by
    /// colons. `None` exactly where the text spells none.
    pub fn parse(text: &str) -> Option<Mac>
        ensures found { IfSome result (λ mac. SpellsMac text.now mac.0) }
        ensures none { IfNone result ((bytes : List ℕ) → SpellsMac text.now bytes → ⊥) }
    {
        spelled_mac(text.as_bytes())
    }

    /// Adds the address at the end of a text, in lower case. After `NoMemory` the text is as it was.
    pub fn print(&self, out: &mut Text) -> Result<(), NoMemory>
        ensures ok { OnOk result (out.new ≡ out.old ++ mac_text self.now.0) }
        ensures err { OnErr result (out.new ≡ out.old) }
    {
        append_mac(out, self.0)
    }
}

impl Mac {
    /// The address as a number, its first byte the most significant one.
    pub fn value(self) -> u128
        ensures { result ≡ mac_value self }
    {
        let bytes = self.0;
        u128::from(bytes[0]) * 0x100_0000_0000
            + u128::from(bytes[1]) * 0x1_0000_0000
            + u128::from(bytes[2]) * 0x100_0000
            + u128::from(bytes[3]) * 0x1_0000
            + u128::from(bytes[4]) * 0x100
            + u128::from(bytes[5])
    }

    /// The address in the low 48 bits of a number.
    pub fn of_value(value: u128) -> Mac
        ensures { result ≡ mac_of value }
    {
        Mac([
            (value / 0x100_0000_0000 % 256) as u8,
            (value / 0x1_0000_0000 % 256) as u8,
            (value / 0x100_0000 % 256) as u8,
            (value / 0x1_0000 % 256) as u8,
            (value / 0x100 % 256) as u8,
            (value % 256) as u8,
        ])
    }

    /// Whether it is the address of a group, the broadcast address among them.
    pub fn is_group(self) -> bool
        ensures { result ≡ is_group self }
    {
        self.value() & GROUP_BIT == GROUP_BIT
    }
}

fn append_mac(out: &mut Text, mac: [u8; 6]) -> Result<(), NoMemory>
    ensures ok { OnOk result (out.new ≡ out.old ++ mac_text mac) }
    ensures err { OnErr result (out.new ≡ out.old) }
{
    let mut buffer = [0; 17];
    put_mac(&mut buffer, mac);
    out.append_utf8(&buffer)
}

/// An IPv4 address (RFC 791, 3.2), its first byte the most significant one.
#[derive(Clone, Copy, Debug, PartialEq, Eq, PartialOrd, Ord, Hash)]
pub struct Ip4(pub u32);

impl TryCopy for Ip4 {
    fn copy(&self, _alloc: Global) -> Result<Ip4, NoMemory> {
        Ok(*self)
    }
}

impl Ip4 {
    /// The address that a text spells: four decimal numbers up to 255 without leading zeros, joined
    /// by points. `None` exactly where the text spells none.
    pub fn parse(text: &str) -> Option<Ip4>
        ensures found { IfSome result (λ ip. text.now ≡ ip4_text ip.0) }
        ensures none { IfNone result ((ip : ℕ) → ip < 2 ^ 32 → text.now ≡ ip4_text ip → ⊥) }
    {
        match ip4_of(text.as_bytes()) {
            Some(ip) => Some(Ip4(ip)),
            None => None,
        }
    }

    /// Adds the address at the end of a text. After `NoMemory` the text is as it was.
    pub fn print(&self, out: &mut Text) -> Result<(), NoMemory>
        ensures ok { OnOk result (out.new ≡ out.old ++ ip4_text self.now.0) }
        ensures err { OnErr result (out.new ≡ out.old) }
    {
        append_ip4(out, self.0)
    }
}

fn append_ip4(out: &mut Text, ip: u32) -> Result<(), NoMemory>
    ensures ok { OnOk result (out.new ≡ out.old ++ ip4_text ip) }
    ensures err { OnErr result (out.new ≡ out.old) }
{
    let mut buffer = [0; 15];
    let end = put_ip4(&mut buffer, ip);
    out.append_utf8(&buffer[..end])
}

/// The value of a hexadecimal digit.
pub(crate) fn hex_digit(b: u8) -> Option<u8>
    ensures { IsRead result (hex_of b) }
{
    match b {
        b'0'..=b'9' => Some(b - b'0'),
        b'A'..=b'F' => Some(b - b'A' + 10),
        b'a'..=b'f' => Some(b - b'a' + 10),
        _ => None,
    }
}

#[tactic(auto, unfolding(crate::specs::AddressReading::pair_at))]
fn pair_at(bytes: &[u8]) -> Option<(u8, &[u8])>
    ensures { Lends result (pair_at bytes.now) }
{
    match bytes {
        [a, b, rest @ ..] => {
            let high = hex_digit(*a)?;
            let low = hex_digit(*b)?;
            Some((16 * high + low, rest))
        }
        _ => None,
    }
}

#[tactic(auto, unfolding(crate::specs::AddressReading::next_at))]
fn next_at(bytes: &[u8]) -> Option<(u8, &[u8])>
    ensures { Lends result (next_at bytes.now) }
{
    match bytes {
        [b':', rest @ ..] => pair_at(rest),
        _ => None,
    }
}

#[tactic(auto, unfolding(crate::specs::AddressReading::spelled_mac))]
fn spelled_mac(bytes: &[u8]) -> Option<Mac>
    ensures { IsMac result (spelled_mac bytes.now) }
{
    let (a, rest) = pair_at(bytes)?;
    let (b, rest) = next_at(rest)?;
    let (c, rest) = next_at(rest)?;
    let (d, rest) = next_at(rest)?;
    let (e, rest) = next_at(rest)?;
    let (f, rest) = next_at(rest)?;
    if rest.is_empty() {
        Some(Mac([a, b, c, d, e, f]))
    } else {
        None
    }
}

fn decimal_digit(b: u8) -> Option<u8>
    ensures { IsRead result (digit_of b) }
{
    match b {
        b'0'..=b'9' => Some(b - b'0'),
        _ => None,
    }
}

#[tactic(auto, unfolding(crate::specs::AddressReading::number_of))]
fn number_of(bytes: &[u8]) -> Option<u16>
    ensures { IsRead result (number_of bytes.now) }
{
    match bytes {
        [a] => Some(u16::from(decimal_digit(*a)?)),
        [a, b] => {
            let tens = leading_digit(*a)?;
            let ones = decimal_digit(*b)?;
            Some(10 * u16::from(tens) + u16::from(ones))
        }
        [a, b, c] => {
            let hundreds = leading_digit(*a)?;
            let tens = decimal_digit(*b)?;
            let ones = decimal_digit(*c)?;
            Some(100 * u16::from(hundreds) + 10 * u16::from(tens) + u16::from(ones))
        }
        _ => None,
    }
}

fn leading_digit(b: u8) -> Option<u8>
    ensures { IsRead result (first_digit_of b) }
{
    match b {
        b'1'..=b'9' => Some(b - b'0'),
        _ => None,
    }
}

#[tactic(auto, unfolding(crate::specs::AddressReading::number_up_to))]
pub(crate) fn number_up_to(most: u8, bytes: &[u8]) -> Option<u8>
    ensures { IsRead result (number_up_to most bytes.now) }
{
    let n = number_of(bytes)?;
    if n <= u16::from(most) {
        Some(n as u8)
    } else {
        None
    }
}

/// The bytes before the first mark and those behind it.
pub(crate) fn cut(mark: u8, bytes: &[u8]) -> Option<(&[u8], &[u8])>
    ensures { Cuts result (cut_at mark bytes.now) }
{
    let mut n = 0;
    while n < bytes.len() {
        if bytes[n] == mark {
            return Some((&bytes[..n], &bytes[n + 1..]));
        }
        n += 1;
    }
    None
}

#[tactic(auto, unfolding(crate::specs::AddressReading::ip4_of))]
pub(crate) fn ip4_of(bytes: &[u8]) -> Option<u32>
    ensures { IsRead result (ip4_of bytes.now) }
{
    let (a, rest) = cut(b'.', bytes)?;
    let (b, rest) = cut(b'.', rest)?;
    let (c, d) = cut(b'.', rest)?;
    let a = number_up_to(255, a)?;
    let b = number_up_to(255, b)?;
    let c = number_up_to(255, c)?;
    let d = number_up_to(255, d)?;
    Some(u32::from(a) * 0x100_0000 + u32::from(b) * 0x1_0000 + u32::from(c) * 0x100 + u32::from(d))
}
