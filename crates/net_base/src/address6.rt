ghost use Rattle.std.specs.Prelude.{◌≡◌, ◌+◌, ◌*◌, ◌^◌, ◌<◌, ◌≤◌, ◌++◌, ℕ, IfSome, IfNone, OnOk, OnErr};
ghost use Rattle.net_base.specs.Address6.{SpellsIp6, ip6_text};
ghost use Rattle.net_base.specs.AddressReading.{IsRead, Cuts};
ghost use Rattle.net_base.specs.Address6Reading.{hex_pair, group_of, in_front, sum_in, side_sum, is_gap, gap_at, spread, eight_in, ip6_of};

use crate::address::{cut, hex_digit};
use crate::ascii6::put_ip6;
use crate::text::Text;
use crate::try_copy::{NoMemory, TryCopy};
use std::alloc::Global;

/// An IPv6 address (RFC 4291, 2), its first byte the most significant one.
#[derive(Clone, Copy, Debug, PartialEq, Eq, PartialOrd, Ord, Hash)]
pub struct Ip6(pub u128);

impl TryCopy for Ip6 {
    fn copy(&self, _alloc: Global) -> Result<Ip6, NoMemory> {
        Ok(*self)
    }
}

impl Ip6 {
    /// The address that a text spells: eight groups of one to four hexadecimal digits of either
    /// case, joined by colons, where once at most two colons may stand in place of one or more groups
    /// that are zero (RFC 4291, 2.2; no form with a dotted tail). `None` exactly where the text
    /// spells none.
    pub fn parse(text: &str) -> Option<Ip6>
        ensures found { IfSome result (λ ip. SpellsIp6 text.now ip.0) }
        ensures none { IfNone result ((ip : ℕ) → SpellsIp6 text.now ip → ⊥) }
    {
        match ip6_of(text.as_bytes()) {
            Some(ip) => Some(Ip6(ip)),
            None => None,
        }
    }

    /// Adds the address at the end of a text, in its one spelling: lower case, without leading zeros,
    /// and two colons in place of the longest row of two or more groups that are zero, the first of
    /// equal ones (RFC 5952, 4). After `NoMemory` the text is as it was.
    pub fn print(&self, out: &mut Text) -> Result<(), NoMemory>
        ensures ok { OnOk result (out.new ≡ out.old ++ ip6_text self.now.0) }
        ensures err { OnErr result (out.new ≡ out.old) }
    {
        append_ip6(out, self.0)
    }
}

fn append_ip6(out: &mut Text, ip: u128) -> Result<(), NoMemory>
    ensures ok { OnOk result (out.new ≡ out.old ++ ip6_text ip) }
    ensures err { OnErr result (out.new ≡ out.old) }
{
    let mut buffer = [0; 40];
    let end = put_ip6(&mut buffer, ip);
    out.append_utf8(&buffer[..end])
}

// The number of two hexadecimal digits.
#[tactic(auto, unfolding(crate::specs::Address6Reading::hex_pair))]
fn hex_pair(a: u8, b: u8) -> Option<u8>
    ensures { IsRead result (hex_pair a b) }
{
    let high = hex_digit(a)?;
    let low = hex_digit(b)?;
    Some(16 * high + low)
}

// The number of one to four hexadecimal digits.
#[tactic(auto, unfolding(crate::specs::Address6Reading::group_of))]
fn group_of(bytes: &[u8]) -> Option<u16>
    ensures { IsRead result (group_of bytes.now) }
{
    match bytes {
        [a] => Some(u16::from(hex_digit(*a)?)),
        [a, b] => Some(u16::from(hex_pair(*a, *b)?)),
        [a, b, c] => {
            let high = hex_digit(*a)?;
            let low = hex_pair(*b, *c)?;
            Some(256 * u16::from(high) + u16::from(low))
        }
        [a, b, c, d] => {
            let high = hex_pair(*a, *b)?;
            let low = hex_pair(*c, *d)?;
            Some(256 * u16::from(high) + u16::from(low))
        }
        _ => None,
    }
}

// A group in front of others.
#[tactic(auto, unfolding(crate::specs::Address6Reading::in_front))]
fn in_front(group: u16, others: (u128, u8)) -> (u128, u8)
    requires few { others.1 ≤ 7 }
    requires fits { others.0 < 2 ^ (16 * others.1) }
    ensures value { result ≡ in_front group others }
    ensures count { result.1 ≡ others.1 + 1 }
    ensures fits { result.0 < 2 ^ (16 * result.1) }
{
    let size = 1_u128 << (16 * others.1);
    (u128::from(group) * size + others.0, others.1 + 1)
}

// The number of groups joined by colons, `most` at most, and how many they are.
#[tactic(auto, using(crate::proofs::Sums::sum_none, crate::proofs::Sums::sum_last))]
fn groups_in(most: u8, bytes: &[u8]) -> Option<(u128, u8)>
    requires { most ≤ 8 }
    ensures read { IsRead result (sum_in most bytes.now) }
    ensures few { IfSome result (λ groups. groups.1 ≤ most) }
    ensures fits { IfSome result (λ groups. groups.0 < 2 ^ (16 * groups.1)) }
{
    if most == 0 {
        return None;
    }
    match cut(b':', bytes) {
        None => Some(in_front(group_of(bytes)?, (0, 0))),
        Some((first, rest)) => {
            let group = group_of(first)?;
            let others = groups_in(most - 1, rest)?;
            Some(in_front(group, others))
        }
    }
}

// The same of a side of the gap, where there may be none.
#[tactic(auto, using(crate::proofs::Sums::side_none, crate::proofs::Sums::side_some))]
fn side_of(bytes: &[u8]) -> Option<(u128, u8)>
    ensures read { IsRead result (side_sum bytes.now) }
    ensures few { IfSome result (λ groups. groups.1 ≤ 8) }
    ensures fits { IfSome result (λ groups. groups.0 < 2 ^ (16 * groups.1)) }
{
    match bytes {
        [] => Some((0, 0)),
        [_, ..] => groups_in(8, bytes),
    }
}

// Whether two colons begin.
fn is_gap(b: u8, more: &[u8]) -> bool
    ensures { result ≡ is_gap b more.now }
{
    match more {
        [] => false,
        [next, ..] => b == b':' && *next == b':',
    }
}

// The bytes before the first two colons in a row, and those behind them.
fn gap_at(bytes: &[u8]) -> Option<(&[u8], &[u8])>
    ensures { Cuts result (gap_at bytes.now) }
{
    let mut n = 0;
    while n < bytes.len() {
        if is_gap(bytes[n], &bytes[n + 1..]) {
            return Some((&bytes[..n], &bytes[n + 2..]));
        }
        n += 1;
    }
    None
}

// The address with these groups at its top and at its end.
#[tactic(auto, using(crate::proofs::Sums::nothing_front))]
fn spread(front: (u128, u8), back: (u128, u8)) -> Option<u128>
    requires few_front { front.1 ≤ 8 }
    requires few_back { back.1 ≤ 8 }
    requires front { front.0 < 2 ^ (16 * front.1) }
    requires back { back.0 < 2 ^ (16 * back.1) }
    ensures { IsRead result (spread front back) }
{
    if front.1 + back.1 > 7 {
        None
    } else if front.1 == 0 {
        Some(back.0)
    } else {
        let size = 1_u128 << (16 * (8 - front.1));
        Some(front.0 * size + back.0)
    }
}

// The address of eight groups.
fn eight_in(bytes: &[u8]) -> Option<u128>
    ensures { IsRead result (eight_in bytes.now) }
{
    let (value, count) = groups_in(8, bytes)?;
    if count == 8 { Some(value) } else { None }
}

#[tactic(auto, unfolding(crate::specs::Address6Reading::ip6_of))]
pub(crate) fn ip6_of(bytes: &[u8]) -> Option<u128>
    ensures { IsRead result (ip6_of bytes.now) }
{
    match gap_at(bytes) {
        None => eight_in(bytes),
        Some((before, behind)) => {
            let front = side_of(before)?;
            let back = side_of(behind)?;
            spread(front, back)
        }
    }
}
