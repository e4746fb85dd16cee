ghost use Rattle.std.specs.Prelude.{◌≡◌, ◌+◌, ◌*◌, ◌<◌, ◌≤◌, ◌^◌, ◌++◌, length, take};
ghost use Rattle.net_base.specs.Address6.{groups_of, group_text, groups_text, zeros_in_front, longest_zeros, ip6_text, net6_text};

use crate::ascii::{hex_char, put, put_decimal};

// The eight groups of an address.
#[tactic(auto, unfolding(crate::specs::Address6::groups_of))]
fn groups_of(ip: u128) -> [u16; 8]
    ensures { result ≡ groups_of ip }
{
    [
        (ip / 0x1_0000_0000_0000_0000_0000_0000_0000 % 0x1_0000) as u16,
        (ip / 0x1_0000_0000_0000_0000_0000_0000 % 0x1_0000) as u16,
        (ip / 0x1_0000_0000_0000_0000_0000 % 0x1_0000) as u16,
        (ip / 0x1_0000_0000_0000_0000 % 0x1_0000) as u16,
        (ip / 0x1_0000_0000_0000 % 0x1_0000) as u16,
        (ip / 0x1_0000_0000 % 0x1_0000) as u16,
        (ip / 0x1_0000 % 0x1_0000) as u16,
        (ip % 0x1_0000) as u16,
    ]
}

// How many zeros stand in a row in front.
fn zeros_in_front(groups: &[u16]) -> usize
    ensures value { result ≡ zeros_in_front groups.now }
    ensures within { result ≤ length groups.now }
{
    match groups {
        [0, more @ ..] => zeros_in_front(more) + 1,
        _ => 0,
    }
}

// Where the longest row of zeros begins, the first of equal ones, and how many they are.
fn longest_zeros(groups: &[u16]) -> (usize, usize)
    ensures value { result ≡ longest_zeros groups.now }
    ensures within { result.0 + result.1 ≤ length groups.now }
{
    let [_, more @ ..] = groups else {
        return (0, 0);
    };
    let (start, count) = longest_zeros(more);
    let here = zeros_in_front(groups);
    if count <= here {
        (0, here)
    } else {
        (start + 1, count)
    }
}

// Puts a group at a place of a buffer, in lower case without leading zeros, and answers the place
// behind it.
fn put_group(buffer: &mut [u8], at: usize, group: u16) -> usize
    requires { at + 4 ≤ length buffer.old }
    ensures next { result ≤ at + 4 }
    ensures written { take result buffer.new ≡ take at buffer.old ++ group_text group }
{
    if group < 0x10 {
        put(buffer, at, hex_char(group as u8))
    } else if group < 0x100 {
        let at = put(buffer, at, hex_char((group / 0x10) as u8));
        put(buffer, at, hex_char((group % 0x10) as u8))
    } else if group < 0x1000 {
        let at = put(buffer, at, hex_char((group / 0x100) as u8));
        let at = put(buffer, at, hex_char((group / 0x10 % 0x10) as u8));
        put(buffer, at, hex_char((group % 0x10) as u8))
    } else {
        let at = put(buffer, at, hex_char((group / 0x1000) as u8));
        let at = put(buffer, at, hex_char((group / 0x100 % 0x10) as u8));
        let at = put(buffer, at, hex_char((group / 0x10 % 0x10) as u8));
        put(buffer, at, hex_char((group % 0x10) as u8))
    }
}

// Puts groups joined by colons at a place of a buffer, and answers the place behind them.
#[tactic(auto, using(crate::proofs::Joined::joined_more))]
fn put_groups(buffer: &mut [u8], at: usize, groups: &[u16]) -> usize
    requires { at + 5 * length groups.now ≤ length buffer.old }
    ensures next { result ≤ at + 5 * length groups.now }
    ensures written { take result buffer.new ≡ take at buffer.old ++ groups_text groups.now }
{
    match groups {
        [] => at,
        [group] => put_group(buffer, at, *group),
        [group, more @ ..] => {
            let at = put_group(buffer, at, *group);
            let at = put(buffer, at, b':');
            put_groups(buffer, at, more)
        }
    }
}

/// Puts an IPv6 address at the front of a buffer, and answers the place behind it.
pub fn put_ip6(buffer: &mut [u8], ip: u128) -> usize
    requires { 40 ≤ length buffer.old }
    ensures next { result ≤ 40 }
    ensures written { take result buffer.new ≡ ip6_text ip }
{
    let groups = groups_of(ip);
    let (start, count) = longest_zeros(&groups);
    if count < 2 {
        return put_groups(buffer, 0, &groups);
    }
    let at = put_groups(buffer, 0, &groups[..start]);
    let at = put(buffer, at, b':');
    let at = put(buffer, at, b':');
    put_groups(buffer, at, &groups[start + count..])
}

/// Puts an address and a length at the front of a buffer, and answers the place behind them.
pub fn put_net6(buffer: &mut [u8], ip: u128, len: u8) -> usize
    requires { 44 ≤ length buffer.old }
    ensures next { result ≤ 44 }
    ensures written { take result buffer.new ≡ net6_text ip len }
{
    let at = put_ip6(buffer, ip);
    let at = put(buffer, at, b'/');
    put_decimal(buffer, at, len)
}
