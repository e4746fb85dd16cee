//! Addresses of either family, as they are written.

use conf_types::Ip;
use net_base::{Ip4, Ip6, NoMemory};
use std::alloc::Global;
use std::str::SplitWhitespace;
use test_words::{put_ip4, put_ip6};

/// One with a colon is of IPv6.
pub fn ip(words: &mut SplitWhitespace<'_>) -> Option<Ip> {
    let word = words.next()?;
    if word.contains(':') {
        Some(Ip::V6(Ip6::parse(word)?))
    } else {
        Some(Ip::V4(Ip4::parse(word)?))
    }
}

pub fn put_ip(alloc: Global, out: &mut String, ip: Ip) -> Result<(), NoMemory> {
    match ip {
        Ip::V4(ip) => put_ip4(alloc, out, ip),
        Ip::V6(ip) => put_ip6(alloc, out, ip),
    }
}

/// The address that is so much further.
pub fn further(ip: Ip, by: u32) -> Ip {
    match ip {
        Ip::V4(ip) => Ip::V4(Ip4(ip.0.saturating_add(by))),
        Ip::V6(ip) => Ip::V6(Ip6(ip.0.saturating_add(u128::from(by)))),
    }
}
