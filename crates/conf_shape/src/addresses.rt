ghost use Rattle.std.specs.Prelude.{◌≡◌, ◌≤◌, IfSome};
ghost use Rattle.std.specs.Char.{is_ascii_digit};
ghost use Rattle.std.specs.Int.{is_in_range};
ghost use Rattle.std.specs.List.{list_all};
ghost use Rattle.net_base.specs.AddressReading.{IsMac, Cuts, spelled_mac, ip4_of, net4_of, cut_at};
ghost use Rattle.net_base.specs.Address6Reading.{ip6_of, net6_of};
ghost use Rattle.conf_shape.specs.Addresses.{is_group, is_zero, is_masked, is_length, station_cause, masked_cause, mac_fault, masked_fault, has_colon, width_written, ip_in, net_in, long_behind, other_cause, leaves_room, has_no_host_bits, network_cause, address_cause, prefix_cause, vip_cause, destination_cause, gateway_cause, identifier_cause};

use crate::refused::ConfCause;
use conf_types::{Ip, Net};
use net_base::{Ip4, Ip6, Mac, Net4, Net6};

pub fn parse_mac(text: &str) -> Option<Mac>
    ensures { IsMac result (spelled_mac text.now) }
{
    Mac::parse(text)
}

pub fn parse_ip4(text: &str) -> Option<u32>
    ensures { result ≡ ip4_of text.now }
{
    match Ip4::parse(text) {
        Some(ip) => Some(ip.0),
        None => None,
    }
}

/// The address and the length of an IPv4 network.
pub fn parse_net4(text: &str) -> Option<(u32, u8)>
    ensures value { result ≡ net4_of text.now }
    ensures range { IfSome result (λ net. net.1 ≤ 32) }
{
    match Net4::parse(text) {
        Some(net) => Some((net.ip.0, net.len)),
        None => None,
    }
}

pub fn parse_ip6(text: &str) -> Option<u128>
    ensures { result ≡ ip6_of text.now }
{
    match Ip6::parse(text) {
        Some(ip) => Some(ip.0),
        None => None,
    }
}

/// The address and the length of an IPv6 network.
pub fn parse_net6(text: &str) -> Option<(u128, u8)>
    ensures value { result ≡ net6_of text.now }
    ensures range { IfSome result (λ net. net.1 ≤ 128) }
{
    match Net6::parse(text) {
        Some(net) => Some((net.ip.0, net.len)),
        None => None,
    }
}

/// What stands before the first slash, and behind it.
pub fn parts_of(text: &str) -> Option<(&str, &str)>
    ensures { Cuts result (cut_at 47 text.now) }
{
    text.split_once('/')
}

fn is_group(mac: Mac) -> bool
    ensures { result ≡ is_group mac.0 }
{
    mac.0[0] % 2 == 1
}

fn is_zero(mac: Mac) -> bool
    ensures { result ≡ is_zero mac.0 }
{
    mac.0.iter().all(|byte| *byte == 0)
}

pub fn station_cause(text: &str) -> Option<ConfCause>
    ensures { result ≡ station_cause text.now }
{
    match parse_mac(text) {
        Some(mac) if is_group(mac) || is_zero(mac) => Some(ConfCause::OutOfRange),
        Some(_) => None,
        None => Some(ConfCause::BadText),
    }
}

fn is_masked(value: &[u8], mask: &[u8]) -> bool
    ensures { result ≡ is_masked value.now mask.now }
{
    match value {
        [] => true,
        [v, values @ ..] => match mask {
            [] => true,
            [m, masks @ ..] => *v & *m == *v && is_masked(values, masks),
        },
    }
}

fn mac_fault(text: &str) -> Option<ConfCause>
    ensures { result ≡ mac_fault (spelled_mac text.now) }
{
    match parse_mac(text) {
        Some(_) => None,
        None => Some(ConfCause::BadText),
    }
}

fn masked_fault(value: &str, mask: &str) -> Option<ConfCause>
    ensures { result ≡ masked_fault (spelled_mac value.now) (spelled_mac mask.now) }
{
    let Some(value) = parse_mac(value) else {
        return Some(ConfCause::BadText);
    };
    let Some(mask) = parse_mac(mask) else {
        return Some(ConfCause::BadText);
    };
    if is_masked(&value.0, &mask.0) {
        None
    } else {
        Some(ConfCause::BadText)
    }
}

pub fn masked_cause(text: &str) -> Option<ConfCause>
    ensures { result ≡ masked_cause text.now }
{
    match parts_of(text) {
        Some((value, mask)) => masked_fault(value, mask),
        None => mac_fault(text),
    }
}

fn is_first_digit(digit: u8) -> bool
    ensures { result ≡ is_in_range 49 57 digit }
{
    b'1' <= digit && digit <= b'9'
}

fn are_digits(digits: &[u8]) -> bool
    ensures { result ≡ list_all is_ascii_digit digits.now }
{
    digits.iter().all(|digit| digit.is_ascii_digit())
}

fn is_length(digits: &[u8]) -> bool
    ensures { result ≡ is_length digits.now }
{
    match digits {
        [first, rest @ ..] => is_first_digit(*first) && are_digits(rest),
        [] => false,
    }
}

fn has_colon(text: &str) -> bool
    ensures { result ≡ has_colon text.now }
{
    text.as_bytes().iter().any(|byte| *byte == b':')
}

/// How many bits an address has in the family that the text is read as: with a colon it is IPv6.
pub fn width_written(text: &str) -> usize
    ensures { result ≡ width_written text.now }
{
    if has_colon(text) { 128 } else { 32 }
}

/// The address that a text spells in the family of so many bits.
pub fn ip_in(width: usize, text: &str) -> Option<Ip>
    ensures { result ≡ ip_in width text.now }
{
    if width == 128 {
        match parse_ip6(text) {
            Some(ip) => Some(Ip::V6(Ip6(ip))),
            None => None,
        }
    } else {
        match parse_ip4(text) {
            Some(ip) => Some(Ip::V4(Ip4(ip))),
            None => None,
        }
    }
}

/// The network that a text spells in the family of so many bits.
pub fn net_in(width: usize, text: &str) -> Option<Net>
    ensures { result ≡ net_in width text.now }
{
    if width == 128 {
        match parse_net6(text) {
            Some((ip, len)) => Some(Net::V6(Net6 { ip: Ip6(ip), len })),
            None => None,
        }
    } else {
        match parse_net4(text) {
            Some((ip, len)) => Some(Net::V4(Net4 { ip: Ip4(ip), len })),
            None => None,
        }
    }
}

fn long_behind(ip: Option<Ip>, len: &str) -> ConfCause
    ensures { result ≡ long_behind ip len.now }
{
    if ip.is_some() && is_length(len.as_bytes()) {
        ConfCause::OutOfRange
    } else {
        ConfCause::BadText
    }
}

/// What is wrong with a text that spells no network: a length that is too long, or the text.
fn other_cause(width: usize, text: &str) -> ConfCause
    ensures { result ≡ other_cause width text.now }
{
    match parts_of(text) {
        Some((ip, len)) => long_behind(ip_in(width, ip), len),
        None => ConfCause::BadText,
    }
}

fn leaves_room(net: &Net) -> bool
    ensures { result ≡ leaves_room net.now }
{
    1 <= net.len() && net.len() <= net.address().family().most_vip_len
}

fn has_no_host_bits(net: &Net) -> bool
    ensures { result ≡ has_no_host_bits net.now }
{
    net.is_network()
}

fn network_cause(width: usize, text: &str) -> Option<ConfCause>
    ensures { result ≡ network_cause width text.now }
{
    match net_in(width, text) {
        Some(net) => {
            if has_no_host_bits(&net) {
                None
            } else {
                Some(ConfCause::BadText)
            }
        }
        None => Some(other_cause(width, text)),
    }
}

pub fn address_cause(width: usize, text: &str) -> Option<ConfCause>
    ensures { result ≡ address_cause width text.now }
{
    match ip_in(width, text) {
        Some(_) => None,
        None => Some(ConfCause::BadText),
    }
}

pub fn prefix_cause(width: usize, text: &str) -> Option<ConfCause>
    ensures { result ≡ prefix_cause width text.now }
{
    match ip_in(width, text) {
        Some(_) => None,
        None => network_cause(width, text),
    }
}

pub fn vip_cause(text: &str) -> Option<ConfCause>
    ensures { result ≡ vip_cause text.now }
{
    let width = width_written(text);
    match net_in(width, text) {
        Some(net) => {
            if leaves_room(&net) {
                None
            } else {
                Some(ConfCause::OutOfRange)
            }
        }
        None => Some(other_cause(width, text)),
    }
}

pub fn destination_cause(text: &str) -> Option<ConfCause>
    ensures { result ≡ destination_cause text.now }
{
    network_cause(width_written(text), text)
}

pub fn gateway_cause(text: &str) -> Option<ConfCause>
    ensures { result ≡ gateway_cause text.now }
{
    address_cause(width_written(text), text)
}

pub fn identifier_cause(text: &str) -> Option<ConfCause>
    ensures { result ≡ identifier_cause text.now }
{
    match parse_ip4(text) {
        Some(ip) if ip == 0 => Some(ConfCause::OutOfRange),
        Some(_) => None,
        None => Some(ConfCause::BadText),
    }
}
