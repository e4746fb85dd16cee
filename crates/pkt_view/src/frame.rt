ghost use Rattle.std.specs.Prelude.{◌≡◌, ◌*◌, ◌≤◌, ◌↔◌, length, take, drop, IsTrue, IsSome, IfSome};
ghost use Rattle.std.specs.Option.{option_map};
ghost use Rattle.pkt_view.specs.Frame.{V6, shown, shown_upper, is_tag_type, tag_count, is_arp, header_len, is_ipv4, is_ipv6, upper_parts, HasFixedPart, has_type, parts};

use crate::bytes::{ip4_at, mac_at, u16_at};
use net_base::{Ip4, Mac};
use of_match::ether_type::{ARP, IPV4, IPV6, SERVICE_TAG, VLAN_TAG};

/// What lies behind a frame's EtherType.
#[derive(Clone, Copy, Debug)]
pub enum UpperView<'a> {
    /// Nothing that is known.
    None,
    /// ARP for IPv4 over Ethernet (RFC 826): the operation, and the hardware and protocol
    /// addresses of sender and target.
    Arp {
        op: u16,
        sha: Mac,
        spa: Ip4,
        tha: Mac,
        tpa: Ip4,
    },
    /// IPv4 (RFC 791, 3.1): the header with its options, and all that follows it.
    V4 {
        header: &'a [u8],
        body: &'a [u8],
    },
    /// IPv6 (RFC 8200, 3): the header of 40 bytes, and all that follows it. Headers of extensions
    /// aren't gone through.
    V6 {
        header: &'a [u8],
        body: &'a [u8],
    },
}

/// The parts of an Ethernet frame, lent from it.
#[derive(Clone, Copy, Debug)]
pub struct FrameView<'a> {
    pub dst: Mac,
    pub src: Mac,
    /// Four bytes for each VLAN tag, the outermost first.
    pub tags: &'a [u8],
    /// The first type behind the tags.
    pub eth_type: u16,
    /// All that follows the EtherType.
    pub payload: &'a [u8],
    pub upper: UpperView<'a>,
}

fn is_tag_type(eth_type: u16) -> bool
    ensures { result ≡ is_tag_type eth_type }
{
    eth_type == VLAN_TAG || eth_type == SERVICE_TAG
}

/// The length of the tags in a row at the front.
fn tags_len(bytes: &[u8]) -> usize
    ensures count { result ≡ 4 * tag_count bytes.now }
    ensures within { result ≤ length bytes.now }
{
    let mut at = 0;
    while at + 4 <= bytes.len() && is_tag_type(u16_at(bytes, at)) {
        at += 4;
    }
    at
}

fn is_arp(eth_type: u16, payload: &[u8]) -> bool
    ensures { result ≡ is_arp eth_type payload.now }
{
    eth_type == ARP
        && payload.len() >= 28
        && u16_at(payload, 0) == 1
        && u16_at(payload, 2) == IPV4
        && payload[4] == 6
        && payload[5] == 4
}

fn is_ipv4(eth_type: u16, payload: &[u8]) -> bool
    ensures { result ≡ is_ipv4 eth_type payload.now }
{
    if eth_type != IPV4 || payload.len() < 20 {
        return false;
    }
    let header_len = 4 * (payload[0] as usize % 16);
    payload[0] / 16 == 4 && header_len >= 20 && header_len <= payload.len()
}

fn is_ipv6(eth_type: u16, payload: &[u8]) -> bool
    ensures value { result ≡ is_ipv6 eth_type payload.now }
    ensures long { IsTrue result → 40 ≤ length payload.now }
{
    eth_type == IPV6 && payload.len() >= 40 && payload[0] / 16 == 6
}

// Of an IPv6 packet its header and what follows it.
fn ipv6_view(payload: &[u8]) -> UpperView<'_>
    requires { 40 ≤ length payload.now }
    ensures parts { shown_upper result ≡ V6 (take 40 payload.now) (drop 40 payload.now) }
    ensures header { HasFixedPart (shown_upper result) }
{
    UpperView::V6 {
        header: &payload[..40],
        body: &payload[40..],
    }
}

#[tactic(auto, unfolding(crate::specs::Frame::upper_parts))]
fn upper_of(eth_type: u16, payload: &[u8]) -> UpperView<'_>
    ensures parts { shown_upper result ≡ upper_parts eth_type payload.now }
    ensures header { HasFixedPart (shown_upper result) }
{
    if is_arp(eth_type, payload) {
        UpperView::Arp {
            op: u16_at(payload, 6),
            sha: mac_at(payload, 8),
            spa: ip4_at(payload, 14),
            tha: mac_at(payload, 18),
            tpa: ip4_at(payload, 24),
        }
    } else if is_ipv4(eth_type, payload) {
        let header_len = 4 * (payload[0] as usize % 16);
        UpperView::V4 {
            header: &payload[..header_len],
            body: &payload[header_len..],
        }
    } else if is_ipv6(eth_type, payload) {
        ipv6_view(payload)
    } else {
        UpperView::None
    }
}

/// The parts of a frame, lent from it; `None` exactly where it ends before its EtherType.
#[tactic(auto, unfolding(crate::specs::Frame::parts))]
pub fn view(frame: &[u8]) -> Option<FrameView<'_>>
    ensures parts { option_map shown result ≡ parts frame.now }
    ensures there { IsSome result ↔ IsTrue (has_type frame.now) }
    ensures header { IfSome result (λ v. HasFixedPart (shown_upper v.upper)) }
{
    if frame.len() < 14 {
        return None;
    }
    let at = 12 + tags_len(&frame[12..]);
    if frame.len() - at < 2 {
        return None;
    }
    let eth_type = u16_at(frame, at);
    if is_tag_type(eth_type) {
        return None;
    }
    let payload = &frame[at + 2..];
    Some(FrameView {
        dst: mac_at(frame, 0),
        src: mac_at(frame, 6),
        tags: &frame[12..at],
        eth_type,
        payload,
        upper: upper_of(eth_type, payload),
    })
}
