ghost use Rattle.std.specs.Prelude.{◌≡◌, [], ◌∷◌, ◌++◌, IfOk};
ghost use Rattle.pkt_view.specs.Numbers.{number};
ghost use Rattle.pkt_view.specs.Replies.{ip6_bytes, solicited, solicited_mac, nd_solicit, nd_advert};

use crate::bytes::{last_three, put_ip6};
use crate::icmp6::{Ends, frame6};
use net_base::{Bytes, Ip6, Mac, NoMemory};
use std::alloc::Global;

// The types of the messages (RFC 4861, 4.3 and 4.4).
const SOLICITATION: u8 = 135;

const ADVERTISEMENT: u8 = 136;

// The hop limit of both, which tells that no router passed them on.
const HOPS: u8 = 255;

// The group of those whose address ends as this one.
fn solicited(alloc: Global, target: Ip6) -> Result<Bytes, NoMemory>
    ensures { IfOk result (λ bytes. bytes ≡ solicited target) }
{
    let mut group = Bytes::from_slice(alloc, &[0xff, 0x02, 0, 0, 0, 0, 0, 0, 0, 0, 0, 1, 0xff])?;
    group.append(&last_three(target))?;
    Ok(group)
}

// The Ethernet address of that group.
#[tactic(auto, unfolding(crate::specs::Numbers::number))]
fn solicited_mac(target: Ip6) -> Mac
    ensures { result ≡ solicited_mac target }
{
    let last = last_three(target);
    Mac([0x33, 0x33, 0xff, last[0], last[1], last[2]])
}

fn bytes_of(alloc: Global, ip: Ip6) -> Result<Bytes, NoMemory>
    ensures { IfOk result (λ bytes. bytes ≡ ip6_bytes ip) }
{
    let mut bytes = Bytes::new(alloc);
    put_ip6(&mut bytes, ip)?;
    Ok(bytes)
}

// What a message says: four bytes, its target, and an option with an Ethernet address.
fn said(alloc: Global, flags: [u8; 4], target: Ip6, option: u8, mac: Mac) -> Result<Bytes, NoMemory>
    ensures { IfOk result (λ bytes. bytes ≡ flags ++ ip6_bytes target ++ (option ∷ 1 ∷ []) ++ mac.0) }
{
    let mut rest = Bytes::from_slice(alloc, &flags)?;
    put_ip6(&mut rest, target)?;
    rest.append(&[option, 1])?;
    rest.append(&mac.0)?;
    Ok(rest)
}

/// The frame in which the owner of `src` and `spa` asks for the Ethernet address of `target`
/// (RFC 4861, 4.3), untagged, to the group of those whose address ends as the target's.
pub fn nd_solicit(alloc: Global, src: Mac, spa: Ip6, target: Ip6) -> Result<Bytes, NoMemory>
    ensures { IfOk result (λ frame. frame ≡ nd_solicit src spa target) }
{
    let source = bytes_of(alloc, spa)?;
    let destination = solicited(alloc, target)?;
    let ends = Ends {
        source: source.as_slice(),
        destination: destination.as_slice(),
    };
    let rest = said(alloc, [0; 4], target, 1, src)?;
    frame6(
        alloc,
        solicited_mac(target),
        src,
        &ends,
        HOPS,
        SOLICITATION,
        rest.as_slice(),
    )
}

/// The frame that tells the owner of `dst` and `to` that `spa` is at `src`, where a router is
/// (RFC 4861, 4.4), untagged.
pub fn nd_advert(alloc: Global, src: Mac, spa: Ip6, dst: Mac, to: Ip6) -> Result<Bytes, NoMemory>
    ensures { IfOk result (λ frame. frame ≡ nd_advert src spa dst to) }
{
    let source = bytes_of(alloc, spa)?;
    let destination = bytes_of(alloc, to)?;
    let ends = Ends {
        source: source.as_slice(),
        destination: destination.as_slice(),
    };
    let rest = said(alloc, [0xe0, 0, 0, 0], spa, 2, src)?;
    frame6(alloc, dst, src, &ends, HOPS, ADVERTISEMENT, rest.as_slice())
}
