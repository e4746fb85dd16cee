ghost use Rattle.std.specs.Prelude.{◌≡◌, IfOk};
ghost use Rattle.of_match.specs.declared.ether_type.TheConstants.{ARP};
ghost use Rattle.pkt_view.specs.Replies.{untagged, arp_packet, arp_request, arp_reply};

use crate::bytes::{put_ip4, put_u16};
use net_base::{Bytes, Ip4, Mac, NoMemory};
use of_match::ether_type::{ARP, IPV4};
use std::alloc::Global;

// The operations (RFC 826).
const REQUEST: u16 = 1;

const REPLY: u16 = 2;

/// The sender or the target of an ARP packet.
#[derive(Clone, Copy)]
struct End {
    hardware: Mac,
    protocol: Ip4,
}

// An untagged frame that carries an ARP packet.
fn arp_frame(alloc: Global, dst: Mac, op: u16, sender: End, target: End) -> Result<Bytes, NoMemory>
    ensures { IfOk result (λ frame. frame ≡ untagged dst sender.hardware ARP (arp_packet op sender.hardware sender.protocol target.hardware target.protocol)) }
{
    let mut frame = Bytes::from_slice(alloc, &dst.0)?;
    frame.append(&sender.hardware.0)?;
    put_u16(&mut frame, ARP)?;
    put_u16(&mut frame, 1)?;
    put_u16(&mut frame, IPV4)?;
    frame.append(&[6, 4])?;
    put_u16(&mut frame, op)?;
    frame.append(&sender.hardware.0)?;
    put_ip4(&mut frame, sender.protocol)?;
    frame.append(&target.hardware.0)?;
    put_ip4(&mut frame, target.protocol)?;
    Ok(frame)
}

/// The frame in which the owner of `src` and `spa` asks all for the hardware address of `tpa`
/// (RFC 826), untagged, without padding.
pub fn arp_request(alloc: Global, src: Mac, spa: Ip4, tpa: Ip4) -> Result<Bytes, NoMemory>
    ensures { IfOk result (λ frame. frame ≡ arp_request src spa tpa) }
{
    let sender = End {
        hardware: src,
        protocol: spa,
    };
    let target = End {
        hardware: Mac([0; 6]),
        protocol: tpa,
    };
    arp_frame(alloc, Mac([0xff; 6]), REQUEST, sender, target)
}

/// The frame that tells the owner of `dst` and `tpa` that `spa` is at `src` (RFC 826), untagged,
/// without padding.
pub fn arp_reply(alloc: Global, src: Mac, spa: Ip4, dst: Mac, tpa: Ip4) -> Result<Bytes, NoMemory>
    ensures { IfOk result (λ frame. frame ≡ arp_reply src spa dst tpa) }
{
    let sender = End {
        hardware: src,
        protocol: spa,
    };
    let target = End {
        hardware: dst,
        protocol: tpa,
    };
    arp_frame(alloc, dst, REPLY, sender, target)
}
