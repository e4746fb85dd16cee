//! What a VLAN's gateway answers.

ghost use Rattle.std.specs.Prelude.{◌≡◌, length, IfOk};
ghost use Rattle.conf_types.specs.Networks.{is_vip};
ghost use Rattle.conf_types.specs.Routing.{vips_of};
ghost use Rattle.pkt_view.specs.Frame.{shown};
ghost use Rattle.neighbour_resolve.specs.Answers.{answer, answer_in, arp_answer, echo_answer, is_routed_vip, nd_answer, v6_answer};

use crate::counted::counted_vid;
use crate::discovery::{NdMessage, SOLICITATION, nd_message};
use conf_types::{Conf, Ip, Vlan};
use net_base::{Bytes, DpId, Ip4, Mac, NoMemory, PortNo, Vid};
use pkt_view::{FrameView, UpperView, arp_reply, echo_reply, ip4_at, ip6_at, nd_advert};
use std::alloc::Global;

/// The answer to a frame. It is an untagged frame, which leaves by the port that the other came in
/// by, with a tag of the VLAN where the port is a tagged member (`send_back`).
#[derive(Debug, Drop)]
pub enum Reply {
    /// An ARP reply (RFC 826).
    ArpReply(Bytes),
    /// An echo reply of ICMP (RFC 792) or ICMPv6 (RFC 4443, 4.2).
    EchoReply(Bytes),
    /// A neighbour's advertisement (RFC 4861, 4.4).
    Advert(Bytes),
    Nothing,
}

/// The operation of an ARP request (RFC 826).
const REQUEST: u16 = 1;

fn is_vip_of(conf: &Conf, vid: Vid, ip: Ip) -> bool
    ensures { result ≡ is_vip (vips_of conf.now vid) ip }
{
    match conf.vlan(vid) {
        Some(vlan) => vlan.is_vip(ip),
        None => false,
    }
}

/// Whether an address is a VIP of a VLAN that packets of this one are routed to.
fn is_routed_vip(alloc: Global, conf: &Conf, vid: Vid, ip: Ip) -> Result<bool, NoMemory>
    ensures { IfOk result (λ is. is ≡ is_routed_vip conf.now vid ip) }
{
    let vids = conf.routing_set(alloc, vid)?;
    Ok(vids.as_slice().iter().any(|vid| is_vip_of(conf, *vid, ip)))
}

fn arp_answer(
    alloc: Global,
    vlan: &Vlan,
    to: Mac,
    op: u16,
    spa: Ip4,
    tpa: Ip4,
) -> Result<Reply, NoMemory>
    ensures { IfOk result (λ reply. reply ≡ arp_answer vlan.now to op spa tpa) }
{
    if op != REQUEST || !vlan.is_vip(Ip::V4(tpa)) {
        return Ok(Reply::Nothing);
    }
    let reply = arp_reply(alloc, vlan.mac, tpa, to, spa)?;
    Ok(Reply::ArpReply(reply))
}

/// The answer to a message of neighbour discovery in a frame from an Ethernet address.
fn nd_answer(alloc: Global, vlan: &Vlan, to: Mac, message: NdMessage) -> Result<Reply, NoMemory>
    ensures { IfOk result (λ reply. reply ≡ nd_answer vlan.now to message) }
{
    if message.kind != SOLICITATION
        || !vlan.is_vip(Ip::V6(message.target))
        || message.source.0 == 0
    {
        return Ok(Reply::Nothing);
    }
    let advert = nd_advert(alloc, vlan.mac, message.target, to, message.source)?;
    Ok(Reply::Advert(advert))
}

/// The answer to a frame that carries a packet for an address.
fn echo_answer(
    alloc: Global,
    conf: &Conf,
    vlan: &Vlan,
    frame: &FrameView<'_>,
    to: Ip,
) -> Result<Reply, NoMemory>
    ensures { IfOk result (λ reply. reply ≡ echo_answer conf.now vlan.now (shown frame.now) to) }
{
    if !is_routed_vip(alloc, conf, vlan.vid, to)? {
        return Ok(Reply::Nothing);
    }
    match echo_reply(alloc, vlan.mac, frame)? {
        Some(reply) => Ok(Reply::EchoReply(reply)),
        None => Ok(Reply::Nothing),
    }
}

/// The answer to a frame that carries an IPv6 packet with this header.
fn v6_answer(
    alloc: Global,
    conf: &Conf,
    vlan: &Vlan,
    frame: &FrameView<'_>,
    header: &[u8],
    body: &[u8],
) -> Result<Reply, NoMemory>
    requires { length header.now ≡ 40 }
    ensures { IfOk result (λ reply. reply ≡ v6_answer conf.now vlan.now (shown frame.now) header.now body.now) }
{
    match nd_message(frame.src, header, body) {
        Some(message) => nd_answer(alloc, vlan, frame.src, message),
        None => echo_answer(alloc, conf, vlan, frame, Ip::V6(ip6_at(header, 24))),
    }
}

fn answer_in(
    alloc: Global,
    conf: &Conf,
    vlan: &Vlan,
    frame: &FrameView<'_>,
) -> Result<Reply, NoMemory>
    ensures { IfOk result (λ reply. reply ≡ answer_in conf.now (shown frame.now) vlan.now) }
{
    if frame.src.is_group() {
        return Ok(Reply::Nothing);
    }
    match frame.upper {
        UpperView::Arp { op, spa, tpa, .. } => arp_answer(alloc, vlan, frame.src, op, spa, tpa),
        UpperView::V4 { header, .. } => {
            if header.len() < 20 {
                Ok(Reply::Nothing)
            } else {
                echo_answer(alloc, conf, vlan, frame, Ip::V4(ip4_at(header, 16)))
            }
        }
        UpperView::V6 { header, body } => {
            if header.len() != 40 {
                Ok(Reply::Nothing)
            } else {
                v6_answer(alloc, conf, vlan, frame, header, body)
            }
        }
        UpperView::None => Ok(Reply::Nothing),
    }
}

/// The answer to a frame that a datapath had by a port and handed on: to an ARP request or a neighbour's
/// solicitation for a VIP of the frame's VLAN, or to an echo request of ICMP or ICMPv6 to a VIP of a VLAN
/// that the frame's is routed to, each from the VLAN's gateway address to the frame's source.
///
/// `Nothing` exactly where no answer is due: the frame doesn't count (`counted_vid`), or its source is
/// a group address; it is no ARP packet with operation 1 whose target is a VIP of its VLAN; it is no
/// solicitation that counts (`heard_sender` says which do) with such a target, or it is from the address
/// `::`; and it is no echo request to a VIP that the VLAN is routed to, or one to which
/// `pkt_view::echo_reply` gives no answer.
pub fn answer(
    alloc: Global,
    conf: &Conf,
    dp: DpId,
    port: PortNo,
    frame: &FrameView<'_>,
) -> Result<Reply, NoMemory>
    ensures { IfOk result (λ reply. reply ≡ answer conf.now dp port (shown frame.now)) }
{
    match counted_vid(conf, dp, port, frame) {
        Some(vid) => match conf.vlan(vid) {
            Some(vlan) => answer_in(alloc, conf, vlan, frame),
            None => Ok(Reply::Nothing),
        },
        None => Ok(Reply::Nothing),
    }
}
