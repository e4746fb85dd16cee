//! Whom a frame lets hear.

ghost use Rattle.std.specs.Prelude.{◌≡◌};
ghost use Rattle.std.specs.Option.{option_and_then};
ghost use Rattle.conf_types.specs.Networks.{is_neighbour_address};
ghost use Rattle.conf_types.specs.Routing.{vips_of};
ghost use Rattle.pkt_view.specs.Frame.{shown};
ghost use Rattle.neighbour_resolve.specs.Discovery.{nd_message};
ghost use Rattle.neighbour_resolve.specs.Hearing.{arp_sender, heard_sender, nd_sender, sender_at};

use crate::discovery::{is_same, nd_message};
use conf_types::{Conf, Ip};
use net_base::{Ip4, Mac, Vid};
use pkt_view::{FrameView, UpperView};

/// A neighbour that is heard: its address and its Ethernet address.
#[derive(Clone, Copy, Debug, PartialEq, Eq)]
pub struct Sender {
    pub ip: Ip,
    pub mac: Mac,
}

/// Whether an address is a neighbour's of a VLAN: it lies in a network of the VLAN's VIPs, and is
/// none of them.
pub(crate) fn is_neighbour_address(conf: &Conf, vid: Vid, ip: Ip) -> bool
    ensures { result ≡ is_neighbour_address (vips_of conf.now vid) ip }
{
    match conf.vlan(vid) {
        Some(vlan) => vlan.is_neighbour_address(ip),
        None => false,
    }
}

/// An address at the Ethernet address that a frame is from, where it is a neighbour's of the VLAN and
/// that is one station's.
fn sender_at(conf: &Conf, vid: Vid, from: Mac, who: Ip) -> Option<Sender>
    ensures { result ≡ sender_at conf.now vid from who }
{
    if is_neighbour_address(conf, vid, who) && !from.is_group() {
        Some(Sender { ip: who, mac: from })
    } else {
        None
    }
}

fn arp_sender(conf: &Conf, vid: Vid, from: Mac, sha: Mac, spa: Ip4) -> Option<Sender>
    ensures { result ≡ arp_sender conf.now vid from sha spa }
{
    if is_same(sha, from) {
        sender_at(conf, vid, from, Ip::V4(spa))
    } else {
        None
    }
}

fn nd_sender(conf: &Conf, vid: Vid, from: Mac, header: &[u8], body: &[u8]) -> Option<Sender>
    ensures { result ≡ option_and_then (nd_sender conf.now vid from) (nd_message from header.now body.now) }
{
    let message = nd_message(from, header, body)?;
    if message.is_own {
        sender_at(conf, vid, from, message.who())
    } else {
        None
    }
}

/// The neighbour that a frame of a VLAN lets hear: the sender of an ARP packet (RFC 826), be it a
/// request or a reply; the source of a neighbour's solicitation, or the target of its advertisement
/// (RFC 4861).
///
/// `None` exactly where the frame carries no ARP packet for IPv4 over Ethernet and no such message that
/// counts (of code 0 with hop limit 255 and a right checksum, whole with at least 24 bytes, and with options
/// of which each has a length that isn't 0 and lies inside), the address isn't a neighbour's of the VLAN, the
/// frame's source is a group address, or not the Ethernet address that the packet tells: as its sender's, or
/// in an option of type 1 of a solicitation or of type 2 of an advertisement, which needn't be there.
pub fn heard_sender(conf: &Conf, vid: Vid, frame: &FrameView<'_>) -> Option<Sender>
    ensures { result ≡ heard_sender conf.now vid (shown frame.now) }
{
    match frame.upper {
        UpperView::Arp { sha, spa, .. } => arp_sender(conf, vid, frame.src, sha, spa),
        UpperView::V6 { header, body } => nd_sender(conf, vid, frame.src, header, body),
        UpperView::V4 { .. } | UpperView::None => None,
    }
}
