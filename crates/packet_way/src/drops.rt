ghost use Rattle.std.specs.Prelude.{◌≡◌};
ghost use Rattle.packet_way.specs.Drops.{is_of_bridges, is_dropped};

use conf_types::{Conf, Dp};
use of_match::Packet;
use of_match::ether_type::LLDP;

/// Ethernet's broadcast address.
pub const BROADCAST: u128 = 0xffff_ffff_ffff;

/// Where Cisco's bridges speak their per-VLAN spanning tree protocol.
pub const PVST_GROUP: u128 = 0x0100_0ccc_cccd;

/// Where bridges speak their spanning tree protocol (IEEE 802.1D, 7.12.3).
pub const BRIDGE_GROUP: u128 = 0x0180_c200_0000;

fn is_of_bridges(packet: &Packet) -> bool
    ensures { result ≡ is_of_bridges packet.now }
{
    let target = packet.dst.value();
    target == BRIDGE_GROUP || target == PVST_GROUP
}

/// Whether a datapath drops the packet, by its settings.
pub(crate) fn is_dropped(conf: &Conf, dp: &Dp, packet: &Packet) -> bool
    ensures { result ≡ is_dropped conf.now dp.now packet.now }
{
    (dp.drop_bpdu && is_of_bridges(packet))
        || (dp.drop_lldp && packet.eth_type == LLDP)
        || (dp.drop_broadcast && packet.src.value() == BROADCAST)
        || (dp.drop_spoofed && conf.is_gateway_address(packet.src))
}
