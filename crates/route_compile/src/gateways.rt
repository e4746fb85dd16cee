ghost use Rattle.std.specs.Prelude.{◌≡◌};
ghost use Rattle.route_compile.specs.Gateways.{is_entrance, has_entrance, has_gateway};

use conf_types::{Dp, Port, Vlan};
use net_base::Vid;

/// The protocol number of ICMP (RFC 792).
pub const ICMP: u8 = 1;

/// The type of an echo request (RFC 792).
pub const ECHO_REQUEST: u8 = 8;

/// The protocol number of ICMPv6 (RFC 4443, 1).
pub const ICMP6: u8 = 58;

/// The type of ICMPv6's echo request (RFC 4443, 4.1).
pub const ECHO_REQUEST6: u8 = 128;

/// The type of a neighbour's solicitation (RFC 4861, 4.3).
pub const SOLICITATION: u8 = 135;

/// The type of a neighbour's advertisement (RFC 4861, 4.4).
pub const ADVERTISEMENT: u8 = 136;

/// Whether packets of the VLAN come in by the port.
fn is_entrance(port: &Port, vid: Vid) -> bool
    ensures { result ≡ is_entrance vid port.now }
{
    port.is_accepting() && port.is_edge_member(vid)
}

fn has_entrance(dp: &Dp, vid: Vid) -> bool
    ensures { result ≡ has_entrance dp.now vid }
{
    dp.ports
        .as_slice()
        .iter()
        .any(|port| is_entrance(port, vid))
}

/// Whether the VLAN has a VIP and packets of it come in by some port of the datapath.
pub(crate) fn has_gateway(dp: &Dp, vlan: &Vlan) -> bool
    ensures { result ≡ has_gateway dp.now vlan.now }
{
    vlan.vips.len() != 0 && has_entrance(dp, vlan.vid)
}
