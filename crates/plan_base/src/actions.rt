ghost use Rattle.std.specs.Prelude.{◌≡◌};
ghost use Rattle.plan_base.specs.Actions.{out, to_controller, to_ingress, push_tag, pop_tag, set_vid, set_eth_src, set_eth_dst, dec_ttl};

use crate::fields::{eth_dst, eth_src, vid_field};
use net_base::{Mac, PortNo, Vid};
use of_match::ether_type::VLAN_TAG;
use of_match::{Action, CONTROLLER, IN_PORT};

/// The packet whole, and not only its front (OpenFlow 1.3, 7.2.5, OFPCML_NO_BUFFER).
pub const WHOLE_PACKET: u16 = 0xffff;

/// Sends the packet by a port.
pub fn out(port: PortNo) -> Action
    ensures { result ≡ out port }
{
    Action::Output {
        port: port.get(),
        max_len: 0,
    }
}

/// Sends the packet whole to the controller (OpenFlow 1.3, 7.2.1, OFPP_CONTROLLER).
pub fn to_controller() -> Action
    ensures { result ≡ to_controller }
{
    Action::Output {
        port: CONTROLLER,
        max_len: WHOLE_PACKET,
    }
}

/// Sends the packet back by the port that it came in by (OpenFlow 1.3, 7.2.1, OFPP_IN_PORT).
pub fn to_ingress() -> Action
    ensures { result ≡ to_ingress }
{
    Action::Output {
        port: IN_PORT,
        max_len: 0,
    }
}

/// Adds an outermost tag.
pub fn push_tag() -> Action
    ensures { result ≡ push_tag }
{
    Action::PushVlan(VLAN_TAG)
}

/// Takes the outermost tag off.
pub fn pop_tag() -> Action
    ensures { result ≡ pop_tag }
{
    Action::PopVlan
}

/// Makes the outermost tag one of this VLAN.
pub fn set_vid(vid: Vid) -> Action
    ensures { result ≡ set_vid vid }
{
    Action::Set(vid_field(vid))
}

/// Sets the source's Ethernet address.
pub fn set_eth_src(mac: Mac) -> Action
    ensures { result ≡ set_eth_src mac }
{
    Action::Set(eth_src(mac))
}

/// Sets the destination's Ethernet address.
pub fn set_eth_dst(mac: Mac) -> Action
    ensures { result ≡ set_eth_dst mac }
{
    Action::Set(eth_dst(mac))
}

/// Lowers the TTL or the hop limit by one.
pub fn dec_ttl() -> Action
    ensures { result ≡ dec_ttl }
{
    Action::DecTtl
}
