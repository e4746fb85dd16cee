ghost use Rattle.std.specs.Prelude.{◌≡◌, Some, None, IfOk, if◌then◌else◌};
ghost use Rattle.conf_types.specs.Membership.{is_tagged_in};
ghost use Rattle.packet_way.specs.Admission.{admitted_to, with_tag, tagged_with};

use conf_types::Port;
use net_base::{NoMemory, TryCopy, Vid};
use of_match::ether_type::VLAN_TAG;
use of_match::{Packet, Tag};
use std::alloc::Global;

/// The tagged VLAN of a port with this number.
fn tagged_vlan(port: &Port, vid: u16) -> Option<Vid>
    ensures { result ≡ (if is_tagged_in port.now vid then Some vid else None) }
{
    for tagged in port.tagged.as_slice() {
        if tagged.get() == vid {
            return Some(*tagged);
        }
    }
    None
}

/// The VLAN that admits a packet that comes in by an edge port.
pub(crate) fn admitted_to(port: &Port, packet: &Packet) -> Option<Vid>
    ensures { result ≡ admitted_to port.now packet.now }
{
    match packet.tags.as_slice() {
        [] => port.native,
        [tag, ..] => tagged_vlan(port, tag.vid),
    }
}

/// The packet with a tag of the VLAN in front.
fn make_tagged(alloc: Global, vid: Vid, packet: &Packet) -> Result<Packet, NoMemory>
    ensures { IfOk result (λ made. made ≡ with_tag vid packet.now) }
{
    let tag = Tag {
        tpid: VLAN_TAG,
        pcp: 0,
        dei: false,
        vid: vid.get(),
    };
    let mut made = packet.copy(alloc)?;
    made.tags.insert(0, tag)?;
    Ok(made)
}

/// The packet with a tag of its VLAN.
pub(crate) fn tagged_with(alloc: Global, vid: Vid, packet: &Packet) -> Result<Packet, NoMemory>
    ensures { IfOk result (λ made. made ≡ tagged_with vid packet.now) }
{
    match packet.tags.as_slice() {
        [] => make_tagged(alloc, vid, packet),
        [_, ..] => packet.copy(alloc),
    }
}
