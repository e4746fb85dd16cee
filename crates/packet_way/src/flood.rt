ghost use Rattle.std.specs.Prelude.{◌≡◌, ◌++◌, OnOk};
ghost use Rattle.packet_way.specs.Flood.{is_flooded, gets_flood, flooded};

use crate::leaving::push_delivered;
use conf_types::{Dp, Port, Vlan};
use net_base::{NoMemory, PortNo};
use of_match::{Packet, Sents};
use stack_paths::Paths;
use std::alloc::Global;

/// Whether an interface gets floods of the VLAN.
fn is_flooded(paths: &Paths, dp: &Dp, vlan: &Vlan, packet: &Packet, port: &Port) -> bool
    ensures { result ≡ is_flooded paths.now dp.now vlan.now packet.now port.now }
{
    (port.is_edge_member(vlan.vid) && (packet.dst.is_group() || port.unicast_flood))
        || paths.is_tree_port(dp.id, port.no)
}

fn gets_flood(
    paths: &Paths,
    dp: &Dp,
    ingress: PortNo,
    vlan: &Vlan,
    packet: &Packet,
    port: &Port,
) -> bool
    ensures { result ≡ gets_flood paths.now dp.now ingress vlan.now packet.now port.now }
{
    is_flooded(paths, dp, vlan, packet, port) && (port.no.get() != ingress.get() || port.hairpin)
}

/// The packet by every interface that gets floods of the VLAN.
#[tactic(auto, unfolding(crate::specs::Flood::flooded))]
pub(crate) fn push_flooded(
    alloc: Global,
    out: &mut Sents,
    paths: &Paths,
    dp: &Dp,
    ingress: PortNo,
    vlan: &Vlan,
    packet: &Packet,
) -> Result<(), NoMemory>
    ensures { OnOk result (out.new ≡ out.old ++ flooded paths.now dp.now ingress vlan.now packet.now) }
{
    if !packet.dst.is_group() && !vlan.unicast_flood {
        return Ok(());
    }
    for port in dp.ports.as_slice() {
        if gets_flood(paths, dp, ingress, vlan, packet, port) {
            push_delivered(alloc, out, dp, vlan.vid, packet, port)?;
        }
    }
    Ok(())
}
