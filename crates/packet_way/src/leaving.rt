ghost use Rattle.std.specs.Prelude.{◌≡◌, ◌++◌, ◌∷◌, [], IfOk, OnOk};
ghost use Rattle.conf_types.specs.Membership.{mirrors_of};
ghost use Rattle.packet_way.specs.Leaving.{sent, copies, to_controller, as_sent, delivered};

use conf_types::{Dp, Port};
use net_base::{NoMemory, PortNo, TryCopy, Vid};
use of_match::{CONTROLLER, Packet, Sent, Sents};
use std::alloc::Global;

/// The packet by a port.
pub(crate) fn push_sent(
    alloc: Global,
    out: &mut Sents,
    port: u32,
    packet: &Packet,
) -> Result<(), NoMemory>
    ensures { OnOk result (out.new ≡ out.old ++ sent port packet.now ∷ []) }
{
    let packet = packet.copy(alloc)?;
    out.push(Sent { port, packet })
}

/// The whole packet to the controller.
pub(crate) fn push_to_controller(
    alloc: Global,
    out: &mut Sents,
    packet: &Packet,
) -> Result<(), NoMemory>
    ensures { OnOk result (out.new ≡ out.old ++ to_controller packet.now) }
{
    push_sent(alloc, out, CONTROLLER, packet)
}

/// A packet of a VLAN as an edge port sends it.
fn as_sent(alloc: Global, port: &Port, vid: Vid, packet: &Packet) -> Result<Packet, NoMemory>
    ensures { IfOk result (λ made. made ≡ as_sent port.now vid packet.now) }
{
    let mut made = packet.copy(alloc)?;
    if port.is_native_in(vid) && !made.tags.is_empty() {
        let _ = made.tags.remove(0);
    }
    Ok(made)
}

/// The packet by each port that mirrors the one with this number.
pub(crate) fn push_mirrored(
    alloc: Global,
    out: &mut Sents,
    dp: &Dp,
    port: PortNo,
    packet: &Packet,
) -> Result<(), NoMemory>
    ensures { OnOk result (out.new ≡ out.old ++ copies (mirrors_of dp.now port) packet.now) }
{
    for mirror in dp.ports.as_slice() {
        if mirror.enabled && mirror.is_mirror_of(port) {
            push_sent(alloc, out, mirror.no.get(), packet)?;
        }
    }
    Ok(())
}

/// The packet of a VLAN by an edge port and by those that mirror it.
pub(crate) fn push_delivered(
    alloc: Global,
    out: &mut Sents,
    dp: &Dp,
    vid: Vid,
    packet: &Packet,
    port: &Port,
) -> Result<(), NoMemory>
    ensures { OnOk result (out.new ≡ out.old ++ delivered dp.now vid packet.now port.now) }
{
    let packet = as_sent(alloc, port, vid, packet)?;
    push_sent(alloc, out, port.no.get(), &packet)?;
    push_mirrored(alloc, out, dp, port.no, &packet)
}
