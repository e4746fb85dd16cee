ghost use Rattle.std.specs.Prelude.{◌≡◌, IfOk, OnOk};
ghost use Rattle.pkt_view.specs.Frame.{shown};
ghost use Rattle.ctl_world.specs.Alike.{IsAlike};
ghost use Rattle.ctl_packets.specs.Packets.{outgoing, reply};

use crate::arrival::Arrival;
use conf_types::Conf;
use ctl_world::{World, packet_out};
use neighbour_resolve::{Outgoing, Reply, answer, send_back};
use net_base::{DpId, NoMemory, PortNo, Vid};
use pkt_view::FrameView;
use std::alloc::Global;

/// What a datapath is told to send in reply.
fn outgoing(
    alloc: Global,
    conf: &Conf,
    dp: DpId,
    port: PortNo,
    vid: Vid,
    reply: Reply,
) -> Result<Option<Outgoing>, NoMemory>
    ensures { IfOk result (λ out. out ≡ outgoing conf.now dp port vid reply) }
{
    match reply {
        Reply::ArpReply(frame) | Reply::EchoReply(frame) | Reply::Advert(frame) => {
            let actions = send_back(alloc, vid, port, conf.member(dp, port, vid))?;
            Ok(Some(Outgoing { frame, actions }))
        }
        Reply::Nothing => Ok(None),
    }
}

/// A frame is answered by the port that it came in by, where it is one to be answered.
pub(crate) fn reply(
    alloc: Global,
    world: &mut World,
    arrival: Arrival,
    frame: &FrameView<'_>,
) -> Result<(), NoMemory>
    ensures done { OnOk result (world.new ≡ reply arrival.conn arrival.dp arrival.port arrival.vid (shown frame.now) world.old) }
    ensures alike { OnOk result (IsAlike world.new world.old) }
{
    let Arrival { dp, port, vid, .. } = arrival;
    let made = answer(alloc, &world.conf, dp, port, frame)?;
    match outgoing(alloc, &world.conf, dp, port, vid, made)? {
        Some(out) => world.say(arrival.conn, packet_out(out)),
        None => Ok(()),
    }
}
