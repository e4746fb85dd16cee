ghost use Rattle.std.specs.Prelude.{◌≡◌, false, IfOk, OnOk};
ghost use Rattle.pkt_view.specs.Frame.{shown, shown_upper, HasFixedPart};
ghost use Rattle.ctl_world.specs.Alike.{IsAlike};
ghost use Rattle.ctl_packets.specs.Changes.{packet_changes, port_changes, table_changes};
ghost use Rattle.ctl_packets.specs.Packets.{packet_by, packet_in, packet_of_table};

use crate::arrival::Arrival;
use crate::gleaning::{glean, is_route_table};
use crate::hearing::hear_neighbour;
use crate::learning::learn;
use crate::reply::reply;
use ctl_world::World;
use flow_messages::COOKIE;
use neighbour_resolve::counted_vid;
use net_base::{DpId, NoMemory, PortNo};
use of_match::in_port;
use of13_codec::PacketIn;
use pkt_view::{FrameView, view};
use plan_base::Table;
use std::alloc::Global;

/// What a frame of a VLAN does, by the table that sent it: an entry of that of sources sends the packets of
/// hosts that aren't fresh, one of those of routes those for neighbours that aren't known, and the next one
/// those for gateways themselves. Answers whether something was learned.
fn packet_of_table(
    alloc: Global,
    world: &mut World,
    table: u8,
    arrival: Arrival,
    frame: &FrameView<'_>,
) -> Result<bool, NoMemory>
    requires { HasFixedPart (shown_upper frame.now.upper) }
    ensures done { OnOk result (world.new ≡ packet_of_table table arrival.conn arrival.dp arrival.port arrival.vid (shown frame.now) world.old) }
    ensures alike { IfOk result (λ changed. changed ≡ false → IsAlike world.new world.old) }
    ensures told { IfOk result (λ changed. changed ≡ table_changes table arrival.dp arrival.port arrival.vid (shown frame.now) world.old) }
{
    let Arrival { dp, port, vid, .. } = arrival;
    if table == Table::Source.number() {
        learn(world, dp, port, vid, frame.src)
    } else if is_route_table(table, frame) {
        glean(alloc, world, dp, vid, frame)
    } else if table == Table::Vip.number() {
        let changed = hear_neighbour(world, dp, vid, frame);
        reply(alloc, world, arrival, frame)?;
        Ok(changed)
    } else {
        Ok(false)
    }
}

/// What a packet does that came in by a port. Answers whether something was learned.
fn packet_by(
    alloc: Global,
    world: &mut World,
    packet: &PacketIn,
    conn: u32,
    dp: DpId,
    port: PortNo,
) -> Result<bool, NoMemory>
    ensures done { OnOk result (world.new ≡ packet_by packet.now conn dp world.old port) }
    ensures alike { IfOk result (λ changed. changed ≡ false → IsAlike world.new world.old) }
    ensures told { IfOk result (λ changed. changed ≡ port_changes packet.now dp world.old port) }
{
    let Some(frame) = view(packet.payload.as_slice()) else {
        return Ok(false);
    };
    match counted_vid(&world.conf, dp, port, &frame) {
        Some(vid) => {
            let arrival = Arrival {
                conn,
                dp,
                port,
                vid,
            };
            packet_of_table(alloc, world, packet.table, arrival, &frame)
        }
        None => Ok(false),
    }
}

/// Takes a packet that a datapath sent on a connection (PACKET_IN; OpenFlow 1.3, 7.4.1). It counts
/// where the datapath runs, with the cookie of this controller, with the port that it came in by, and
/// where its frame has exactly one tag, of a VLAN that the port is an edge member of; every other one is
/// passed over. Answers whether something was learned of it; where nothing was, it was passed over or
/// answered at most. After `NoMemory` nothing is known of what is left.
pub fn packet_in(
    alloc: Global,
    world: &mut World,
    packet: &PacketIn,
    conn: u32,
    dp: DpId,
) -> Result<bool, NoMemory>
    ensures done { OnOk result (world.new ≡ packet_in packet.now conn dp world.old) }
    ensures alike { IfOk result (λ changed. changed ≡ false → IsAlike world.new world.old) }
    ensures told { IfOk result (λ changed. changed ≡ packet_changes packet.now dp world.old) }
{
    if packet.cookie != COOKIE || !world.has_running(dp) {
        return Ok(false);
    }
    match in_port(packet.fields.as_slice()) {
        Some(port) => packet_by(alloc, world, packet, conn, dp, port),
        None => Ok(false),
    }
}
