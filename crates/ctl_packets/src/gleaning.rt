ghost use Rattle.std.specs.Prelude.{◌≡◌, ◌==◌, ◌&&◌, ◌||◌, not, false, is_some, IfOk, OnOk};
ghost use Rattle.conf_types.specs.Families.{is_same_ip};
ghost use Rattle.conf_types.specs.Lists.{is_same};
ghost use Rattle.conf_types.specs.Networks.{is_held, is_link_local};
ghost use Rattle.pkt_view.specs.Frame.{shown, shown_upper, HasFixedPart};
ghost use Rattle.ctl_packets.specs.Changes.{gleaned, gleans, gleans_to, has_room_for_wanted};
ghost use Rattle.ctl_packets.specs.Packets.{destination, glean, glean_to, is_for_gateway, is_reached, is_resolved, is_route_table, is_sought, network_vlan, want};

use conf_types::{Conf, Ip, NeighRec, Net, Vlan};
use ctl_world::World;
use neighbour_resolve::Want;
use net_base::{DpId, Mac, NoMemory, Vid};
use pkt_view::{FrameView, UpperView, ip4_at, ip6_at};
use plan_base::Table;
use std::alloc::Global;

/// An address is wanted in a group of datapaths and a VLAN. Answers whether there was room for it.
fn want(world: &mut World, group: DpId, vid: Vid, ip: Ip) -> bool
    ensures done { world.new ≡ want group vid ip world.old }
    ensures same { result ≡ false → world.new ≡ world.old }
    ensures told { result ≡ has_room_for_wanted group vid ip world.old }
{
    match world.neighbours.want(group, vid, ip, world.moment) {
        Want::Added | Want::Known => true,
        Want::Full => false,
    }
}

/// Whether a neighbour has this key, and its Ethernet address is known.
fn is_neighbour(neighbour: &NeighRec, group: DpId, vid: Vid, ip: Ip) -> bool
    ensures { result ≡ (neighbour.now.group.0 == group.0 && neighbour.now.vid == vid && is_same_ip neighbour.now.ip ip && is_some neighbour.now.mac) }
{
    neighbour.group == group
        && neighbour.vid.get() == vid.get()
        && neighbour.ip.is_same(ip)
        && neighbour.mac.is_some()
}

/// Whether the Ethernet address of a neighbour is known.
fn is_resolved(neighbours: &[NeighRec], group: DpId, vid: Vid, ip: Ip) -> bool
    ensures { result ≡ is_resolved neighbours.now group vid ip }
{
    neighbours
        .iter()
        .any(|neighbour| is_neighbour(neighbour, group, vid, ip))
}

/// Whether a network of a VLAN holds an address, and packets of VLAN `from` are routed by it.
fn is_reached_by(from: Vid, vid: Vid, vip: &Net, ip: Ip) -> bool
    ensures { result ≡ (is_held vip.now ip && (vid == from || not (is_link_local vip.now))) }
{
    vip.holds(ip) && (vid.get() == from.get() || !vip.is_link_local())
}

/// Whether an address lies in a network of a VLAN that packets of VLAN `from` are routed by.
fn is_reached(from: Vid, vlan: &Vlan, ip: Ip) -> bool
    ensures { result ≡ is_reached from vlan.now ip }
{
    vlan.vips
        .as_slice()
        .iter()
        .any(|vip| is_reached_by(from, vlan.vid, vip, ip))
}

/// Whether an address is a neighbour's of a VLAN, in such a network.
fn is_sought(conf: &Conf, from: Vid, ip: Ip, vid: Vid) -> bool
    ensures { result ≡ is_sought conf.now from ip vid }
{
    match conf.vlan(vid) {
        Some(vlan) => vlan.is_neighbour_address(ip) && is_reached(from, vlan, ip),
        None => false,
    }
}

/// The VLAN of which an address is a neighbour's, of those that packets of a VLAN are routed to.
fn network_vlan(alloc: Global, conf: &Conf, vid: Vid, ip: Ip) -> Result<Option<Vid>, NoMemory>
    ensures { IfOk result (λ found. found ≡ network_vlan conf.now vid ip) }
{
    let vids = conf.routing_set(alloc, vid)?;
    Ok(
        vids.as_slice()
            .iter()
            .copied()
            .find(|other| is_sought(conf, vid, ip, *other)),
    )
}

/// An address is wanted in the VLAN of its network, unless it is known there. Answers whether it was.
fn glean_to(
    alloc: Global,
    world: &mut World,
    group: DpId,
    vid: Vid,
    ip: Ip,
) -> Result<bool, NoMemory>
    ensures done { OnOk result (world.new ≡ glean_to group vid ip world.old) }
    ensures same { IfOk result (λ changed. changed ≡ false → world.new ≡ world.old) }
    ensures told { IfOk result (λ changed. changed ≡ gleans_to group vid ip world.old) }
{
    let Some(vid) = network_vlan(alloc, &world.conf, vid, ip)? else {
        return Ok(false);
    };
    if is_resolved(world.neighbours.list(), group, vid, ip) {
        return Ok(false);
    }
    Ok(want(world, group, vid, ip))
}

/// Whether two addresses have the same bytes.
fn is_same(a: Mac, b: Mac) -> bool
    ensures { result ≡ is_same a.0 b.0 }
{
    a == b
}

/// Whether a frame is one for the gateway of a VLAN that has VIPs.
fn is_for_gateway(vlan: &Vlan, frame: &FrameView<'_>) -> bool
    ensures { result ≡ is_for_gateway vlan.now (shown frame.now) }
{
    !vlan.vips.is_empty() && is_same(frame.dst, vlan.mac)
}

/// The address that a frame's packet is for (RFC 791, 3.1; RFC 8200, 3).
fn destination(frame: &FrameView<'_>) -> Option<Ip>
    requires { HasFixedPart (shown_upper frame.now.upper) }
    ensures { result ≡ destination (shown_upper frame.now.upper) }
{
    match frame.upper {
        UpperView::V4 { header, .. } => Some(Ip::V4(ip4_at(header, 16))),
        UpperView::V6 { header, .. } => Some(Ip::V6(ip6_at(header, 24))),
        UpperView::Arp { .. } | UpperView::None => None,
    }
}

/// The address that a frame of a VLAN looks for: that of its packet, where it is for the gateway.
fn gleaned(conf: &Conf, vid: Vid, frame: &FrameView<'_>) -> Option<Ip>
    requires { HasFixedPart (shown_upper frame.now.upper) }
    ensures { result ≡ gleaned conf.now vid (shown frame.now) }
{
    let vlan = conf.vlan(vid)?;
    if is_for_gateway(vlan, frame) {
        destination(frame)
    } else {
        None
    }
}

/// The address that a packet for a VLAN's gateway looks for is wanted, unless it is known. Answers
/// whether it was.
pub(crate) fn glean(
    alloc: Global,
    world: &mut World,
    dp: DpId,
    vid: Vid,
    frame: &FrameView<'_>,
) -> Result<bool, NoMemory>
    requires { HasFixedPart (shown_upper frame.now.upper) }
    ensures done { OnOk result (world.new ≡ glean dp vid (shown frame.now) world.old) }
    ensures same { IfOk result (λ changed. changed ≡ false → world.new ≡ world.old) }
    ensures told { IfOk result (λ changed. changed ≡ gleans dp vid (shown frame.now) world.old) }
{
    match gleaned(&world.conf, vid, frame) {
        Some(ip) => {
            let group = world.conf.group_number(dp);
            glean_to(alloc, world, group, vid, ip)
        }
        None => Ok(false),
    }
}

/// Whether a table is that of the routes of a frame's packet: of IPv4 or of IPv6.
pub fn is_route_table(table: u8, frame: &FrameView<'_>) -> bool
    ensures { result ≡ is_route_table table (shown_upper frame.now.upper) }
{
    match frame.upper {
        UpperView::V4 { .. } => table == Table::Ipv4Route.number(),
        UpperView::V6 { .. } => table == Table::Ipv6Route.number(),
        UpperView::Arp { .. } | UpperView::None => false,
    }
}
