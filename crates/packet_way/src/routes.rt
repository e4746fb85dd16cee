ghost use Rattle.std.specs.Prelude.{◌≡◌, ◌==◌, ◌&&◌, ◌||◌, ◌++◌, ◌∷◌, [], min, map, filter, not, IfOk, OnOk, if◌then◌else◌};
ghost use Rattle.std.specs.List.{filter_map, find, list_any};
ghost use Rattle.std.specs.Option.{option_copied, option_map_or};
ghost use Rattle.conf_types.specs.Changes.{mac_of_neighbour};
ghost use Rattle.conf_types.specs.Configuration.{vlan_with};
ghost use Rattle.conf_types.specs.Families.{is_same_ip, width_of, address_of, len_of};
ghost use Rattle.conf_types.specs.Lists.{is_same};
ghost use Rattle.conf_types.specs.Networks.{is_held, is_link_local};
ghost use Rattle.conf_types.specs.Routing.{vips_from};
ghost use Rattle.of_match.specs.declared.ether_type.TheConstants.{ARP, IPV4, IPV6};
ghost use Rattle.packet_way.specs.Routes.{resolved, vip_item, hop_item, neighbour_item, network_item, route_item, items_of, items_for, route_list, item_holds, longer, longest, destination, is_arp_for, is_target, is_solicited, is_solicitation_for, is_echo, is_echo_or_advert, is_told, hop_less, moved_to, sent_on, led_by, routed_to, passed_by, routed};

use conf_types::{Conf, Ip, NeighRec, Net, Nets, Route, Vlan};
use net_base::{DpId, Ip6, Items, Mac, Net4, Net6, NoMemory, TryCopy, Vid};
use of_match::ether_type::{ARP, IPV4, IPV6};
use of_match::{L4, Packet, Tags, Upper};
use std::alloc::Global;

/// Where an item of a route list leads.
#[derive(Clone, Copy, Debug, PartialEq, Eq)]
pub enum Target {
    /// To the gateway itself.
    Gateway,
    /// To the neighbour with the address `mac` in a VLAN, from that VLAN's gateway.
    Hop { vid: Vid, gateway: Mac, mac: Mac },
    /// To a network whose neighbours are still to be found.
    Network,
}

/// An item of a route list: the first `len` bits of an address, and where they lead.
#[derive(Clone, Copy, Debug, PartialEq, Eq)]
pub struct RouteItem {
    /// The address, of either family. What lies behind the prefix isn't looked at.
    pub ip: Ip,
    /// Up to the width of the address's family.
    pub len: u8,
    pub to: Target,
}

/// A route list, over both families. Of the items that hold an address the one with the longest prefix
/// counts.
pub type RouteItems = Items<RouteItem>;

/// What becomes of a packet by routing.
#[derive(Drop)]
pub enum Routed {
    /// It goes on in a VLAN.
    GoesOn { vid: Vid, packet: Packet },
    /// It goes to the controller and no further.
    ToController,
    Ends,
}

impl RouteItem {
    /// The prefix, as a network.
    pub fn net(&self) -> Net
        ensures ip { address_of result ≡ self.now.ip }
        ensures len { len_of result ≡ min self.now.len (width_of self.now.ip) }
    {
        match self.ip {
            Ip::V4(ip) => Net::V4(Net4 {
                ip,
                len: self.len.min(32),
            }),
            Ip::V6(ip) => Net::V6(Net6 {
                ip,
                len: self.len.min(128),
            }),
        }
    }
}

fn is_neighbour(neighbour: &NeighRec, group: DpId, vid: Vid) -> bool
    ensures { result ≡ (neighbour.now.group.0 == group.0 && neighbour.now.vid == vid) }
{
    neighbour.group == group && neighbour.vid.get() == vid.get()
}

fn find_neighbour(neighbours: &[NeighRec], group: DpId, vid: Vid, ip: Ip) -> Option<&NeighRec>
    ensures { option_copied result ≡ find (λ n. n.group.0 == group.0 && n.vid == vid && is_same_ip n.ip ip) neighbours.now }
{
    neighbours.iter().find(|neighbour| is_neighbour(neighbour, group, vid)
        && neighbour.ip.is_same(ip))
}

/// The Ethernet address of a neighbour, if it is known.
fn mac_of_neighbour(neighbours: &[NeighRec], group: DpId, vid: Vid, ip: Ip) -> Option<Mac>
    ensures { result ≡ mac_of_neighbour neighbours.now group vid ip }
{
    match find_neighbour(neighbours, group, vid, ip) {
        Some(neighbour) => neighbour.mac,
        None => None,
    }
}

fn lies_in(vips: &[Net], ip: Ip) -> bool
    ensures { result ≡ list_any (λ vip. is_held vip ip) vips.now }
{
    vips.iter().any(|vip| vip.holds(ip))
}

/// The Ethernet address of a neighbour of the VLAN in a network of some VIPs, if it is known.
fn resolved(group: DpId, vlan: &Vlan, vips: &[Net], neighbour: &NeighRec) -> Option<Mac>
    ensures { result ≡ resolved group vlan.now vips.now neighbour.now }
{
    if is_neighbour(neighbour, group, vlan.vid) && lies_in(vips, neighbour.ip) {
        neighbour.mac
    } else {
        None
    }
}

/// The VIPs whose networks aren't link-local.
fn wide_vips(alloc: Global, vips: &[Net]) -> Result<Nets, NoMemory>
    ensures { IfOk result (λ made. made ≡ filter (λ vip. not (is_link_local vip)) vips.now) }
{
    let mut made = Nets::new(alloc);
    for vip in vips {
        if !vip.is_link_local() {
            made.push(*vip)?;
        }
    }
    Ok(made)
}

/// The VIPs of a VLAN that packets of the VLAN with this number are routed by.
fn vips_from(alloc: Global, vid: Vid, vlan: &Vlan) -> Result<Nets, NoMemory>
    ensures { IfOk result (λ made. made ≡ vips_from vid vlan.now) }
{
    if vlan.vid.get() == vid.get() {
        vlan.vips.copy(alloc)
    } else {
        wide_vips(alloc, vlan.vips.as_slice())
    }
}

fn push_vips(out: &mut RouteItems, vips: &[Net]) -> Result<(), NoMemory>
    ensures { OnOk result (out.new ≡ out.old ++ map vip_item vips.now) }
{
    for vip in vips {
        let ip = vip.address();
        let len = ip.family().width;
        let to = Target::Gateway;
        out.push(RouteItem { ip, len, to })?;
    }
    Ok(())
}

/// A neighbour, alone, by its Ethernet address.
fn push_neighbour(
    out: &mut RouteItems,
    vlan: &Vlan,
    neighbour: &NeighRec,
    mac: Mac,
) -> Result<(), NoMemory>
    ensures { OnOk result (out.new ≡ out.old ++ hop_item vlan.now neighbour.now.ip (width_of neighbour.now.ip) mac ∷ []) }
{
    let to = Target::Hop {
        vid: vlan.vid,
        gateway: vlan.mac,
        mac,
    };
    out.push(RouteItem {
        ip: neighbour.ip,
        len: neighbour.ip.family().width,
        to,
    })
}

fn push_neighbours(
    out: &mut RouteItems,
    neighbours: &[NeighRec],
    group: DpId,
    vlan: &Vlan,
    vips: &[Net],
) -> Result<(), NoMemory>
    ensures { OnOk result (out.new ≡ out.old ++ filter_map (neighbour_item group vlan.now vips.now) neighbours.now) }
{
    for neighbour in neighbours {
        if let Some(mac) = resolved(group, vlan, vips, neighbour) {
            push_neighbour(out, vlan, neighbour, mac)?;
        }
    }
    Ok(())
}

fn push_networks(out: &mut RouteItems, vips: &[Net]) -> Result<(), NoMemory>
    ensures { OnOk result (out.new ≡ out.old ++ map network_item vips.now) }
{
    for vip in vips {
        let to = Target::Network;
        out.push(RouteItem {
            ip: vip.address(),
            len: vip.len(),
            to,
        })?;
    }
    Ok(())
}

/// A route, by its gateway's Ethernet address.
fn push_route(out: &mut RouteItems, vlan: &Vlan, route: &Route, mac: Mac) -> Result<(), NoMemory>
    ensures { OnOk result (out.new ≡ out.old ++ hop_item vlan.now (address_of route.now.dst) (len_of route.now.dst) mac ∷ []) }
{
    let to = Target::Hop {
        vid: vlan.vid,
        gateway: vlan.mac,
        mac,
    };
    out.push(RouteItem {
        ip: route.dst.address(),
        len: route.dst.len(),
        to,
    })
}

fn push_routes(
    out: &mut RouteItems,
    neighbours: &[NeighRec],
    group: DpId,
    vlan: &Vlan,
) -> Result<(), NoMemory>
    ensures { OnOk result (out.new ≡ out.old ++ filter_map (route_item neighbours.now group vlan.now) vlan.now.routes) }
{
    for route in vlan.routes.as_slice() {
        if let Some(mac) = mac_of_neighbour(neighbours, group, vlan.vid, route.gw) {
            push_route(out, vlan, route, mac)?;
        }
    }
    Ok(())
}

fn push_items(
    out: &mut RouteItems,
    neighbours: &[NeighRec],
    group: DpId,
    vlan: &Vlan,
    vips: &[Net],
) -> Result<(), NoMemory>
    ensures { OnOk result (out.new ≡ out.old ++ items_of neighbours.now group vlan.now vips.now) }
{
    push_vips(out, vips)?;
    push_neighbours(out, neighbours, group, vlan, vips)?;
    push_networks(out, vips)?;
    push_routes(out, neighbours, group, vlan)
}

/// What a VLAN adds to the route list of the VLAN with this number.
fn push_items_for(
    alloc: Global,
    out: &mut RouteItems,
    neighbours: &[NeighRec],
    group: DpId,
    vid: Vid,
    vlan: &Vlan,
) -> Result<(), NoMemory>
    ensures { OnOk result (out.new ≡ out.old ++ items_for neighbours.now group vid vlan.now) }
{
    let vips = vips_from(alloc, vid, vlan)?;
    push_items(out, neighbours, group, vlan, vips.as_slice())
}

fn push_items_in(
    alloc: Global,
    out: &mut RouteItems,
    conf: &Conf,
    neighbours: &[NeighRec],
    group: DpId,
    vid: Vid,
    other: Vid,
) -> Result<(), NoMemory>
    ensures { OnOk result (out.new ≡ out.old ++ option_map_or (items_for neighbours.now group vid) (vlan_with conf.now.vlans other) []) }
{
    match conf.vlan(other) {
        Some(vlan) => push_items_for(alloc, out, neighbours, group, vid, vlan),
        None => Ok(()),
    }
}

/// The route list of a VLAN for the group of datapaths with this number. Each VLAN of its routing
/// set adds, in this order, its VIPs, the neighbours in their networks whose Ethernet addresses are
/// known, these networks, and the routes of whose gateways they are known. Another VLAN adds nothing of
/// its link-local networks but the routes by gateways there.
#[tactic(auto, unfolding(crate::specs::Routes::route_list))]
pub fn route_list(
    alloc: Global,
    conf: &Conf,
    neighbours: &[NeighRec],
    group: DpId,
    vid: Vid,
) -> Result<RouteItems, NoMemory>
    ensures { IfOk result (λ made. made ≡ route_list conf.now neighbours.now group vid) }
{
    let mut made = Items::new(alloc);
    let vids = conf.routing_set(alloc, vid)?;
    for other in vids.as_slice() {
        push_items_in(alloc, &mut made, conf, neighbours, group, vid, *other)?;
    }
    Ok(made)
}

fn item_holds(ip: Ip, item: &RouteItem) -> bool
    ensures { result ≡ item_holds ip item.now }
{
    item.net().holds(ip)
}

fn longer(best: Option<RouteItem>, item: RouteItem) -> RouteItem
    ensures { result ≡ option_map_or (λ b. longer b item) best item }
{
    match best {
        Some(best) => { if best.len < item.len { item } else { best } }
        None => item,
    }
}

/// Of the items that hold an address the one with the longest prefix.
#[tactic(auto, unfolding(crate::specs::Routes::longest))]
fn longest(items: &[RouteItem], ip: Ip) -> Option<RouteItem>
    ensures { result ≡ longest items.now ip }
{
    let mut best = None;
    for item in items {
        if item_holds(ip, item) {
            best = Some(longer(best, *item));
        }
    }
    best
}

fn destination(upper: Upper) -> Option<Ip>
    ensures { result ≡ destination upper }
{
    match upper {
        Upper::V4 { dst, .. } => Some(Ip::V4(dst)),
        Upper::V6 { dst, .. } => Some(Ip::V6(dst)),
        _ => None,
    }
}

fn is_arp_for(vlan: &Vlan, upper: Upper) -> bool
    ensures { result ≡ is_arp_for vlan.now.vips upper }
{
    match upper {
        Upper::Arp { tpa, .. } => vlan.is_vip(Ip::V4(tpa)),
        _ => false,
    }
}

fn is_target(vlan: &Vlan, target: Option<Ip6>) -> bool
    ensures { result ≡ is_target vlan.now.vips target }
{
    match target {
        Some(ip) => vlan.is_vip(Ip::V6(ip)),
        None => false,
    }
}

/// Whether it is a neighbour's solicitation of one of the VIPs.
fn is_solicited(vlan: &Vlan, l4: L4) -> bool
    ensures { result ≡ is_solicited vlan.now.vips l4 }
{
    match l4 {
        L4::Icmp6 { kind, target, .. } => kind == 135 && is_target(vlan, target),
        _ => false,
    }
}

fn is_solicitation_for(vlan: &Vlan, upper: Upper) -> bool
    ensures { result ≡ is_solicitation_for vlan.now.vips upper }
{
    match upper {
        Upper::V6 { proto, l4, .. } => proto == 58 && is_solicited(vlan, l4),
        _ => false,
    }
}

fn is_echo(l4: L4) -> bool
    ensures { result ≡ is_echo l4 }
{
    match l4 {
        L4::Icmp { kind, .. } => kind == 8,
        _ => false,
    }
}

fn is_echo_or_advert(l4: L4) -> bool
    ensures { result ≡ is_echo_or_advert l4 }
{
    match l4 {
        L4::Icmp6 { kind, .. } => kind == 128 || kind == 136,
        _ => false,
    }
}

/// Whether the controller answers or hears it for one of the VIPs.
fn is_told(vlan: &Vlan, upper: Upper) -> bool
    ensures { result ≡ is_told vlan.now.vips upper }
{
    match upper {
        Upper::V4 { proto, l4, .. } => proto == 1 && is_echo(l4),
        Upper::V6 { proto, l4, .. } => {
            proto == 58 && (is_solicited(vlan, l4) || is_echo_or_advert(l4))
        }
        _ => false,
    }
}

/// Whether a packet is for the gateway of a VLAN.
fn is_for_gateway(vlan: &Vlan, packet: &Packet) -> bool
    ensures { result ≡ is_same packet.now.dst.0 vlan.now.mac.0 }
{
    packet.dst == vlan.mac
}

fn hop_less(upper: Upper) -> Option<Upper>
    ensures { result ≡ hop_less upper }
{
    match upper {
        Upper::V4 {
            src,
            dst,
            proto,
            ttl,
            l4,
        } => {
            if ttl < 2 {
                return None;
            }
            Some(Upper::V4 {
                src,
                dst,
                proto,
                ttl: ttl - 1,
                l4,
            })
        }
        Upper::V6 {
            src,
            dst,
            proto,
            hops,
            l4,
        } => {
            if hops < 2 {
                return None;
            }
            Some(Upper::V6 {
                src,
                dst,
                proto,
                hops: hops - 1,
                l4,
            })
        }
        _ => None,
    }
}

fn move_to(tags: &mut Tags, vid: Vid)
    ensures { tags.new ≡ moved_to vid tags.old }
{
    if let Some(first) = tags.get(0) {
        let mut tag = *first;
        tag.vid = vid.get();
        tags.set(0, tag);
    }
}

/// A packet that is sent on to a neighbour.
fn send_on(
    alloc: Global,
    vid: Vid,
    gateway: Mac,
    mac: Mac,
    packet: &Packet,
    upper: Upper,
) -> Result<Routed, NoMemory>
    ensures { IfOk result (λ made. made ≡ sent_on vid gateway mac packet.now upper) }
{
    let mut made = packet.copy(alloc)?;
    move_to(&mut made.tags, vid);
    made.dst = mac;
    made.src = gateway;
    made.upper = upper;
    Ok(Routed::GoesOn { vid, packet: made })
}

/// Where an item of the route list leads, for the gateway of a VLAN.
fn led_by(alloc: Global, vlan: &Vlan, to: Target, packet: &Packet) -> Result<Routed, NoMemory>
    ensures { IfOk result (λ made. made ≡ led_by vlan.now.vips to packet.now) }
{
    match to {
        Target::Gateway => {
            if is_told(vlan, packet.upper) {
                Ok(Routed::ToController)
            } else {
                Ok(Routed::Ends)
            }
        }
        Target::Network => Ok(Routed::ToController),
        Target::Hop { vid, gateway, mac } => match hop_less(packet.upper) {
            Some(upper) => send_on(alloc, vid, gateway, mac, packet, upper),
            None => Ok(Routed::Ends),
        },
    }
}

fn routed_to(
    alloc: Global,
    items: &[RouteItem],
    vlan: &Vlan,
    packet: &Packet,
) -> Result<Routed, NoMemory>
    ensures { IfOk result (λ made. made ≡ routed_to items.now vlan.now.vips packet.now) }
{
    let Some(ip) = destination(packet.upper) else {
        return Ok(Routed::Ends);
    };
    match longest(items, ip) {
        Some(item) => led_by(alloc, vlan, item.to, packet),
        None => Ok(Routed::Ends),
    }
}

fn go_on(alloc: Global, vid: Vid, packet: &Packet) -> Result<Routed, NoMemory>
    ensures { IfOk result (λ made. made ≡ Routed.GoesOn vid packet.now) }
{
    let packet = packet.copy(alloc)?;
    Ok(Routed::GoesOn { vid, packet })
}

/// What becomes of a packet that isn't for the gateway of a VLAN.
fn pass_by(alloc: Global, vlan: &Vlan, packet: &Packet) -> Result<Routed, NoMemory>
    ensures { IfOk result (λ made. made ≡ passed_by vlan.now packet.now) }
{
    if is_solicitation_for(vlan, packet.upper) {
        Ok(Routed::ToController)
    } else {
        go_on(alloc, vlan.vid, packet)
    }
}

/// What becomes of a packet for the gateway of a VLAN.
fn route_here(
    alloc: Global,
    items: &[RouteItem],
    vlan: &Vlan,
    packet: &Packet,
) -> Result<Routed, NoMemory>
    ensures { IfOk result
        (λ made. made ≡ (if packet.now.eth_type == IPV4 || packet.now.eth_type == IPV6 then routed_to items.now vlan.now.vips packet.now
        else (if packet.now.eth_type == ARP then Routed.ToController else Routed.Ends))) }
{
    if packet.eth_type == IPV4 || packet.eth_type == IPV6 {
        routed_to(alloc, items, vlan, packet)
    } else if packet.eth_type == ARP {
        Ok(Routed::ToController)
    } else {
        Ok(Routed::Ends)
    }
}

/// What becomes of a packet in a VLAN, which has its tag, by the VLAN's route list.
#[tactic(auto, unfolding(crate::specs::Routes::routed))]
pub(crate) fn route(
    alloc: Global,
    items: &[RouteItem],
    vlan: &Vlan,
    packet: &Packet,
) -> Result<Routed, NoMemory>
    ensures { IfOk result (λ made. made ≡ routed items.now vlan.now packet.now) }
{
    if vlan.vips.len() == 0 {
        return go_on(alloc, vlan.vid, packet);
    }
    if is_arp_for(vlan, packet.upper) {
        return Ok(Routed::ToController);
    }
    if !is_for_gateway(vlan, packet) {
        return pass_by(alloc, vlan, packet);
    }
    route_here(alloc, items, vlan, packet)
}
