//! What datapaths are told to send, to ask for a neighbour or to answer.

ghost use Rattle.std.specs.Prelude.{◌≡◌, ◌++◌, IfOk, OnOk};
ghost use Rattle.neighbour_resolve.specs.Asks.{ask, ask_on, asking, asking_in, native_ports, out_of, send_back, send_in, tag_with, tagged_ports};

use conf_types::{Conf, Dp, Ip, Member, Vlan};
use net_base::{Bytes, DpId, Field, FieldId, Mac, NoMemory, PortNo, Vid};
use of_match::ether_type::VLAN_TAG;
use of_match::{Action, Actions};
use pkt_view::{arp_request, nd_solicit};
use std::alloc::Global;

/// What a datapath is told to send: an untagged frame, and what is done to it (the data and the
/// actions of a PACKET_OUT; OpenFlow 1.3, 7.3.7).
#[derive(Debug, Drop)]
pub struct Outgoing {
    pub frame: Bytes,
    pub actions: Actions,
}

/// In the field of the VLAN identifier: there is a tag (OpenFlow 1.3, 7.2.3.7).
const TAG_THERE: u16 = 0x1000;

fn put_out(actions: &mut Actions, ports: &[PortNo]) -> Result<(), NoMemory>
    ensures { OnOk result (actions.new ≡ actions.old ++ out_of ports.now) }
{
    for port in ports {
        actions.push(Action::Output {
            port: port.get(),
            max_len: 0,
        })?;
    }
    Ok(())
}

fn put_tag(actions: &mut Actions, vid: Vid) -> Result<(), NoMemory>
    ensures { OnOk result (actions.new ≡ actions.old ++ tag_with vid) }
{
    let value = u128::from(TAG_THERE + vid.get());
    actions.push(Action::PushVlan(VLAN_TAG))?;
    actions.push(Action::Set(Field::exact(FieldId::VlanVid, value)))
}

/// Out of the native ports as it is; then, where there are any, out of the tagged ones with a tag.
fn send_in(
    alloc: Global,
    vid: Vid,
    native: &[PortNo],
    tagged: &[PortNo],
) -> Result<Actions, NoMemory>
    ensures { IfOk result (λ actions. actions ≡ send_in vid native.now tagged.now) }
{
    let mut actions = Actions::new(alloc);
    put_out(&mut actions, native)?;
    if !tagged.is_empty() {
        put_tag(&mut actions, vid)?;
        put_out(&mut actions, tagged)?;
    }
    Ok(actions)
}

/// The actions on an untagged answer that leaves by a port of a VLAN: with a tag of the VLAN where
/// the port is a tagged member; none where it is no edge member.
pub fn send_back(alloc: Global, vid: Vid, port: PortNo, member: Member) -> Result<Actions, NoMemory>
    ensures { IfOk result (λ actions. actions ≡ send_back vid port member) }
{
    match member {
        Member::Native => send_in(alloc, vid, &[port], &[]),
        Member::Tagged => send_in(alloc, vid, &[], &[port]),
        Member::Stack | Member::None => Ok(Actions::new(alloc)),
    }
}

fn native_ports(alloc: Global, dp: &Dp, vid: Vid) -> Result<Vec<PortNo>, NoMemory>
    ensures { IfOk result (λ ports. ports.items ≡ native_ports dp.now vid) }
{
    dp.ports
        .as_slice()
        .iter()
        .filter(|port| matches!(port.member_of(vid), Member::Native))
        .map(|port| port.no)
        .collect(alloc)
}

fn tagged_ports(alloc: Global, dp: &Dp, vid: Vid) -> Result<Vec<PortNo>, NoMemory>
    ensures { IfOk result (λ ports. ports.items ≡ tagged_ports dp.now vid) }
{
    dp.ports
        .as_slice()
        .iter()
        .filter(|port| matches!(port.member_of(vid), Member::Tagged))
        .map(|port| port.no)
        .collect(alloc)
}

/// The frame in which the owner of an address asks for another; `None` exactly where they are of two
/// families.
fn asking(alloc: Global, mac: Mac, own: Ip, target: Ip) -> Result<Option<Bytes>, NoMemory>
    ensures { IfOk result (λ frame. frame ≡ asking mac own target) }
{
    match (own, target) {
        (Ip::V4(own), Ip::V4(target)) => Ok(Some(arp_request(alloc, mac, own, target)?)),
        (Ip::V6(own), Ip::V6(target)) => Ok(Some(nd_solicit(alloc, mac, own, target)?)),
        _ => Ok(None),
    }
}

/// From the VLAN's gateway address and the VIP whose network holds the address.
fn asking_in(alloc: Global, vlan: &Vlan, ip: Ip) -> Result<Option<Bytes>, NoMemory>
    ensures { IfOk result (λ frame. frame ≡ asking_in vlan.now ip) }
{
    match vlan.vip_for(ip) {
        Some(vip) => asking(alloc, vlan.mac, vip.address(), ip),
        None => Ok(None),
    }
}

fn ask_on(alloc: Global, dp: &Dp, vlan: &Vlan, ip: Ip) -> Result<Option<Outgoing>, NoMemory>
    ensures { IfOk result (λ out. out ≡ ask_on dp.now vlan.now ip) }
{
    if !dp.has_edge_member(vlan.vid) {
        return Ok(None);
    }
    let Some(frame) = asking_in(alloc, vlan, ip)? else {
        return Ok(None);
    };
    let native = native_ports(alloc, dp, vlan.vid)?;
    let tagged = tagged_ports(alloc, dp, vlan.vid)?;
    let actions = send_in(alloc, vlan.vid, native.as_slice(), tagged.as_slice())?;
    Ok(Some(Outgoing { frame, actions }))
}

/// What a datapath is told to send, to ask for a neighbour: an ARP request (RFC 826) for an IPv4
/// address, a neighbour's solicitation (RFC 4861, 4.3) for an IPv6 one, from the VLAN's gateway address
/// and the VIP whose network holds the neighbour's, out of the native members of the VLAN and then, with
/// a tag, out of the tagged ones, by number, whether they are up or not.
///
/// `None` exactly where there is no such datapath or VLAN, the datapath has no edge member of the
/// VLAN, or no VIP's network holds the address.
pub fn ask(
    alloc: Global,
    conf: &Conf,
    dp: DpId,
    vid: Vid,
    ip: Ip,
) -> Result<Option<Outgoing>, NoMemory>
    ensures { IfOk result (λ out. out ≡ ask conf.now dp vid ip) }
{
    match (conf.dp(dp), conf.vlan(vid)) {
        (Some(dp), Some(vlan)) => ask_on(alloc, dp, vlan, ip),
        _ => Ok(None),
    }
}
