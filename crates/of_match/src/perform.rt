ghost use Rattle.std.specs.Prelude.{◌≡◌, [], ◌∷◌, ◌++◌, ◌%◌, ◌^◌, IfOk, OnOk, Some, None, if◌then◌else◌};
ghost use Rattle.of_match.specs.Act.{set_tag, set_tags, set_target, set_l4, set_upper, set_value, pushed, popped, lowered, left_by, output, sends_of, act_left, act_sends, act};

use crate::action::{Action, IN_PORT};
use crate::packet::{Acted, L4, Packet, Sent, Sents, Tag, Tags, Upper};
use net_base::{FieldId, Ip4, Ip6, Mac, NoMemory, PortNo, TryCopy};
use std::alloc::Global;

// The low 8 bits.
fn low_8(value: u128) -> u8
    ensures { result ≡ value % 2 ^ 8 }
{
    (value % 0x100) as u8
}

// The low 16 bits.
fn low_16(value: u128) -> u16
    ensures { result ≡ value % 2 ^ 16 }
{
    (value % 0x1_0000) as u16
}

// The address in the low 32 bits.
fn low_32(value: u128) -> u32
    ensures { result ≡ value % 2 ^ 32 }
{
    (value % 0x1_0000_0000) as u32
}

// The address in the low 128 bits, which are all.
#[tactic(auto, using(crate::proofs::Bits::all_bits))]
fn low_128(value: u128) -> u128
    ensures { result ≡ value % 2 ^ 128 }
{
    value
}

// Sets the address of a target, if there is one.
fn set_target(value: u128, target: &mut Option<Ip6>)
    ensures { target.new ≡ set_target value target.old }
{
    if let Some(ip) = target {
        *ip = Ip6(low_128(value));
    }
}

// Sets a field of the transport header, if it has the field.
fn set_l4(id: FieldId, value: u128, l4: &mut L4)
    ensures { l4.new ≡ set_l4 id value l4.old }
{
    match (id, l4) {
        (FieldId::TcpSrc, L4::Tcp { src, .. }) => *src = low_16(value),
        (FieldId::TcpDst, L4::Tcp { dst, .. }) => *dst = low_16(value),
        (FieldId::UdpSrc, L4::Udp { src, .. }) => *src = low_16(value),
        (FieldId::UdpDst, L4::Udp { dst, .. }) => *dst = low_16(value),
        (FieldId::Icmpv4Type, L4::Icmp { kind, .. }) => *kind = low_8(value),
        (FieldId::Icmpv4Code, L4::Icmp { code, .. }) => *code = low_8(value),
        (FieldId::Icmpv6Type, L4::Icmp6 { kind, .. }) => *kind = low_8(value),
        (FieldId::Icmpv6Code, L4::Icmp6 { code, .. }) => *code = low_8(value),
        (FieldId::Ipv6NdTarget, L4::Icmp6 { target, .. }) => set_target(value, target),
        _ => {}
    }
}

// Sets a field of the headers behind the EtherType, if they have the field.
fn set_upper(id: FieldId, value: u128, upper: &mut Upper)
    ensures { upper.new ≡ set_upper id value upper.old }
{
    match (id, upper) {
        (FieldId::ArpOp, Upper::Arp { op, .. }) => *op = low_16(value),
        (FieldId::ArpSpa, Upper::Arp { spa, .. }) => *spa = Ip4(low_32(value)),
        (FieldId::ArpTpa, Upper::Arp { tpa, .. }) => *tpa = Ip4(low_32(value)),
        (FieldId::IpProto, Upper::V4 { proto, .. }) => *proto = low_8(value),
        (FieldId::Ipv4Src, Upper::V4 { src, .. }) => *src = Ip4(low_32(value)),
        (FieldId::Ipv4Dst, Upper::V4 { dst, .. }) => *dst = Ip4(low_32(value)),
        (FieldId::IpProto, Upper::V6 { proto, .. }) => *proto = low_8(value),
        (FieldId::Ipv6Src, Upper::V6 { src, .. }) => *src = Ip6(low_128(value)),
        (FieldId::Ipv6Dst, Upper::V6 { dst, .. }) => *dst = Ip6(low_128(value)),
        (_, Upper::V4 { l4, .. }) => set_l4(id, value, l4),
        (_, Upper::V6 { l4, .. }) => set_l4(id, value, l4),
        _ => {}
    }
}

// Sets a field of a tag, if it is one of a tag's.
fn set_tag(id: FieldId, value: u128, tag: &mut Tag)
    ensures { tag.new ≡ set_tag id value tag.old }
{
    match id {
        FieldId::VlanVid => tag.vid = (value % 0x1000) as u16,
        FieldId::VlanPcp => tag.pcp = (value % 8) as u8,
        _ => {}
    }
}

// Sets a field of the outermost tag, if there is one.
fn set_tags(id: FieldId, value: u128, tags: &mut Tags)
    ensures { tags.new ≡ set_tags id value tags.old }
{
    if let [tag, ..] = tags.as_slice() {
        let mut tag = *tag;
        set_tag(id, value, &mut tag);
        tags.set(0, tag);
    }
}

// Sets a field of the packet, if it has the field.
fn set_value(id: FieldId, value: u128, packet: &mut Packet)
    ensures { packet.new ≡ set_value id value packet.old }
{
    match id {
        FieldId::EthDst => packet.dst = Mac::of_value(value),
        FieldId::EthSrc => packet.src = Mac::of_value(value),
        FieldId::EthType => packet.eth_type = low_16(value),
        _ => {
            set_tags(id, value, &mut packet.tags);
            set_upper(id, value, &mut packet.upper);
        }
    }
}

// Puts a new outermost tag in front.
fn push_tag(tpid: u16, tags: &mut Tags) -> Result<(), NoMemory>
    ensures { OnOk result (tags.new ≡ pushed tpid tags.old) }
{
    let (pcp, vid) = match tags.as_slice() {
        [] => (0, 0),
        [tag, ..] => (tag.pcp, tag.vid),
    };
    let tag = Tag {
        tpid,
        pcp,
        dei: false,
        vid,
    };
    tags.insert(0, tag)
}

// Takes the outermost tag off, if there is one.
fn pop_tag(tags: &mut Tags)
    ensures { tags.new ≡ popped tags.old }
{
    if !tags.is_empty() {
        tags.remove(0);
    }
}

// Lowers the TTL or hop limit by one; `false` where there is none, or it is 0 or 1.
fn lower_ttl(upper: &mut Upper) -> bool
    ensures { lowered upper.old ≡ (if result then Some upper.new else None) }
{
    match upper {
        Upper::V4 { ttl, .. } if *ttl >= 2 => {
            *ttl -= 1;
            true
        }
        Upper::V6 { hops, .. } if *hops >= 2 => {
            *hops -= 1;
            true
        }
        _ => false,
    }
}

// The packet that an action leaves; `None` where the packet ends.
fn left_by(action: &Action, mut packet: Packet) -> Result<Option<Packet>, NoMemory>
    ensures { IfOk result (λ left. left ≡ left_by action.now packet) }
{
    match action {
        Action::Output { .. } => {}
        Action::PushVlan(tpid) => push_tag(*tpid, &mut packet.tags)?,
        Action::PopVlan => pop_tag(&mut packet.tags),
        Action::DecTtl => {
            if !lower_ttl(&mut packet.upper) {
                return Ok(None);
            }
        }
        Action::Set(field) => set_value(field.id, field.value, &mut packet),
    }
    Ok(Some(packet))
}

// Adds what an action sends of a packet to what was sent.
fn send(
    alloc: Global,
    action: &Action,
    port: PortNo,
    packet: &Packet,
    outs: &mut Sents,
) -> Result<(), NoMemory>
    ensures ok { OnOk result (outs.new ≡ outs.old ++ sends_of action.now port packet.now) }
{
    let Action::Output { port: to, .. } = action else {
        return Ok(());
    };
    let to = if *to == IN_PORT {
        port.get()
    } else if *to == port.get() {
        return Ok(());
    } else {
        *to
    };
    let packet = packet.copy(alloc)?;
    outs.push(Sent { port: to, packet })
}

// Does the actions in order, and adds what they send to what was sent.
pub(crate) fn act_into(
    alloc: Global,
    actions: &[Action],
    port: PortNo,
    mut packet: Packet,
    outs: &mut Sents,
) -> Result<Option<Packet>, NoMemory>
    ensures left { IfOk result (λ left. left ≡ act_left actions.now packet) }
    ensures sent { OnOk result (outs.new ≡ outs.old ++ act_sends actions.now port packet) }
{
    for action in actions {
        send(alloc, action, port, &packet, outs)?;
        packet = match left_by(action, packet)? {
            Some(left) => left,
            None => return Ok(None),
        };
    }
    Ok(Some(packet))
}

/// Does the actions in order to a packet that came in by a port: what they send, and the packet
/// that is left. A field or a tag that the packet lacks is neither set nor taken off, and a
/// packet without a TTL or hop limit, or with one of 0 or 1, ends where it is to be lowered.
pub fn act(
    alloc: Global,
    actions: &[Action],
    port: PortNo,
    packet: &Packet,
) -> Result<Acted, NoMemory>
    ensures { IfOk result (λ acted. acted ≡ act actions.now port packet.now) }
{
    let mut sents = Sents::new(alloc);
    let left = act_into(alloc, actions, port, packet.copy(alloc)?, &mut sents)?;
    Ok(Acted { sents, left })
}
