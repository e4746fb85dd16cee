ghost use Rattle.std.specs.Prelude.{◌≡◌, ◌++◌, ◌∷◌, [], map, IfOk, OnOk};
ghost use Rattle.conf_types.specs.Count.{counted};
ghost use Rattle.route_compile.specs.Routes.{packets_for};
ghost use Rattle.route_compile.specs.Vips.{only_to_controller, asking_for, asked_entry, echo_entry, echo6_entry, advert_entry, heard_entry, end_entry, messages, vip_slice};

use crate::gateways::{
    ADVERTISEMENT, ECHO_REQUEST, ECHO_REQUEST6, ICMP, ICMP6, SOLICITATION, has_gateway,
};
use crate::routes::make_packets_for;
use conf_types::{Conf, Dp, Family, IPV4, IPV6, Ip, Net, Tally, Vlan};
use net_base::{Field, Fields, NoMemory, Vid};
use of_match::ether_type::ARP;
use of_match::{Actions, Entries, Entry, Instrs};
use plan_base::{
    Table, arp_tpa, eth_dst, eth_type, icmpv4_type, icmpv6_type, ip_proto, leads_to, make_entry,
    nd_target, to_controller, vid_field,
};
use std::alloc::Global;

fn make_only_to_controller(alloc: Global) -> Result<Instrs, NoMemory>
    ensures { IfOk result (λ made. made ≡ only_to_controller) }
{
    let actions = Actions::from_slice(alloc, &[to_controller()])?;
    leads_to(alloc, actions, None)
}

/// Who asks for an address in a VLAN.
fn make_asking_for(alloc: Global, vid: Vid, ip: Ip) -> Result<Fields, NoMemory>
    ensures { IfOk result (λ made. made ≡ asking_for vid ip) }
{
    match ip {
        Ip::V4(ip) => Fields::from_slice(alloc, &[eth_type(ARP), vid_field(vid), arp_tpa(ip)]),
        Ip::V6(ip) => {
            let fields = [
                eth_type(IPV6.ether_type),
                vid_field(vid),
                ip_proto(ICMP6),
                icmpv6_type(SOLICITATION),
                nd_target(ip),
            ];
            Fields::from_slice(alloc, &fields)
        }
    }
}

/// Who asks for a VIP.
fn make_asked_entry(alloc: Global, vlan: &Vlan, vip: &Net) -> Result<Entry, NoMemory>
    ensures { IfOk result (λ made. made ≡ asked_entry vlan.now vip.now) }
{
    let fields = make_asking_for(alloc, vlan.vid, vip.address())?;
    let instrs = make_only_to_controller(alloc)?;
    make_entry(alloc, Table::Vip, 30, fields.as_slice(), instrs)
}

fn push_asked_entries(
    alloc: Global,
    out: &mut Entries,
    vlan: &Vlan,
    vips: &[Net],
) -> Result<(), NoMemory>
    ensures { OnOk result (out.new ≡ out.old ++ map (asked_entry vlan.now) vips.now) }
{
    for vip in vips {
        out.push(make_asked_entry(alloc, vlan, vip)?)?;
    }
    Ok(())
}

/// Packets of the family to the gateway that have two fields more.
fn make_message(
    alloc: Global,
    family: Family,
    vlan: &Vlan,
    more: &[Field],
) -> Result<Fields, NoMemory>
    ensures { IfOk result (λ made. made ≡ packets_for family vlan.now ++ more.now) }
{
    let mut fields = make_packets_for(alloc, family, vlan)?;
    fields.append(more)?;
    Ok(fields)
}

/// An echo request for a VIP.
fn make_echo_entry(alloc: Global, vlan: &Vlan) -> Result<Entry, NoMemory>
    ensures { IfOk result (λ made. made ≡ echo_entry vlan.now) }
{
    let message = [ip_proto(ICMP), icmpv4_type(ECHO_REQUEST)];
    let fields = make_message(alloc, IPV4, vlan, &message)?;
    let instrs = make_only_to_controller(alloc)?;
    make_entry(alloc, Table::Vip, 30, fields.as_slice(), instrs)
}

/// The same of ICMPv6.
fn make_echo6_entry(alloc: Global, vlan: &Vlan) -> Result<Entry, NoMemory>
    ensures { IfOk result (λ made. made ≡ echo6_entry vlan.now) }
{
    let message = [ip_proto(ICMP6), icmpv6_type(ECHO_REQUEST6)];
    let fields = make_message(alloc, IPV6, vlan, &message)?;
    let instrs = make_only_to_controller(alloc)?;
    make_entry(alloc, Table::Vip, 30, fields.as_slice(), instrs)
}

/// A neighbour's advertisement.
fn make_advert_entry(alloc: Global, vlan: &Vlan) -> Result<Entry, NoMemory>
    ensures { IfOk result (λ made. made ≡ advert_entry vlan.now) }
{
    let message = [ip_proto(ICMP6), icmpv6_type(ADVERTISEMENT)];
    let fields = make_message(alloc, IPV6, vlan, &message)?;
    let instrs = make_only_to_controller(alloc)?;
    make_entry(alloc, Table::Vip, 20, fields.as_slice(), instrs)
}

/// Other ARP to the gateway.
fn make_heard_entry(alloc: Global, vlan: &Vlan) -> Result<Entry, NoMemory>
    ensures { IfOk result (λ made. made ≡ heard_entry vlan.now) }
{
    let fields = [eth_dst(vlan.mac), eth_type(ARP), vid_field(vlan.vid)];
    let instrs = make_only_to_controller(alloc)?;
    make_entry(alloc, Table::Vip, 20, &fields, instrs)
}

/// Everything else to the gateway ends.
fn make_end_entry(alloc: Global, vlan: &Vlan) -> Result<Entry, NoMemory>
    ensures { IfOk result (λ made. made ≡ end_entry vlan.now) }
{
    let fields = [eth_dst(vlan.mac), vid_field(vlan.vid)];
    make_entry(alloc, Table::Vip, 10, &fields, Instrs::new(alloc))
}

/// Echo requests of both families.
fn push_echoes(alloc: Global, out: &mut Entries, vlan: &Vlan) -> Result<(), NoMemory>
    ensures { OnOk result (out.new ≡ out.old ++ echo_entry vlan.now ∷ echo6_entry vlan.now ∷ []) }
{
    out.push(make_echo_entry(alloc, vlan)?)?;
    out.push(make_echo6_entry(alloc, vlan)?)
}

/// What else is heard, and the end.
fn push_others(alloc: Global, out: &mut Entries, vlan: &Vlan) -> Result<(), NoMemory>
    ensures { OnOk result (out.new ≡ out.old ++ advert_entry vlan.now ∷ heard_entry vlan.now ∷ end_entry vlan.now ∷ []) }
{
    out.push(make_advert_entry(alloc, vlan)?)?;
    out.push(make_heard_entry(alloc, vlan)?)?;
    out.push(make_end_entry(alloc, vlan)?)
}

fn push_messages(alloc: Global, out: &mut Entries, vlan: &Vlan) -> Result<(), NoMemory>
    ensures { OnOk result (out.new ≡ out.old ++ messages vlan.now) }
{
    push_echoes(alloc, out, vlan)?;
    push_others(alloc, out, vlan)
}

/// The flow entries of table 6 for a VLAN on a datapath, but the one that leads on: what the
/// controller answers for the VLAN's gateway. One unit of work is counted.
pub fn vip_entries<T: Tally>(
    alloc: Global,
    _conf: &Conf,
    dp: &Dp,
    vlan: &Vlan,
    units: &mut T,
) -> Result<Entries, NoMemory>
    ensures entries { IfOk result (λ made. made ≡ vip_slice dp.now vlan.now) }
    ensures unit { T.count units.new ≡ counted (T.count units.old) }
{
    units.tick();
    let mut made = Entries::new(alloc);
    if has_gateway(dp, vlan) {
        push_asked_entries(alloc, &mut made, vlan, vlan.vips.as_slice())?;
        push_messages(alloc, &mut made, vlan)?;
    }
    Ok(made)
}
