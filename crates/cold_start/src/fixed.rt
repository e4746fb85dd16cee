ghost use Rattle.std.specs.Prelude.{◌≡◌, [], ◌∷◌, ◌++◌, map, IfOk, OnOk};
ghost use Rattle.std.specs.List.{list_any};
ghost use Rattle.conf_types.specs.Lists.{is_same};
ghost use Rattle.plan_base.specs.Fields.{eth_src};
ghost use Rattle.plan_units.specs.Fixed.{drop, bridge_drops, lldp_drops, broadcast_drops, once, gateways, spoofed_drops, drops, from_group, pass, passes, fixed};

use conf_types::{Conf, Dp, Vlan};
use net_base::{Field, FieldId, Items, Mac, NoMemory};
use of_match::ether_type::LLDP;
use of_match::{Actions, Entries, Entry, Instrs};
use packet_way::{BRIDGE_GROUP, BROADCAST, PVST_GROUP};
use plan_base::{Table, eth_src, eth_type, group_src, leads_to, make_entry};
use std::alloc::Global;

fn push_drop(alloc: Global, out: &mut Entries, priority: u16, field: Field) -> Result<(), NoMemory>
    ensures { OnOk result (out.new ≡ out.old ++ drop priority field ∷ []) }
{
    let instrs = Instrs::new(alloc);
    out.push(make_entry(alloc, Table::Admission, priority, &[field], instrs)?)
}

/// What bridges say to each other, LLDP, and what comes from the broadcast address.
fn make_drops(alloc: Global, dp: &Dp) -> Result<Entries, NoMemory>
    ensures { IfOk result (λ made. made ≡ bridge_drops dp.now ++ (lldp_drops dp.now ++ broadcast_drops dp.now)) }
{
    let mut made = Entries::new(alloc);
    if dp.drop_bpdu {
        let pvst = Field::exact(FieldId::EthDst, PVST_GROUP);
        push_drop(alloc, &mut made, 33, pvst)?;
        let bridges = Field::exact(FieldId::EthDst, BRIDGE_GROUP);
        push_drop(alloc, &mut made, 33, bridges)?;
    }
    if dp.drop_lldp {
        push_drop(alloc, &mut made, 32, eth_type(LLDP))?;
    }
    if dp.drop_broadcast {
        let broadcast = Field::exact(FieldId::EthSrc, BROADCAST);
        push_drop(alloc, &mut made, 31, broadcast)?;
    }
    Ok(made)
}

fn is_same(a: Mac, b: Mac) -> bool
    ensures { result ≡ is_same a.0 b.0 }
{
    a == b
}

fn has_mac(macs: &[Mac], mac: Mac) -> bool
    ensures { result ≡ list_any (λ m. is_same m.0 mac.0) macs.now }
{
    macs.iter().any(|other| is_same(*other, mac))
}

/// The addresses of the gateways, each once.
#[tactic(auto, using(crate::proofs::Lists::gateways_more))]
fn make_gateways(alloc: Global, vlans: &[Vlan]) -> Result<Items<Mac>, NoMemory>
    ensures { IfOk result (λ made. made ≡ once (map (λ v. v.mac) vlans.now)) }
{
    let mut made = Items::new(alloc);
    for vlan in vlans {
        if !has_mac(made.as_slice(), vlan.mac) {
            made.push(vlan.mac)?;
        }
    }
    Ok(made)
}

fn push_spoofed(alloc: Global, out: &mut Entries, macs: &[Mac]) -> Result<(), NoMemory>
    ensures { OnOk result (out.new ≡ out.old ++ map (λ mac. drop 30 (eth_src mac)) macs.now) }
{
    for mac in macs {
        push_drop(alloc, out, 30, eth_src(*mac))?;
    }
    Ok(())
}

fn make_pass(alloc: Global, table: Table, next: Table) -> Result<Entry, NoMemory>
    ensures { IfOk result (λ made. made ≡ pass table next) }
{
    let instrs = leads_to(alloc, Actions::new(alloc), Some(next))?;
    make_entry(alloc, table, 0, &[], instrs)
}

/// A group address as the source, and what no other entry takes, goes on.
fn push_passes(alloc: Global, out: &mut Entries) -> Result<(), NoMemory>
    ensures { OnOk result (out.new ≡ out.old ++ from_group ∷ passes) }
{
    let instrs = leads_to(alloc, Actions::new(alloc), Some(Table::Ipv4Route))?;
    out.push(make_entry(alloc, Table::Source, 40, &[group_src()], instrs)?)?;
    out.push(make_pass(alloc, Table::Ipv4Route, Table::Ipv6Route)?)?;
    out.push(make_pass(alloc, Table::Ipv6Route, Table::Vip)?)?;
    out.push(make_pass(alloc, Table::Vip, Table::Destination)?)?;
    out.push(make_pass(alloc, Table::Destination, Table::Flood)?)
}

/// The entries of a datapath that stand once.
pub(crate) fn fixed_entries(alloc: Global, conf: &Conf, dp: &Dp) -> Result<Entries, NoMemory>
    ensures { IfOk result (λ made. made ≡ fixed conf.now dp.now) }
{
    let mut made = make_drops(alloc, dp)?;
    if dp.drop_spoofed {
        let macs = make_gateways(alloc, conf.vlans().as_slice())?;
        push_spoofed(alloc, &mut made, macs.as_slice())?;
    }
    push_passes(alloc, &mut made)?;
    Ok(made)
}
