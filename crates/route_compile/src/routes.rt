ghost use Rattle.std.specs.Prelude.{◌≡◌, ◌++◌, true, map, filter, IfOk, OnOk};
ghost use Rattle.conf_types.specs.Count.{counted};
ghost use Rattle.conf_types.specs.Families.{family_of, ip_value};
ghost use Rattle.plan_base.specs.Families.{IsFamily};
ghost use Rattle.plan_base.specs.Fields.{ip_dst};
ghost use Rattle.route_compile.specs.Routes.{packets_for, item_fields, led_to, route_table, item_entry, no_route, is_item_of, family_fib, fib};

use crate::gateways::has_gateway;
use conf_types::{Conf, Dp, Family, IPV4, IPV6, NeighRec, Tally, Vlan};
use net_base::{Field, Fields, NoMemory};
use of_match::{Actions, Entries, Entry, Instrs};
use packet_way::{RouteItem, Target, route_list};
use plan_base::{
    Table, dec_ttl, eth_dst, eth_type, ip_dst, leads_to, make_entry, set_eth_dst, set_eth_src,
    set_vid, to_controller, vid_field,
};
use std::alloc::Global;

/// The priority of what no item holds; that of an item is one more and the length of its prefix.
const NO_ROUTE_PRIORITY: u16 = 9;

/// Where an item of a route list leads.
fn make_led_to(alloc: Global, to: &Target) -> Result<Instrs, NoMemory>
    ensures { IfOk result (λ made. made ≡ led_to to.now) }
{
    match to {
        Target::Gateway => leads_to(alloc, Actions::new(alloc), Some(Table::Vip)),
        Target::Hop { vid, gateway, mac } => {
            let set = [
                set_eth_src(*gateway),
                set_eth_dst(*mac),
                set_vid(*vid),
                dec_ttl(),
            ];
            let actions = Actions::from_slice(alloc, &set)?;
            leads_to(alloc, actions, Some(Table::Destination))
        }
        Target::Network => {
            let actions = Actions::from_slice(alloc, &[to_controller()])?;
            leads_to(alloc, actions, None)
        }
    }
}

/// Where the family's routes stand.
fn route_table(family: Family) -> Table
    ensures { result ≡ route_table family }
{
    if family.width == 32 {
        Table::Ipv4Route
    } else {
        Table::Ipv6Route
    }
}

/// Packets of the family to the VLAN's gateway.
pub(crate) fn make_packets_for(
    alloc: Global,
    family: Family,
    vlan: &Vlan,
) -> Result<Fields, NoMemory>
    ensures { IfOk result (λ made. made ≡ packets_for family vlan.now) }
{
    let fields = [
        eth_dst(vlan.mac),
        eth_type(family.ether_type),
        vid_field(vlan.vid),
    ];
    Fields::from_slice(alloc, &fields)
}

/// The destinations that an item holds.
fn item_dst(item: &RouteItem) -> Option<Field>
    ensures { result ≡ ip_dst (family_of item.now.ip) (ip_value item.now.ip) item.now.len }
{
    ip_dst(&item.net())
}

/// Packets to the VLAN's gateway and an address that the item holds.
fn make_item_fields(alloc: Global, vlan: &Vlan, item: &RouteItem) -> Result<Fields, NoMemory>
    ensures { IfOk result (λ made. made ≡ item_fields (family_of item.now.ip) vlan.now item.now) }
{
    let mut fields = make_packets_for(alloc, item.ip.family(), vlan)?;
    if let Some(prefix) = item_dst(item) {
        fields.push(prefix)?;
    }
    Ok(fields)
}

fn make_item_entry(alloc: Global, vlan: &Vlan, item: &RouteItem) -> Result<Entry, NoMemory>
    ensures { IfOk result (λ made. made ≡ item_entry (family_of item.now.ip) vlan.now item.now) }
{
    let table = route_table(item.ip.family());
    let priority = 10 + u16::from(item.len);
    let fields = make_item_fields(alloc, vlan, item)?;
    let instrs = make_led_to(alloc, &item.to)?;
    make_entry(alloc, table, priority, fields.as_slice(), instrs)
}

/// The entry of an item of the family.
fn make_entry_of(
    alloc: Global,
    family: Family,
    vlan: &Vlan,
    item: &RouteItem,
) -> Result<Entry, NoMemory>
    requires one { IsFamily family }
    requires own { is_item_of family item.now ≡ true }
    ensures { IfOk result (λ made. made ≡ item_entry family vlan.now item.now) }
{
    make_item_entry(alloc, vlan, item)
}

fn is_item_of(family: Family, item: &RouteItem) -> bool
    ensures { result ≡ is_item_of family item.now }
{
    item.ip.family().width == family.width
}

/// The family's items.
fn push_items(
    alloc: Global,
    out: &mut Entries,
    family: Family,
    vlan: &Vlan,
    items: &[RouteItem],
) -> Result<(), NoMemory>
    requires { IsFamily family }
    ensures { OnOk result (out.new ≡ out.old ++ map (item_entry family vlan.now) (filter (is_item_of family) items.now)) }
{
    for item in items {
        if is_item_of(family, item) {
            out.push(make_entry_of(alloc, family, vlan, item)?)?;
        }
    }
    Ok(())
}

/// What no item holds ends.
fn make_no_route(alloc: Global, family: Family, vlan: &Vlan) -> Result<Entry, NoMemory>
    ensures { IfOk result (λ made. made ≡ no_route family vlan.now) }
{
    let table = route_table(family);
    let fields = make_packets_for(alloc, family, vlan)?;
    let instrs = Instrs::new(alloc);
    make_entry(alloc, table, NO_ROUTE_PRIORITY, fields.as_slice(), instrs)
}

/// The family's table.
fn push_family(
    alloc: Global,
    out: &mut Entries,
    family: Family,
    vlan: &Vlan,
    items: &[RouteItem],
) -> Result<(), NoMemory>
    requires { IsFamily family }
    ensures { OnOk result (out.new ≡ out.old ++ family_fib family vlan.now items.now) }
{
    push_items(alloc, out, family, vlan, items)?;
    out.push(make_no_route(alloc, family, vlan)?)
}

/// The flow entries of tables 4 and 5 for a VLAN on a datapath, but the ones that lead on: where the
/// VLAN's gateway sends packets of IPv4 and of IPv6, by the neighbours that are resolved. One unit of
/// work is counted.
pub fn fib_entries<T: Tally>(
    alloc: Global,
    conf: &Conf,
    dp: &Dp,
    vlan: &Vlan,
    neighbours: &[NeighRec],
    units: &mut T,
) -> Result<Entries, NoMemory>
    ensures entries { IfOk result (λ made. made ≡ fib conf.now neighbours.now dp.now vlan.now) }
    ensures unit { T.count units.new ≡ counted (T.count units.old) }
{
    units.tick();
    let mut made = Entries::new(alloc);
    if has_gateway(dp, vlan) {
        let group = conf.group_number(dp.id);
        let items = route_list(alloc, conf, neighbours, group, vlan.vid)?;
        push_family(alloc, &mut made, IPV4, vlan, items.as_slice())?;
        push_family(alloc, &mut made, IPV6, vlan, items.as_slice())?;
    }
    Ok(made)
}
