//! The VLANs in order, those among them that numbers name.

ghost use Rattle.std.specs.Prelude.{◌≡◌, [], ◌∷◌, ◌++◌, codes, map, IfOk, OnOk};
ghost use Rattle.std.specs.List.{flat_map};
ghost use Rattle.std.specs.Option.{option_map_or};
ghost use Rattle.conf_resolve.specs.InOrder.{port_site, router_site, bgp_site, written, by_number, by_numbers, of_port, of_router, named_by_dps, named_by_routers, vlans_by};
ghost use Rattle.conf_resolve.specs.Added.{with_each};

use crate::collected::CollectedVlans;
use crate::made::{add_named, add_numbers, under};
use crate::order::in_order;
use crate::ordered::{PlacedVlan, PlacedVlans};
use conf_shape::{RawDp, RawPort, RawRouter, RawVlan, VlanRef};
use net_base::{Names, NoMemory, Text, TryCopy};
use std::alloc::Global;

/// An entry of a section of the document.
fn top_site(alloc: Global, section: &str, key: &Text) -> Result<Names, NoMemory>
    ensures { IfOk result (λ site. site ≡ section.now ∷ key.now ∷ []) }
{
    let mut site = Names::new(alloc);
    site.push(Text::from_str(alloc, section)?)?;
    site.push(key.copy(alloc)?)?;
    Ok(site)
}

fn port_site(alloc: Global, dp: &RawDp, port: &RawPort) -> Result<Names, NoMemory>
    ensures { IfOk result (λ site. site ≡ port_site dp.now port.now) }
{
    let site = top_site(alloc, "dps", &dp.names.key)?;
    let mut site = under(alloc, &site, "interfaces")?;
    site.push(port.names.key.copy(alloc)?)?;
    Ok(site)
}

fn add_native(
    alloc: Global,
    vlans: &mut CollectedVlans,
    site: &Names,
    native: &Option<VlanRef>,
) -> Result<(), NoMemory>
    ensures { OnOk result (vlans.new ≡ with_each vlans.old (option_map_or (by_number (site.now ++ codes "native_vlan" ∷ [])) native.now [])) }
{
    match native {
        Some(name) => add_named(alloc, vlans, site, "native_vlan", name),
        None => Ok(()),
    }
}

fn add_port(
    alloc: Global,
    vlans: &mut CollectedVlans,
    dp: &RawDp,
    port: &RawPort,
) -> Result<(), NoMemory>
    ensures { OnOk result (vlans.new ≡ with_each vlans.old (of_port dp.now port.now)) }
{
    let site = port_site(alloc, dp, port)?;
    add_native(alloc, vlans, &site, &port.native)?;
    let list = under(alloc, &site, "tagged_vlans")?;
    add_numbers(alloc, vlans, &list, port.tagged.as_slice())
}

fn add_ports(
    alloc: Global,
    vlans: &mut CollectedVlans,
    dp: &RawDp,
    ports: &[RawPort],
) -> Result<(), NoMemory>
    ensures { OnOk result (vlans.new ≡ with_each vlans.old (flat_map (of_port dp.now) ports.now)) }
{
    for port in ports {
        add_port(alloc, vlans, dp, port)?;
    }
    Ok(())
}

fn add_dps(alloc: Global, vlans: &mut CollectedVlans, dps: &[RawDp]) -> Result<(), NoMemory>
    ensures { OnOk result (vlans.new ≡ with_each vlans.old (named_by_dps dps.now)) }
{
    for dp in dps {
        add_ports(alloc, vlans, dp, dp.ports.as_slice())?;
    }
    Ok(())
}

fn add_peer(alloc: Global, vlans: &mut CollectedVlans, router: &RawRouter) -> Result<(), NoMemory>
    ensures { OnOk result (vlans.new ≡ with_each vlans.old (option_map_or (λ bgp. by_number (bgp_site router.now) bgp.vlan) router.now.bgp [])) }
{
    let site = top_site(alloc, "routers", &router.name)?;
    match &router.bgp {
        Some(bgp) => {
            let site = under(alloc, &site, "bgp")?;
            add_named(alloc, vlans, &site, "vlan", &bgp.vlan)
        }
        None => Ok(()),
    }
}

fn add_routed(alloc: Global, vlans: &mut CollectedVlans, router: &RawRouter) -> Result<(), NoMemory>
    ensures { OnOk result (vlans.new ≡ with_each vlans.old (by_numbers (router_site router.now ++ codes "vlans" ∷ []) router.now.vlans)) }
{
    let site = top_site(alloc, "routers", &router.name)?;
    let list = under(alloc, &site, "vlans")?;
    add_numbers(alloc, vlans, &list, router.vlans.as_slice())
}

fn add_router(alloc: Global, vlans: &mut CollectedVlans, router: &RawRouter) -> Result<(), NoMemory>
    ensures { OnOk result (vlans.new ≡ with_each vlans.old (of_router router.now)) }
{
    add_routed(alloc, vlans, router)?;
    add_peer(alloc, vlans, router)
}

fn add_routers(
    alloc: Global,
    vlans: &mut CollectedVlans,
    routers: &[RawRouter],
) -> Result<(), NoMemory>
    ensures { OnOk result (vlans.new ≡ with_each vlans.old (named_by_routers routers.now)) }
{
    for router in routers {
        add_router(alloc, vlans, router)?;
    }
    Ok(())
}

fn written(alloc: Global, vlan: &RawVlan) -> Result<PlacedVlan, NoMemory>
    ensures { IfOk result (λ made. made ≡ written vlan.now) }
{
    Ok(PlacedVlan {
        site: top_site(alloc, "vlans", &vlan.names.key)?,
        vlan: vlan.copy(alloc)?,
    })
}

fn all_written(alloc: Global, vlans: &[RawVlan]) -> Result<CollectedVlans, NoMemory>
    ensures { IfOk result (λ made. made ≡ map written vlans.now) }
{
    let mut made = CollectedVlans::new(alloc);
    for vlan in vlans {
        made.push(written(alloc, vlan)?)?;
    }
    Ok(made)
}

/// The VLANs by their numbers: those that are written, and those that numbers name in these
/// datapaths and routers.
pub fn vlans_by(
    alloc: Global,
    vlans: &[RawVlan],
    dps: &[RawDp],
    routers: &[RawRouter],
) -> Result<PlacedVlans, NoMemory>
    ensures { IfOk result (λ made. made ≡ vlans_by vlans.now dps.now routers.now) }
{
    let mut made = all_written(alloc, vlans)?;
    add_dps(alloc, &mut made, dps)?;
    add_routers(alloc, &mut made, routers)?;
    PlacedVlans::new(alloc, in_order(made.into_items())?)
}
