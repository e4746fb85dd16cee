ghost use Rattle.std.specs.Prelude.{◌≡◌, ◌++◌, map, filter, IfOk, OnOk};
ghost use Rattle.std.specs.List.{list_any};
ghost use Rattle.stack_paths.specs.Chosen.{is_tree_port};
ghost use Rattle.conf_types.specs.Count.{counted};
ghost use Rattle.conf_types.specs.Membership.{is_mirrored};
ghost use Rattle.vlan_compile.specs.declared.flood.Ingress.TheVariants.{At};
ghost use Rattle.vlan_compile.specs.Floods.{flood_priority, from_fields, to_fields, is_apart, has_flooded, floods};
ghost use Rattle.vlan_compile.specs.Targets.{target_entry, target_floods};

use crate::flood::{Flood, Ingress};
use crate::targets::{Targets, find_targets, flood_actions};
use conf_types::{Conf, Dp, Port, Tally, Vlan};
use net_base::{Fields, NoMemory, PortNo, Vid};
use of_match::{Entries, Entry};
use plan_base::{Table, group_dst, in_port, leads_to, make_entry, vid_field};
use stack_paths::Paths;
use std::alloc::Global;

fn flood_priority(flood: Flood, from: &Ingress) -> u16
    ensures { result ≡ flood_priority flood from.now }
{
    match (flood, from) {
        (Flood::Group, Ingress::At(_)) => 40,
        (Flood::Group, Ingress::Any) => 30,
        (Flood::Unicast, Ingress::At(_)) => 20,
        (Flood::Unicast, Ingress::Any) => 10,
    }
}

fn flood_fields(alloc: Global, flood: Flood, from: &Ingress, vid: Vid) -> Result<Fields, NoMemory>
    ensures { IfOk result (λ made. made ≡ from_fields from.now ++ to_fields flood vid) }
{
    let mut fields = Fields::new(alloc);
    if let Ingress::At(ingress) = from {
        fields.push(in_port(*ingress))?;
    }
    if let Flood::Group = flood {
        fields.push(group_dst())?;
    }
    fields.push(vid_field(vid))?;
    Ok(fields)
}

fn make_flood_entry(
    alloc: Global,
    vlan: &Vlan,
    flood: Flood,
    from: &Ingress,
    found: &Targets,
) -> Result<Entry, NoMemory>
    ensures { IfOk result (λ made. made ≡ target_entry vlan.now flood from.now found.now) }
{
    let fields = flood_fields(alloc, flood, from, vlan.vid)?;
    let actions = flood_actions(alloc, vlan, flood, from, found)?;
    let instrs = leads_to(alloc, actions, None)?;
    let priority = flood_priority(flood, from);
    make_entry(alloc, Table::Flood, priority, fields.as_slice(), instrs)
}

/// Whether some interface mirrors the port with this number, enabled or not.
fn is_mirrored(dp: &Dp, port: PortNo) -> bool
    ensures { result ≡ is_mirrored dp.now port }
{
    dp.ports
        .as_slice()
        .iter()
        .any(|mirror| mirror.is_mirror_of(port))
}

/// Whether what comes in by a port has entries of its own.
fn is_apart(dp: &Dp, vlan: &Vlan, port: &Port) -> bool
    ensures { result ≡ is_apart dp.now vlan.now port.now }
{
    port.is_accepting()
        && port.is_edge_member(vlan.vid)
        && (port.hairpin || is_mirrored(dp, port.no))
}

fn has_tree_port(paths: &Paths, dp: &Dp) -> bool
    ensures { result ≡ list_any (λ q. is_tree_port paths.now dp.now.id q.no) dp.now.ports }
{
    dp.ports
        .as_slice()
        .iter()
        .any(|port| paths.is_tree_port(dp.id, port.no))
}

fn has_flooded(paths: &Paths, dp: &Dp, vlan: &Vlan) -> bool
    ensures { result ≡ has_flooded paths.now dp.now vlan.now }
{
    dp.has_edge_member(vlan.vid) || has_tree_port(paths, dp)
}

/// The entries of a flood for what comes in by the ports that have their own.
fn push_apart(
    alloc: Global,
    made: &mut Entries,
    dp: &Dp,
    vlan: &Vlan,
    flood: Flood,
    found: &Targets,
) -> Result<(), NoMemory>
    ensures { OnOk result (made.new ≡ made.old
        ++ map (λ i. target_entry vlan.now flood (At i.no) found.now) (filter (is_apart dp.now vlan.now) dp.now.ports)) }
{
    for port in dp.ports.as_slice() {
        if is_apart(dp, vlan, port) {
            made.push(make_flood_entry(alloc, vlan, flood, &Ingress::At(port.no), found)?)?;
        }
    }
    Ok(())
}

fn push_floods(
    alloc: Global,
    made: &mut Entries,
    paths: &Paths,
    dp: &Dp,
    vlan: &Vlan,
    flood: Flood,
    found: &Targets,
) -> Result<(), NoMemory>
    ensures { OnOk result (made.new ≡ made.old ++ target_floods paths.now dp.now vlan.now flood found.now) }
{
    if has_flooded(paths, dp, vlan) {
        made.push(make_flood_entry(alloc, vlan, flood, &Ingress::Any, found)?)?;
    }
    push_apart(alloc, made, dp, vlan, flood, found)
}

/// The flow entries of table 8 for a VLAN on a datapath: its floods, of groups at the priorities 30 and
/// 40, and of single addresses that aren't known at 10 and 20. The higher of two are for what comes in by
/// a port with `hairpin` or mirrors. One unit of work is counted.
#[tactic(auto, using(crate::proofs::FloodLemmas::floods_are))]
pub fn flood_entries<T: Tally>(
    alloc: Global,
    _conf: &Conf,
    dp: &Dp,
    vlan: &Vlan,
    paths: &Paths,
    units: &mut T,
) -> Result<Entries, NoMemory>
    ensures entries { IfOk result (λ made. made ≡ floods dp.now vlan.now paths.now) }
    ensures unit { T.count units.new ≡ counted (T.count units.old) }
{
    units.tick();
    let mut made = Entries::new(alloc);
    let found = find_targets(alloc, paths, dp, vlan)?;
    push_floods(alloc, &mut made, paths, dp, vlan, Flood::Unicast, &found)?;
    push_floods(alloc, &mut made, paths, dp, vlan, Flood::Group, &found)?;
    Ok(made)
}
