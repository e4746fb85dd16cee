ghost use Rattle.std.specs.Prelude.{◌≡◌, ◌++◌, IfOk, OnOk};
ghost use Rattle.vlan_compile.specs.Floods.{is_for, is_flooded, by_port, popped, is_in};
ghost use Rattle.vlan_compile.specs.Targets.{target, is_on_side, targets_on, targets, is_reached, by_target, by_targets, target_actions};

use crate::flood::{Flood, Ingress};
use conf_types::{Dp, Port, Vlan};
use net_base::{Items, NoMemory, PortNo, Vid};
use of_match::{Action, Actions};
use plan_base::{out, pop_tag, push_mirrored, to_ingress};
use stack_paths::Paths;
use std::alloc::Global;

/// A port that gets floods of a VLAN.
#[derive(Debug, Drop)]
pub(crate) struct Target {
    port: PortNo,
    hairpin: bool,
    /// It gets packets to single addresses too.
    gets_unicast: bool,
    /// What is sent of it by those that mirror it.
    copies: Actions,
}

/// The ports that get floods of a VLAN.
#[derive(Debug, Drop)]
pub(crate) struct Targets {
    /// Where packets of the VLAN have a tag.
    tagged: Items<Target>,
    /// Where they have none.
    native: Items<Target>,
}

fn is_for(flood: Flood, port: &Port) -> bool
    ensures { result ≡ is_for flood port.now }
{
    match flood {
        Flood::Group => true,
        Flood::Unicast => port.unicast_flood,
    }
}

/// Whether an interface gets the VLAN's floods.
fn is_flooded(paths: &Paths, dp: &Dp, vlan: &Vlan, flood: Flood, port: &Port) -> bool
    ensures { result ≡ is_flooded paths.now dp.now vlan.now flood port.now }
{
    (port.is_edge_member(vlan.vid) && is_for(flood, port)) || paths.is_tree_port(dp.id, port.no)
}

fn is_on_side(native: bool, vid: Vid, port: &Port) -> bool
    ensures { result ≡ is_on_side native vid port.now }
{
    if native {
        port.is_native_in(vid)
    } else {
        !port.is_native_in(vid)
    }
}

fn make_target(
    alloc: Global,
    paths: &Paths,
    dp: &Dp,
    vlan: &Vlan,
    port: &Port,
) -> Result<Target, NoMemory>
    ensures { IfOk result (λ made. made ≡ target paths.now dp.now vlan.now port.now) }
{
    let mut copies = Actions::new(alloc);
    push_mirrored(&mut copies, dp, port.no)?;
    Ok(Target {
        port: port.no,
        hairpin: port.hairpin,
        gets_unicast: is_flooded(paths, dp, vlan, Flood::Unicast, port),
        copies,
    })
}

/// The ports on one side: those where the VLAN is native, or the others.
fn targets_on(
    alloc: Global,
    paths: &Paths,
    dp: &Dp,
    vlan: &Vlan,
    native: bool,
) -> Result<Items<Target>, NoMemory>
    ensures { IfOk result (λ made. made ≡ targets_on paths.now dp.now vlan.now native) }
{
    let mut made = Items::new(alloc);
    for port in dp.ports.as_slice() {
        if is_flooded(paths, dp, vlan, Flood::Group, port) && is_on_side(native, vlan.vid, port) {
            made.push(make_target(alloc, paths, dp, vlan, port)?)?;
        }
    }
    Ok(made)
}

/// The ports of a datapath that get floods of a VLAN.
pub(crate) fn find_targets(
    alloc: Global,
    paths: &Paths,
    dp: &Dp,
    vlan: &Vlan,
) -> Result<Targets, NoMemory>
    ensures { IfOk result (λ made. made ≡ targets paths.now dp.now vlan.now) }
{
    Ok(Targets {
        tagged: targets_on(alloc, paths, dp, vlan, false)?,
        native: targets_on(alloc, paths, dp, vlan, true)?,
    })
}

fn is_reached(flood: Flood, from: &Ingress, target: &Target) -> bool
    ensures { result ≡ is_reached flood from.now target.now }
{
    let gets = match flood {
        Flood::Group => true,
        Flood::Unicast => target.gets_unicast,
    };
    let leaves = match from {
        Ingress::At(ingress) => target.port.get() != ingress.get() || target.hairpin,
        Ingress::Any => true,
    };
    gets && leaves
}

fn by_port(from: &Ingress, port: PortNo) -> Action
    ensures { result ≡ by_port from.now port }
{
    match from {
        Ingress::At(ingress) if port.get() == ingress.get() => to_ingress(),
        _ => out(port),
    }
}

fn push_by_target(
    actions: &mut Actions,
    flood: Flood,
    from: &Ingress,
    target: &Target,
) -> Result<(), NoMemory>
    ensures { OnOk result (actions.new ≡ actions.old ++ by_target flood from.now target.now) }
{
    if !is_reached(flood, from, target) {
        return Ok(());
    }
    actions.push(by_port(from, target.port))?;
    actions.append(target.copies.as_slice())
}

fn by_targets(
    alloc: Global,
    flood: Flood,
    from: &Ingress,
    targets: &[Target],
) -> Result<Actions, NoMemory>
    ensures { IfOk result (λ made. made ≡ by_targets flood from.now targets.now) }
{
    let mut actions = Actions::new(alloc);
    for target in targets {
        push_by_target(&mut actions, flood, from, target)?;
    }
    Ok(actions)
}

/// The same actions without the tag, where there are any.
fn push_popped(actions: &mut Actions, untagged: &Actions) -> Result<(), NoMemory>
    ensures { OnOk result (actions.new ≡ actions.old ++ popped untagged.now) }
{
    if !untagged.is_empty() {
        actions.push(pop_tag())?;
    }
    actions.append(untagged.as_slice())
}

fn is_in(flood: Flood, vlan: &Vlan) -> bool
    ensures { result ≡ is_in flood vlan.now }
{
    match flood {
        Flood::Group => true,
        Flood::Unicast => vlan.unicast_flood,
    }
}

/// What a flood does: by the ports that have a tag, and then by those that have none.
pub(crate) fn flood_actions(
    alloc: Global,
    vlan: &Vlan,
    flood: Flood,
    from: &Ingress,
    found: &Targets,
) -> Result<Actions, NoMemory>
    ensures { IfOk result (λ made. made ≡ target_actions vlan.now flood from.now found.now) }
{
    if !is_in(flood, vlan) {
        return Ok(Actions::new(alloc));
    }
    let mut actions = by_targets(alloc, flood, from, found.tagged.as_slice())?;
    let untagged = by_targets(alloc, flood, from, found.native.as_slice())?;
    push_popped(&mut actions, &untagged)?;
    Ok(actions)
}
