ghost use Rattle.std.specs.Prelude.{◌≡◌, ◌++◌, ◌∷◌, [], if◌then◌else◌, OnOk};
ghost use Rattle.std.specs.Option.{option_map};
ghost use Rattle.neighbour_resolve.specs.Asks.{asks};
ghost use Rattle.ctl_world.specs.World.{running};
ghost use Rattle.law_names.specs.Dues.{due as change_of};
ghost use Rattle.ctl_settle.specs.Asked.{asked, with_asked};
ghost use Rattle.ctl_settle.specs.Touched.{Goes};
ghost use Rattle.ctl_settle.specs.Settling.{ask_all, ask_by, ask_by_each, ask_due, ask_each, ask_on, say_due};

use crate::order::in_order;
use crate::touched::Touched;
use conf_types::Ip;
use ctl_world::{World, packet_out};
use neighbour_resolve::{Due, Outgoing, ask};
use net_base::{DpId, NoMemory, Vid};
use std::alloc::Global;
use warm_plan::Change;

/// A datapath is told to send a frame that asks.
fn say_on(world: &mut World, dp: DpId, out: Outgoing) -> Result<(), NoMemory>
    ensures { OnOk result (world.new ≡ ask_on (record { dp = dp; out = out }) world.old) }
{
    match world.conns.of(dp) {
        Some(conn) => {
            let number = conn.number;
            world.say(number, packet_out(out))
        }
        None => Ok(()),
    }
}

/// A datapath of the group is told to ask.
fn ask_by(
    alloc: Global,
    world: &mut World,
    group: DpId,
    vid: Vid,
    ip: Ip,
    dp: DpId,
) -> Result<(), NoMemory>
    ensures { OnOk result (world.new ≡ ask_by group vid ip dp world.old) }
{
    if world.conf.group_number(dp) != group {
        return Ok(());
    }
    match ask(alloc, &world.conf, dp, vid, ip)? {
        Some(out) => say_on(world, dp, out),
        None => Ok(()),
    }
}

fn ask_by_each(
    alloc: Global,
    world: &mut World,
    group: DpId,
    vid: Vid,
    ip: Ip,
    dps: &[DpId],
) -> Result<(), NoMemory>
    ensures { OnOk result (world.new ≡ ask_by_each group vid ip dps.now world.old) }
{
    for dp in dps {
        ask_by(alloc, world, group, vid, ip, *dp)?;
    }
    Ok(())
}

/// A neighbour is asked for by each running datapath of its group, in order.
fn ask_for(alloc: Global, world: &mut World, group: DpId, vid: Vid, ip: Ip) -> Result<(), NoMemory>
    ensures { OnOk result (world.new ≡ ask_each (asks world.old.conf (running world.old) group vid ip) world.old) }
{
    let running = world.running(alloc)?;
    let dps = in_order(alloc, running.as_slice())?;
    ask_by_each(alloc, world, group, vid, ip, dps.as_slice())
}

/// Says what is to be said of a neighbour that is due.
fn say_due(alloc: Global, world: &mut World, due: Due) -> Result<(), NoMemory>
    ensures { OnOk result (world.new ≡ say_due due world.old) }
{
    match &due {
        Due::Ask { group, vid, ip } => ask_for(alloc, world, *group, *vid, *ip),
        Due::Gone { .. } => Ok(()),
    }
}

/// The neighbour that is due.
fn change_of(due: &Due) -> Change
    ensures { result ≡ change_of due.now }
{
    match due {
        Due::Ask { group, vid, ip } | Due::Gone { group, vid, ip } => Change::Neighbour {
            group: *group,
            vid: *vid,
            ip: *ip,
        },
    }
}

/// A neighbour that is lost is touched.
fn touch(touched: &mut Touched, due: &Due, is_lost: bool) -> Result<(), NoMemory>
    ensures { OnOk result (touched.new ≡ option_map (λ changes. changes ++ (if is_lost then change_of due.now ∷ [] else [])) touched.old) }
{
    if is_lost {
        touched.push(change_of(due))?;
    }
    Ok(())
}

/// Asks for the neighbours that are due, in their order, and gives up those that were asked too often. Those that
/// were known and aren't any more are touched.
pub(crate) fn ask_all(
    alloc: Global,
    world: &mut World,
    touched: &mut Touched,
) -> Result<(), NoMemory>
    ensures asked { OnOk result (world.new ≡ ask_all world.old) }
    ensures touched { OnOk result (touched.new ≡ with_asked world.old touched.old) }
    ensures goes { OnOk result (Goes world.old world.new touched.old touched.new) }
{
    let most = world.neighbours.list().len();
    ask_due(alloc, world, touched, most)
}

fn ask_due(
    alloc: Global,
    world: &mut World,
    touched: &mut Touched,
    most: usize,
) -> Result<(), NoMemory>
    ensures asked { OnOk result (world.new ≡ ask_due most world.old) }
    ensures touched { OnOk result (touched.new ≡ option_map (λ changes. changes ++ asked most world.old) touched.old) }
    ensures goes { OnOk result (Goes world.old world.new touched.old touched.new) }
{
    for _ in 0..most {
        let lost = world.neighbours.loses(world.moment);
        match world.neighbours.due(&world.conf, world.moment) {
            Some(due) => {
                touch(touched, &due, lost)?;
                say_due(alloc, world, due)?;
            }
            None => return Ok(()),
        }
    }
    Ok(())
}
