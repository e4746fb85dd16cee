//! What changes reach of a datapath's plan, worked out once for each change.

ghost use Rattle.std.specs.Prelude.{◌≡◌, ◌==◌, map, false, IfOk, if◌then◌else◌};
ghost use Rattle.std.specs.Option.{option_map_or};
ghost use Rattle.conf_types.specs.Configuration.{port_at};
ghost use Rattle.conf_types.specs.Groups.{group_of};
ghost use Rattle.conf_types.specs.Membership.{is_stack};
ghost use Rattle.law_units.specs.Reached.{is_other};
ghost use Rattle.warm_plan.specs.declared.effect.Effect.TheVariants.{Stack, Nothing};
ghost use Rattle.warm_plan.specs.Effects.{host_effect, effect_of};
ghost use Rattle.warm_plan.specs.Places.{kept_places};

use crate::stood::{Stood, is_full_in, is_table_full, port_in};
use conf_types::{Change, Conf, Dp};
use host_list::Hosts;
use net_base::{DpId, Mac, NoMemory, PortNo, Vid};
use std::alloc::Global;

/// What a change of a host reaches. Where it isn't of the datapath's group, only what is full counts.
#[derive(Clone, Copy, Debug)]
pub(crate) struct HostEffect {
    pub(crate) vid: Vid,
    pub(crate) mac: Mac,
    /// It is a host of the datapath's group.
    pub(crate) is_ours: bool,
    /// The port of the datapath at which the group's host of this address stood, and the one at which it
    /// stands.
    pub(crate) stood: Option<PortNo>,
    pub(crate) stands: Option<PortNo>,
    /// The VLAN fills in the group, or has room again.
    pub(crate) turns_vlan: bool,
    /// All hosts together are as many as may be, or have room again.
    pub(crate) turns_table: bool,
}

/// What a change reaches.
#[derive(Clone, Copy, Debug)]
pub(crate) enum Effect {
    Nothing,
    Host(HostEffect),
    /// Each VLAN and each host.
    Stack,
    /// The routes of each VLAN whose routing set has this one.
    Routes(Vid),
}

fn is_other(a: bool, b: bool) -> bool
    ensures { result ≡ is_other a b }
{
    if a { !b } else { b }
}

fn host_effect(
    conf: &Conf,
    dp: &Dp,
    old: &Stood,
    new: &Hosts,
    group: DpId,
    vid: Vid,
    mac: Mac,
) -> HostEffect
    ensures { result ≡ host_effect conf.now dp.now (kept_places old.now) new.now group vid mac }
{
    HostEffect {
        vid,
        mac,
        is_ours: group == conf.group_number(dp.id),
        stood: old.port(vid, mac),
        stands: port_in(conf, dp, new, vid, mac),
        turns_vlan: is_other(old.is_full(vid), is_full_in(conf, dp, new, vid)),
        turns_table: is_other(old.is_table_full, is_table_full(new)),
    }
}

/// Whether another datapath is of the datapath's group.
fn is_near(conf: &Conf, dp: &Dp, other: DpId) -> bool
    ensures { result ≡ ((group_of conf.now other).0 == (group_of conf.now dp.now.id).0) }
{
    conf.group_number(other) == conf.group_number(dp.id)
}

pub(crate) fn is_stack_port(conf: &Conf, dp: DpId, no: PortNo) -> bool
    ensures { result ≡ option_map_or is_stack (port_at conf.now dp no) false }
{
    match conf.port(dp, no) {
        Some(port) => port.is_stack(),
        None => false,
    }
}

fn if_linked(linked: bool) -> Effect
    ensures { result ≡ (if linked then Stack else Nothing) }
{
    if linked {
        Effect::Stack
    } else {
        Effect::Nothing
    }
}

fn effect_of(conf: &Conf, dp: &Dp, old: &Stood, new: &Hosts, change: &Change) -> Effect
    ensures { result ≡ effect_of conf.now dp.now (kept_places old.now) new.now change.now }
{
    match change {
        Change::Host { group, vid, mac } => {
            Effect::Host(host_effect(conf, dp, old, new, *group, *vid, *mac))
        }
        Change::Port { dp: end, port } => {
            if_linked(is_near(conf, dp, *end) && is_stack_port(conf, *end, *port))
        }
        Change::Dp(other) => if_linked(is_near(conf, dp, *other)),
        Change::Neighbour { group, vid, ip: _ } => {
            if *group == conf.group_number(dp.id) {
                Effect::Routes(*vid)
            } else {
                Effect::Nothing
            }
        }
    }
}

/// What each change reaches, by what was kept of the hosts that were, and the hosts that are.
pub(crate) fn effects(
    alloc: Global,
    conf: &Conf,
    dp: &Dp,
    old: &Stood,
    new: &Hosts,
    changes: &[Change],
) -> Result<Vec<Effect>, NoMemory>
    ensures { IfOk result (λ made. made.items ≡ map (effect_of conf.now dp.now (kept_places old.now) new.now) changes.now) }
{
    changes
        .iter()
        .map(|change| effect_of(conf, dp, old, new, change))
        .collect(alloc)
}
