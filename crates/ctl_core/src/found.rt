//! What may differ behind a frame.

ghost use Rattle.std.specs.Prelude.{◌≡◌, ◌∷◌, [], Some, IfOk};
ghost use Rattle.std.specs.Option.{option_map_or};
ghost use Rattle.conf_types.specs.declared.change.Change.TheVariants.{Neighbour};
ghost use Rattle.conf_types.specs.Groups.{group_of};
ghost use Rattle.pkt_view.specs.Frame.{shown};
ghost use Rattle.neighbour_resolve.specs.Hearing.{heard_sender};
ghost use Rattle.ctl_core.specs.declared.found.Found.TheVariants.{Due, One};
ghost use Rattle.ctl_core.specs.Found.{by_packet, by_port, by_table, ends_of, is_known_there, is_touched, may_differ, or_again, stands_fresh};

use crate::ends::Ends;
use conf_types::{Change, Conf, HostRec};
use ctl_packets::is_route_table;
use ctl_settle::Touched;
use ctl_world::World;
use neighbour_resolve::{counted_vid, heard_sender};
use net_base::{DpId, Moment, NoMemory, PortNo, Vid};
use of_match::in_port;
use of13_codec::PacketIn;
use pkt_view::{FrameView, view};
use plan_base::Table;
use std::alloc::Global;

/// What a settling finds behind a frame.
#[derive(Drop)]
pub(crate) enum Found {
    /// All is as it was.
    Nothing,
    /// A host was heard again where it stands and was fresh: at most the moment at which it was heard differs.
    Again,
    /// The state is, but there may be something to say.
    Due,
    /// At most this host differs, which was heard.
    Heard(HostRec),
    /// At most this part of the state differs.
    One(Change),
    /// At most these parts do.
    Named(Touched),
    /// Anything may: a new configuration came.
    Any,
}

fn one(alloc: Global, change: Change) -> Result<Touched, NoMemory>
    ensures { IfOk result (λ made. made ≡ Some (change ∷ [])) }
{
    let mut touched = Touched::nothing(alloc);
    touched.push(change)?;
    Ok(touched)
}

impl Found {
    /// Whether a settling has to look.
    pub(crate) fn is_touched(&self) -> bool
        ensures { result ≡ is_touched self.now }
    {
        match self {
            Found::Nothing | Found::Again => false,
            Found::Due | Found::Heard(_) | Found::One(_) | Found::Named(_) | Found::Any => true,
        }
    }

    /// What may differ.
    pub(crate) fn touched(self, alloc: Global, conf: &Conf) -> Result<Touched, NoMemory>
        ensures { IfOk result (λ made. made ≡ may_differ conf.now self) }
    {
        match self {
            Found::Nothing | Found::Again | Found::Due => Ok(Touched::nothing(alloc)),
            Found::Heard(host) => one(
                alloc,
                Change::Host {
                    group: conf.group_number(host.dp),
                    vid: host.vid,
                    mac: host.mac,
                },
            ),
            Found::One(change) => one(alloc, change),
            Found::Named(touched) => Ok(touched),
            Found::Any => Ok(Touched::anything(alloc)),
        }
    }

    /// When the times of hosts end.
    pub(crate) fn ends(&self) -> Ends
        ensures { result ≡ ends_of self.now }
    {
        match self {
            Found::Nothing | Found::Again | Found::Due | Found::One(_) => Ends::Later,
            Found::Heard(host) => Ends::But(*host),
            Found::Named(_) | Found::Any => Ends::Any,
        }
    }
}

/// What may differ where a gateway's table sent a frame: the neighbour that it lets hear.
fn by_sender(conf: &Conf, dp: DpId, vid: Vid, frame: &FrameView<'_>) -> Found
    ensures { result ≡ option_map_or (λ s. One (Neighbour (group_of conf.now dp) vid s.ip)) (heard_sender conf.now vid (shown frame.now)) Due }
{
    match heard_sender(conf, vid, frame) {
        Some(sender) => Found::One(Change::Neighbour {
            group: conf.group_number(dp),
            vid,
            ip: sender.ip,
        }),
        None => Found::Due,
    }
}

/// What may differ where a frame of a VLAN changes something, by the table that sent it.
fn by_table(
    world: &World,
    table: u8,
    dp: DpId,
    port: PortNo,
    vid: Vid,
    frame: &FrameView<'_>,
) -> Found
    ensures { result ≡ by_table table dp port vid (shown frame.now) world.now }
{
    if table == Table::Source.number() {
        Found::Heard(HostRec {
            dp,
            port,
            vid,
            mac: frame.src,
            learned: world.moment,
        })
    } else if is_route_table(table, frame) {
        Found::Due
    } else if table == Table::Vip.number() {
        by_sender(&world.conf, dp, vid, frame)
    } else {
        Found::Due
    }
}

fn by_port(world: &World, packet: &PacketIn, dp: DpId, port: PortNo) -> Found
    ensures { result ≡ by_port packet.now dp world.now port }
{
    let Some(frame) = view(packet.payload.as_slice()) else {
        return Found::Due;
    };
    match counted_vid(&world.conf, dp, port, &frame) {
        Some(vid) => by_table(world, packet.table, dp, port, vid, &frame),
        None => Found::Due,
    }
}

/// What may differ where a packet changes something.
pub(crate) fn by_packet(world: &World, packet: &PacketIn, dp: DpId) -> Found
    ensures { result ≡ by_packet packet.now dp world.now }
{
    match in_port(packet.fields.as_slice()) {
        Some(port) => by_port(world, packet, dp, port),
        None => Found::Due,
    }
}

/// Whether a host that is known stands where one was heard, no later than that, and is fresh.
fn stands_fresh(conf: &Conf, moment: Moment, heard: &HostRec, known: &HostRec) -> bool
    ensures { result ≡ stands_fresh conf.now moment.0 heard.now known.now }
{
    known.dp == heard.dp
        && known.port.get() == heard.port.get()
        && known.learned.0 <= heard.learned.0
        && conf.is_fresh(moment, known)
}

/// Whether the host that was heard is known there, and fresh.
fn is_known_there(world: &World, heard: &HostRec) -> bool
    ensures { result ≡ is_known_there world.now heard.now }
{
    match world.hosts.get(&world.conf, heard.dp, heard.vid, heard.mac) {
        Some(known) => stands_fresh(&world.conf, world.moment, heard, known),
        None => false,
    }
}

/// The same, told more exactly where a host is heard again: what is known is that before it was heard.
pub(crate) fn or_again(world: &World, found: Found) -> Found
    ensures { result ≡ or_again world.now found }
{
    match found {
        Found::Heard(host) => {
            if is_known_there(world, &host) {
                Found::Again
            } else {
                Found::Heard(host)
            }
        }
        other => other,
    }
}
