ghost use Rattle.std.specs.Prelude.{◌≡◌, ◌++◌, OnOk};
ghost use Rattle.std.specs.Option.{option_copied};
ghost use Rattle.packet_way.specs.Known.{host_with, onward_to, onward, to_port, to_hop};

use crate::leaving::{push_delivered, push_sent};
use conf_types::{Conf, Dp, HostRec, Port};
use host_list::Hosts;
use net_base::{Mac, NoMemory, PortNo, Vid};
use of_match::{Packet, Sents};
use stack_paths::Paths;
use std::alloc::Global;

/// Where a packet goes on by its destination.
pub enum Onward {
    /// By the port of a host.
    ByPort(PortNo),
    /// By the port of a stack link.
    OverStack(PortNo),
    /// By a flood.
    Everywhere,
}

/// The host of the datapath's group with this address in the VLAN; `None` where there is none.
pub fn host_with<'a>(
    conf: &Conf,
    hosts: &'a Hosts,
    dp: &Dp,
    vid: Vid,
    mac: Mac,
) -> Option<&'a HostRec>
    ensures { option_copied result ≡ host_with conf.now hosts.now dp.now vid mac }
{
    hosts.get(conf, dp.id, vid, mac)
}

fn onward_to(paths: &Paths, dp: &Dp, host: &HostRec) -> Onward
    ensures { result ≡ onward_to paths.now dp.now host.now }
{
    if host.dp == dp.id {
        return Onward::ByPort(host.port);
    }
    match paths.next_hop(dp.id, host.dp) {
        Some(hop) => Onward::OverStack(hop),
        None => Onward::Everywhere,
    }
}

/// Where a packet of a VLAN goes on by its destination.
#[tactic(auto, unfolding(crate::specs::Known::onward))]
pub(crate) fn choose_onward(
    conf: &Conf,
    hosts: &Hosts,
    paths: &Paths,
    dp: &Dp,
    vid: Vid,
    mac: Mac,
) -> Onward
    ensures { result ≡ onward conf.now hosts.now paths.now dp.now vid mac }
{
    match host_with(conf, hosts, dp, vid, mac) {
        Some(host) => onward_to(paths, dp, host),
        None => Onward::Everywhere,
    }
}

/// By a port of a host, but back to where it came from only with `hairpin`.
pub(crate) fn push_to_port(
    alloc: Global,
    out: &mut Sents,
    dp: &Dp,
    ingress: PortNo,
    vid: Vid,
    packet: &Packet,
    port: &Port,
) -> Result<(), NoMemory>
    ensures { OnOk result (out.new ≡ out.old ++ to_port dp.now ingress vid packet.now port.now) }
{
    if port.no.get() == ingress.get() && !port.hairpin {
        return Ok(());
    }
    push_delivered(alloc, out, dp, vid, packet, port)
}

/// Over the stack with its tag, but not back to where it came from.
pub(crate) fn push_to_hop(
    alloc: Global,
    out: &mut Sents,
    ingress: PortNo,
    packet: &Packet,
    hop: PortNo,
) -> Result<(), NoMemory>
    ensures { OnOk result (out.new ≡ out.old ++ to_hop ingress packet.now hop) }
{
    if hop.get() == ingress.get() {
        return Ok(());
    }
    push_sent(alloc, out, hop.get(), packet)
}
