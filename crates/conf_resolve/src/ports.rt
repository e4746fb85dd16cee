//! What datapaths and interfaces stand for.

ghost use Rattle.std.specs.Prelude.{◌≡◌, [], ◌∷◌, map, unwrap_or, IfOk};
ghost use Rattle.std.specs.Option.{option_map};
ghost use Rattle.conf_resolve.specs.Resolved.{items_of, once, number_named, far_end, port_of, dp_of};

use crate::named_dps::NamedDps;
use crate::named_ports::NamedPorts;
use crate::numbers::{acl_names, native_of, numbers_once, vids_of};
use crate::ordered::OrderedConf;
use conf_shape::{OneOrList, RawDp, RawPort, RawStackEnd};
use conf_types::{Dp, Dps, Port, PortNos, PortRef, Ports, StackEnd};
use net_base::{NoMemory, PortNo, TryCopy};
use std::alloc::Global;

/// The interface that is named; the interface `own` where none is.
fn number_or(ports: &NamedPorts, own: PortNo, name: &PortRef) -> PortNo
    ensures { result ≡ unwrap_or (number_named ports.now name.now) own }
{
    match ports.number(name) {
        Some(number) => number,
        None => own,
    }
}

fn all_numbers(
    alloc: Global,
    ports: &NamedPorts,
    own: PortNo,
    names: &[PortRef],
) -> Result<PortNos, NoMemory>
    ensures { IfOk result (λ made. made ≡ map (λ name. unwrap_or (number_named ports.now name) own) names.now) }
{
    let mut made = PortNos::new(alloc);
    for name in names {
        made.push(number_or(ports, own, name))?;
    }
    Ok(made)
}

fn one_number(alloc: Global, number: PortNo) -> Result<PortNos, NoMemory>
    ensures { IfOk result (λ made. made ≡ number ∷ []) }
{
    let mut made = PortNos::new(alloc);
    made.push(number)?;
    Ok(made)
}

fn named_numbers(
    alloc: Global,
    ports: &NamedPorts,
    own: PortNo,
    names: &OneOrList<PortRef>,
) -> Result<PortNos, NoMemory>
    ensures { IfOk result (λ made. made ≡ map (λ name. unwrap_or (number_named ports.now name) own) (items_of names.now)) }
{
    match names {
        OneOrList::One(name) => one_number(alloc, number_or(ports, own, name)),
        OneOrList::List(names) => all_numbers(alloc, ports, own, names.as_slice()),
    }
}

/// The mirrored ports, each once.
fn mirrored(alloc: Global, ports: &NamedPorts, port: &RawPort) -> Result<PortNos, NoMemory>
    ensures { IfOk result (λ made. made ≡ once (map (λ name. unwrap_or (number_named ports.now name) port.now.no) (items_of port.now.mirror))) }
{
    let numbers = named_numbers(alloc, ports, port.no, &port.mirror)?;
    numbers_once(alloc, numbers.as_slice())
}

/// The far end that is named; the end `own` where there is none.
fn end_or(dps: &NamedDps, own: StackEnd, end: &RawStackEnd) -> StackEnd
    ensures { result ≡ unwrap_or (far_end dps.now end.now) own }
{
    match dps.far_end(end) {
        Some(end) => end,
        None => own,
    }
}

fn stack_of(dps: &NamedDps, own: StackEnd, stack: &Option<RawStackEnd>) -> Option<StackEnd>
    ensures { result ≡ option_map (λ end. unwrap_or (far_end dps.now end) own) stack.now }
{
    match stack {
        Some(end) => Some(end_or(dps, own, end)),
        None => None,
    }
}

fn resolve_port(
    alloc: Global,
    conf: &OrderedConf,
    dps: &NamedDps,
    ports: &NamedPorts,
    port: &RawPort,
) -> Result<Port, NoMemory>
    requires { dps.now ≡ conf.now.dps }
    ensures { IfOk result (λ made. made ≡ port_of conf.now ports.now port.now) }
{
    let own = StackEnd {
        dp: ports.dp().id,
        port: port.no,
    };
    Ok(Port {
        no: port.no,
        name: port.names.name.copy(alloc)?,
        description: port.names.description.copy(alloc)?,
        enabled: port.flags.enabled,
        native: native_of(conf, &port.native),
        tagged: vids_of(alloc, conf, port.tagged.as_slice())?,
        acls: acl_names(alloc, &port.acls)?,
        output_only: port.flags.output_only,
        hairpin: port.flags.hairpin,
        unicast_flood: port.flags.unicast_flood,
        permanent_learn: port.flags.permanent_learn,
        opstatus_reconf: port.flags.opstatus_reconf,
        max_hosts: port.max_hosts,
        mirror: mirrored(alloc, ports, port)?,
        stack: stack_of(dps, own, &port.stack),
    })
}

fn resolve_ports(
    alloc: Global,
    conf: &OrderedConf,
    dps: &NamedDps,
    dp: &RawDp,
) -> Result<Ports, NoMemory>
    requires { dps.now ≡ conf.now.dps }
    ensures { IfOk result (λ made. made ≡ map (port_of conf.now dp.now) dp.now.ports) }
{
    let ports = NamedPorts::of(alloc, dp)?;
    let mut made = Ports::new(alloc);
    for port in dp.ports.as_slice() {
        made.push(resolve_port(alloc, conf, dps, &ports, port)?)?;
    }
    Ok(made)
}

fn resolve_dp(alloc: Global, conf: &OrderedConf, dps: &NamedDps, dp: &RawDp) -> Result<Dp, NoMemory>
    requires { dps.now ≡ conf.now.dps }
    ensures { IfOk result (λ made. made ≡ dp_of conf.now dp.now) }
{
    Ok(Dp {
        id: dp.id,
        name: dp.names.name.copy(alloc)?,
        description: dp.names.description.copy(alloc)?,
        hardware: dp.hardware.copy(alloc)?,
        timeout: dp.timeout,
        arp_timeout: dp.arp_timeout,
        stack_priority: dp.stack_priority,
        lldp: dp.lldp,
        drop_spoofed: dp.drops.spoofed,
        drop_broadcast: dp.drops.broadcast,
        drop_bpdu: dp.drops.bpdu,
        drop_lldp: dp.drops.lldp,
        ports: resolve_ports(alloc, conf, dps, dp)?,
    })
}

pub fn resolve_dps(alloc: Global, conf: &OrderedConf) -> Result<Dps, NoMemory>
    ensures { IfOk result (λ made. made ≡ map (dp_of conf.now) conf.now.dps) }
{
    let dps = NamedDps::of(alloc, conf)?;
    let mut made = Dps::new(alloc);
    for dp in conf.dps.as_slice() {
        made.push(resolve_dp(alloc, conf, &dps, dp)?)?;
    }
    Ok(made)
}
