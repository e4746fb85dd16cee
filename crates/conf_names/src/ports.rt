//! Mirrored ports, mirrors and the ends of stack links.

ghost use Rattle.std.specs.Prelude.{◌≡◌, ◌==◌, not, IfOk, length};
ghost use Rattle.std.specs.List.{flat_map};
ghost use Rattle.conf_types.specs.Valid.{vlans_named};
ghost use Rattle.conf_rules.specs.Places.{first, nth_of, each_at, items_at, interfaces_of};
ghost use Rattle.conf_rules.specs.Ports.{mirrored_cause, is_mirrorable, wrong_mirrored, is_used, mirror_site, wrong_mirror, wrong_mirrors, is_end, points_back, is_free, is_right_end, stack_cause, wrong_stack, wrong_stacks};

use crate::numbered_ports::{NumberedDps, NumberedPorts};
use conf_resolve::{NamedDps, NamedPorts, OrderedConf, Resolved};
use conf_rules::{Found, broken, nth, under_port};
use conf_shape::{ConfCause, OneOrList, RawDp, RawPort, RawStackEnd};
use conf_types::{Dp, Port, PortRef, StackEnd};
use net_base::{NoMemory, PortNo};
use std::alloc::Global;

/// The interfaces of a datapath, found by what they are written with and by their numbers.
#[derive(Drop)]
struct DpPorts<'a> {
    named: NamedPorts<'a>,
    numbered: NumberedPorts<'a>,
}

/// Whether a port may be mirrored: it is another interface, and an edge port.
fn is_mirrorable(ports: &NumberedPorts, port: &Port, no: PortNo) -> bool
    ensures { result ≡ is_mirrorable ports.now.dp.now port.now no }
{
    if no.get() == port.no.get() {
        return false;
    }
    match ports.find(no) {
        Some(mirrored) => mirrored.is_edge(),
        None => false,
    }
}

/// What is wrong with a port that an interface mirrors.
fn mirrored_cause(ports: &DpPorts, port: &Port, name: &PortRef) -> Option<ConfCause>
    ensures { result ≡ mirrored_cause ports.now.named ports.now.numbered.dp.now port.now name.now }
{
    match ports.named.number(name) {
        Some(no) => {
            if is_mirrorable(&ports.numbered, port, no) {
                None
            } else {
                Some(ConfCause::Conflict(10))
            }
        }
        None => Some(ConfCause::Unresolved),
    }
}

fn wrong_mirrored(
    alloc: Global,
    ports: &DpPorts,
    raw: &RawPort,
    port: &Port,
    place: Option<usize>,
    name: &PortRef,
) -> Found
    ensures { IfOk result (λ found. found ≡ first (wrong_mirrored (record { raw_dp = ports.now.named; dp = ports.now.numbered.dp.now; raw = raw.now; port = port.now }) (nth_of (mirror_site (record { raw_dp = ports.now.named; dp = ports.now.numbered.dp.now; raw = raw.now; port = port.now })) place, name.now))) }
{
    if let Some(cause) = mirrored_cause(ports, port, name) {
        let site = under_port(alloc, ports.named.dp(), raw, "mirror")?;
        return match place {
            Some(n) => broken(alloc, cause, nth(alloc, site, n)?),
            None => broken(alloc, cause, site),
        };
    }
    Ok(None)
}

#[tactic(auto, using(conf_rules::proofs::First::first_rules))]
fn wrong_mirrored_list(
    alloc: Global,
    ports: &DpPorts,
    raw: &RawPort,
    port: &Port,
    names: &[PortRef],
) -> Found
    ensures { IfOk result (λ found. found ≡ first (flat_map (wrong_mirrored (record { raw_dp = ports.now.named; dp = ports.now.numbered.dp.now; raw = raw.now; port = port.now })) (each_at (mirror_site (record { raw_dp = ports.now.named; dp = ports.now.numbered.dp.now; raw = raw.now; port = port.now })) names.now))) }
{
    for (i, name) in names.iter().enumerate() {
        if let Some(found) = wrong_mirrored(alloc, ports, raw, port, Some(i), name)? {
            return Ok(Some(found));
        }
    }
    Ok(None)
}

#[tactic(auto, using(conf_rules::proofs::First::first_rules))]
fn wrong_mirrored_ports(alloc: Global, ports: &DpPorts, raw: &RawPort, port: &Port) -> Found
    ensures { IfOk result (λ found. found ≡ first (flat_map (wrong_mirrored (record { raw_dp = ports.now.named; dp = ports.now.numbered.dp.now; raw = raw.now; port = port.now })) (items_at (mirror_site (record { raw_dp = ports.now.named; dp = ports.now.numbered.dp.now; raw = raw.now; port = port.now })) raw.now.mirror))) }
{
    match &raw.mirror {
        OneOrList::One(name) => wrong_mirrored(alloc, ports, raw, port, None, name),
        OneOrList::List(names) => { wrong_mirrored_list(alloc, ports, raw, port, names.as_slice()) }
    }
}

fn names_vlan(port: &Port) -> bool
    ensures { result ≡ not (length (vlans_named port.now) == 0) }
{
    port.native.is_some() || !port.tagged.is_empty()
}

/// Whether an interface has a VLAN, an ACL or a stack link.
fn is_used(port: &Port) -> bool
    ensures { result ≡ is_used port.now }
{
    names_vlan(port) || !port.acls.is_empty() || port.stack.is_some()
}

fn is_mirror(port: &Port) -> bool
    ensures { result ≡ not (length port.now.mirror == 0) }
{
    !port.mirror.is_empty()
}

#[tactic(auto, using(conf_rules::proofs::First::first_rules))]
fn wrong_mirror(alloc: Global, ports: &DpPorts, raw: &RawPort, port: &Port) -> Found
    ensures { IfOk result (λ found. found ≡ first (wrong_mirror (record { raw_dp = ports.now.named; dp = ports.now.numbered.dp.now; raw = raw.now; port = port.now }))) }
{
    if let Some(found) = wrong_mirrored_ports(alloc, ports, raw, port)? {
        return Ok(Some(found));
    }
    if is_mirror(port) && is_used(port) {
        let site = under_port(alloc, ports.named.dp(), raw, "mirror")?;
        return broken(alloc, ConfCause::Conflict(10), site);
    }
    Ok(None)
}

#[tactic(auto, using(conf_rules::proofs::First::zip_rules))]
fn wrong_mirrors_of(alloc: Global, raw_dp: &RawDp, dp: &Dp) -> Found
    ensures { IfOk result (λ found. found ≡ first (flat_map wrong_mirror (interfaces_of (raw_dp.now, dp.now)))) }
{
    let named = NamedPorts::of(alloc, raw_dp)?;
    let numbered = NumberedPorts::of(alloc, dp)?;
    let tables = DpPorts { named, numbered };
    let ports = dp.ports.as_slice();
    for (i, raw) in raw_dp.ports.as_slice().iter().enumerate() {
        let Some(port) = ports.get(i) else {
            return Ok(None);
        };
        if let Some(found) = wrong_mirror(alloc, &tables, raw, port)? {
            return Ok(Some(found));
        }
    }
    Ok(None)
}

/// Mirrored ports are other interfaces that are edge ports, and a mirror has no VLAN, ACL or stack
/// link.
#[tactic(auto, using(conf_rules::proofs::First::pair_rules))]
pub(crate) fn wrong_mirrors(alloc: Global, ordered: &OrderedConf, conf: &Resolved) -> Found
    ensures { IfOk result (λ found. found ≡ first (wrong_mirrors ordered.now conf.now)) }
{
    let dps = conf.dps().as_slice();
    for (i, raw_dp) in ordered.dps.as_slice().iter().enumerate() {
        let Some(dp) = dps.get(i) else {
            return Ok(None);
        };
        if let Some(found) = wrong_mirrors_of(alloc, raw_dp, dp)? {
            return Ok(Some(found));
        }
    }
    Ok(None)
}

fn is_end(end: &StackEnd, dp: &Dp, port: &Port) -> bool
    ensures { result ≡ is_end end.now dp.now port.now }
{
    end.dp.0 == dp.id.0 && end.port.get() == port.no.get()
}

/// Whether the port at the far end is an end whose far end is this port.
fn points_back(dps: &NumberedDps, dp: &Dp, port: &Port, far: StackEnd) -> bool
    ensures { result ≡ points_back dps.now.conf.now dp.now port.now far }
{
    match dps.find(far.dp, far.port) {
        Some(other) => match &other.stack {
            Some(end) => is_end(end, dp, port),
            None => false,
        },
        None => false,
    }
}

/// Whether an interface has nothing that an end of a stack link may not have.
fn is_free(port: &Port) -> bool
    ensures { result ≡ is_free port.now }
{
    !names_vlan(port)
        && port.acls.is_empty()
        && port.mirror.is_empty()
        && !port.output_only
        && !port.hairpin
        && !port.permanent_learn
}

fn is_right_end(dps: &NumberedDps, dp: &Dp, port: &Port, far: StackEnd) -> bool
    ensures { result ≡ is_right_end dps.now.conf.now dp.now port.now far }
{
    far.dp.0 != dp.id.0 && points_back(dps, dp, port, far) && is_free(port)
}

/// The datapaths of a configuration, found by their names as it is written, and by their identifiers.
#[derive(Drop)]
struct StackDps<'a> {
    ordered: &'a OrderedConf,
    named: NamedDps<'a>,
    numbered: NumberedDps<'a>,
    ghost right: { named ≡ ordered.now.dps },
}

fn stack_dps<'a>(
    alloc: Global,
    ordered: &'a OrderedConf,
    conf: &'a Resolved,
) -> Result<StackDps<'a>, NoMemory>
    ensures ordered { IfOk result (λ made. made.ordered.now ≡ ordered.now) }
    ensures conf { IfOk result (λ made. made.numbered.conf.now ≡ conf.now) }
{
    let named = NamedDps::of(alloc, ordered)?;
    let numbered = NumberedDps::of(alloc, conf)?;
    Ok(StackDps {
        ordered,
        named,
        numbered,
    })
}

/// What is wrong with an end of a stack link.
fn stack_cause(dps: &StackDps, dp: &Dp, port: &Port, end: &RawStackEnd) -> Option<ConfCause>
    ensures { result ≡ stack_cause dps.now.ordered.now dps.now.numbered.conf.now dp.now port.now end.now }
{
    match dps.named.far_end(end) {
        Some(far) => {
            if is_right_end(&dps.numbered, dp, port, far) {
                None
            } else {
                Some(ConfCause::Conflict(11))
            }
        }
        None => Some(ConfCause::Unresolved),
    }
}

fn wrong_stack(
    alloc: Global,
    dps: &StackDps,
    raw_dp: &RawDp,
    dp: &Dp,
    raw: &RawPort,
    port: &Port,
) -> Found
    ensures { IfOk result (λ found. found ≡ first (wrong_stack dps.now.ordered.now dps.now.numbered.conf.now (record { raw_dp = raw_dp.now; dp = dp.now; raw = raw.now; port = port.now }))) }
{
    if let Some(end) = &raw.stack {
        if let Some(cause) = stack_cause(dps, dp, port, end) {
            return broken(alloc, cause, under_port(alloc, raw_dp, raw, "stack")?);
        }
    }
    Ok(None)
}

#[tactic(auto, using(conf_rules::proofs::First::zip_rules))]
fn wrong_stacks_of(alloc: Global, dps: &StackDps, raw_dp: &RawDp, dp: &Dp) -> Found
    ensures { IfOk result (λ found. found ≡ first (flat_map (wrong_stack dps.now.ordered.now dps.now.numbered.conf.now) (interfaces_of (raw_dp.now, dp.now)))) }
{
    let ports = dp.ports.as_slice();
    for (i, raw) in raw_dp.ports.as_slice().iter().enumerate() {
        let Some(port) = ports.get(i) else {
            return Ok(None);
        };
        if let Some(found) = wrong_stack(alloc, dps, raw_dp, dp, raw, port)? {
            return Ok(Some(found));
        }
    }
    Ok(None)
}

#[tactic(auto, using(conf_rules::proofs::First::pair_rules))]
fn wrong_stacks_in(alloc: Global, dps: &StackDps) -> Found
    ensures { IfOk result (λ found. found ≡ first (wrong_stacks dps.now.ordered.now dps.now.numbered.conf.now)) }
{
    let made = dps.numbered.conf().dps().as_slice();
    for (i, raw_dp) in dps.ordered.dps.as_slice().iter().enumerate() {
        let Some(dp) = made.get(i) else {
            return Ok(None);
        };
        if let Some(found) = wrong_stacks_of(alloc, dps, raw_dp, dp)? {
            return Ok(Some(found));
        }
    }
    Ok(None)
}

/// The far end of a stack link exists on another datapath and points back, and an end has no VLAN,
/// ACL or mirror, nor what only an edge port may have.
pub(crate) fn wrong_stacks(alloc: Global, ordered: &OrderedConf, conf: &Resolved) -> Found
    ensures { IfOk result (λ found. found ≡ first (wrong_stacks ordered.now conf.now)) }
{
    let dps = stack_dps(alloc, ordered, conf)?;
    wrong_stacks_in(alloc, &dps)
}
