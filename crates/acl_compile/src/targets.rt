ghost use Rattle.std.specs.Prelude.{◌≡◌, fold, IfOk, OnOk};
ghost use Rattle.std.specs.List.{filter_map};
ghost use Rattle.std.specs.Option.{option_map_or};
ghost use Rattle.conf_types.specs.Lists.{is_among};
ghost use Rattle.acl_compile.specs.Targets.{may_go, target, targets, with_one};

use crate::place::Place;
use conf_types::{Dp, Port, PortNos, PortRef, Rule};
use net_base::{NoMemory, PortNo};
use std::alloc::Global;

fn may_go(place: &Place, port: &Port) -> bool
    ensures { result ≡ may_go place.now port.now }
{
    port.enabled
        && match place {
            Place::AtPort(ingress) => port.no.get() != ingress.get(),
            Place::AtVlan(_) => true,
        }
}

/// The port that a rule names, where packets may go to it.
fn find_target(place: &Place, dp: &Dp, name: &PortRef) -> Option<PortNo>
    ensures { result ≡ target place.now dp.now name.now }
{
    match dp.port_named(name) {
        Some(port) => {
            if may_go(place, port) {
                Some(port.no)
            } else {
                None
            }
        }
        None => None,
    }
}

fn has_port(ports: &[PortNo], port: PortNo) -> bool
    ensures { result ≡ is_among ports.now port }
{
    ports.iter().any(|other| other.get() == port.get())
}

fn push_once(ports: &mut PortNos, port: PortNo) -> Result<(), NoMemory>
    ensures { OnOk result (ports.new ≡ with_one ports.old port) }
{
    if !has_port(ports.as_slice(), port) {
        ports.push(port)?;
    }
    Ok(())
}

fn push_found(ports: &mut PortNos, found: Option<PortNo>) -> Result<(), NoMemory>
    ensures { OnOk result (ports.new ≡ option_map_or (with_one ports.old) found ports.old) }
{
    match found {
        Some(port) => push_once(ports, port),
        None => Ok(()),
    }
}

fn push_targets(
    targets: &mut PortNos,
    place: &Place,
    dp: &Dp,
    names: &[PortRef],
) -> Result<(), NoMemory>
    ensures { OnOk result (targets.new ≡ fold with_one targets.old (filter_map (target place.now dp.now) names.now)) }
{
    for name in names {
        push_found(targets, find_target(place, dp, name))?;
    }
    Ok(())
}

/// The ports that a rule sends packets to.
pub(crate) fn make_targets(
    alloc: Global,
    place: &Place,
    dp: &Dp,
    rule: &Rule,
) -> Result<PortNos, NoMemory>
    ensures { IfOk result (λ made. made ≡ targets place.now dp.now rule.now) }
{
    let mut made = PortNos::new(alloc);
    push_targets(&mut made, place, dp, rule.mirror.as_slice())?;
    push_targets(&mut made, place, dp, rule.output.as_slice())?;
    Ok(made)
}
