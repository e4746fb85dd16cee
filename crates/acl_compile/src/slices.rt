ghost use Rattle.std.specs.Prelude.{◌≡◌, ◌-◌, ◌++◌, [], length, IfOk, OnOk};
ghost use Rattle.std.specs.Option.{option_map_or};
ghost use Rattle.conf_types.specs.Attached.{acl_named};
ghost use Rattle.conf_types.specs.Count.{counted};
ghost use Rattle.acl_compile.specs.Slices.{entries_from, acl_entries, port_entry, port_acl, vlan_acl};

use crate::place::Place;
use crate::rules::{make_denial, push_rules};
use conf_types::{Conf, Dp, Port, Tally, Vlan};
use net_base::{Names, NoMemory, PortNo, Text};
use of_match::{Actions, Entries, Entry};
use plan_base::{Table, in_port, leads_to, make_entry};
use std::alloc::Global;

/// The priority of the first rule.
const FIRST_RULE_PRIORITY: u16 = 10_000;

/// Adds the entries of one ACL, from a priority down, and says which priority follows.
fn push_acl(
    alloc: Global,
    out: &mut Entries,
    place: &Place,
    conf: &Conf,
    dp: &Dp,
    first: u16,
    name: &Text,
) -> Result<u16, NoMemory>
    ensures entries { OnOk result (out.new ≡ out.old
        ++ entries_from place.now dp.now first (option_map_or (λ acl. acl.rules) (acl_named conf.now.acls name.now) [])) }
    ensures next { IfOk result
        (λ next. next ≡ first - length (option_map_or (λ acl. acl.rules) (acl_named conf.now.acls name.now) [])) }
{
    match conf.acl(name) {
        Some(acl) => push_rules(alloc, out, place, dp, first, acl.rules.as_slice()),
        None => Ok(first),
    }
}

/// The entries of the rules of some ACLs, and of what none of them hits.
fn make_acl_entries(
    alloc: Global,
    place: &Place,
    conf: &Conf,
    dp: &Dp,
    acls: &Names,
) -> Result<Entries, NoMemory>
    ensures { IfOk result (λ made. made ≡ acl_entries place.now conf.now dp.now acls.now) }
{
    let mut made = Entries::new(alloc);
    let mut priority = FIRST_RULE_PRIORITY;
    for name in acls.as_slice() {
        priority = push_acl(alloc, &mut made, place, conf, dp, priority, name)?;
    }
    made.push(make_denial(alloc, place)?)?;
    Ok(made)
}

fn make_port_entry(alloc: Global, port: PortNo) -> Result<Entry, NoMemory>
    ensures { IfOk result (λ made. made ≡ port_entry port) }
{
    let instrs = leads_to(alloc, Actions::new(alloc), Some(Table::Admission))?;
    make_entry(alloc, Table::PortAcl, 1, &[in_port(port)], instrs)
}

/// The flow entries of table 0 for an interface of a datapath: what comes in by it, and its ACLs.
/// One unit of work is counted.
pub fn port_acl_entries<T: Tally>(
    alloc: Global,
    conf: &Conf,
    dp: &Dp,
    port: &Port,
    units: &mut T,
) -> Result<Entries, NoMemory>
    ensures entries { IfOk result (λ made. made ≡ port_acl conf.now dp.now port.now) }
    ensures unit { T.count units.new ≡ counted (T.count units.old) }
{
    units.tick();
    let mut made = Entries::new(alloc);
    if port.is_accepting() && port.acls.len() > 0 {
        return make_acl_entries(alloc, &Place::AtPort(port.no), conf, dp, &port.acls);
    }
    if port.is_accepting() || port.is_stack() {
        made.push(make_port_entry(alloc, port.no)?)?;
    }
    Ok(made)
}

/// The flow entries of table 2 for a VLAN on a datapath: the VLAN's ACLs, where the datapath has an
/// edge port of it. One unit of work is counted.
pub fn vlan_acl_entries<T: Tally>(
    alloc: Global,
    conf: &Conf,
    dp: &Dp,
    vlan: &Vlan,
    units: &mut T,
) -> Result<Entries, NoMemory>
    ensures entries { IfOk result (λ made. made ≡ vlan_acl conf.now dp.now vlan.now) }
    ensures unit { T.count units.new ≡ counted (T.count units.old) }
{
    units.tick();
    if vlan.acls.len() > 0 && dp.has_edge_member(vlan.vid) {
        make_acl_entries(alloc, &Place::AtVlan(vlan.vid), conf, dp, &vlan.acls)
    } else {
        Ok(Entries::new(alloc))
    }
}
