ghost use Rattle.std.specs.Prelude.{◌≡◌, ◌-◌, [], ◌∷◌, ◌++◌, length, map, filter, nat_lt, IfOk, OnOk};
ghost use Rattle.std.specs.List.{list_any, cons_option};
ghost use Rattle.net_base.specs.declared.field.FieldId.TheVariants.{VlanVid};
ghost use Rattle.net_base.specs.FieldId.{number_of};
ghost use Rattle.plan_base.specs.Fields.{in_port};
ghost use Rattle.plan_base.specs.Actions.{out};
ghost use Rattle.acl_compile.specs.Rows.{rule_instrs, asks_for_another, with_vid, rule_fields, rule_entry, denial};
ghost use Rattle.acl_compile.specs.Slices.{entries_from};

use crate::place::Place;
use crate::targets::make_targets;
use conf_types::{Dp, Rule};
use net_base::{Field, FieldId, Fields, NoMemory, PortNo, Vid};
use of_match::{Actions, Entries, Entry, Instrs};
use plan_base::{in_port, leads_to, make_entry, out, vid_field};
use std::alloc::Global;

/// Behind all rules.
const DENIAL_PRIORITY: u16 = 1;

fn make_outs(alloc: Global, ports: &[PortNo]) -> Result<Actions, NoMemory>
    ensures { IfOk result (λ made. made ≡ map out ports.now) }
{
    let mut actions = Actions::new(alloc);
    for port in ports {
        actions.push(out(*port))?;
    }
    Ok(actions)
}

/// The packet by each of the rule's ports, and on where the rule allows it.
fn make_instrs(alloc: Global, place: &Place, dp: &Dp, rule: &Rule) -> Result<Instrs, NoMemory>
    ensures { IfOk result (λ made. made ≡ rule_instrs place.now dp.now rule.now) }
{
    let targets = make_targets(alloc, place, dp, rule)?;
    let actions = make_outs(alloc, targets.as_slice())?;
    let next = if rule.allow { Some(place.next()) } else { None };
    leads_to(alloc, actions, next)
}

fn asks_for_another(vid: Vid, field: &Field) -> bool
    ensures { result ≡ asks_for_another vid field.now }
{
    field.id.number() == FieldId::VlanVid.number() && field.value != 0x1000 + u128::from(vid.get())
}

fn push_before_vid(out: &mut Fields, fields: &[Field]) -> Result<(), NoMemory>
    ensures { OnOk result (out.new ≡ out.old ++ filter (λ f. nat_lt (number_of f.id) (number_of VlanVid)) fields.now) }
{
    for field in fields {
        if field.id.number() < FieldId::VlanVid.number() {
            out.push(*field)?;
        }
    }
    Ok(())
}

fn push_behind_vid(out: &mut Fields, fields: &[Field]) -> Result<(), NoMemory>
    ensures { OnOk result (out.new ≡ out.old ++ filter (λ f. nat_lt (number_of VlanVid) (number_of f.id)) fields.now) }
{
    for field in fields {
        if FieldId::VlanVid.number() < field.id.number() {
            out.push(*field)?;
        }
    }
    Ok(())
}

/// The tag of a VLAN among the other fields.
fn make_with_vid(alloc: Global, vid: Vid, fields: &[Field]) -> Result<Fields, NoMemory>
    ensures { IfOk result (λ made. made ≡ with_vid vid fields.now) }
{
    let mut made = Fields::new(alloc);
    push_before_vid(&mut made, fields)?;
    made.push(vid_field(vid))?;
    push_behind_vid(&mut made, fields)?;
    Ok(made)
}

fn any_asks_for_another(vid: Vid, fields: &[Field]) -> bool
    ensures { result ≡ list_any (asks_for_another vid) fields.now }
{
    fields.iter().any(|field| asks_for_another(vid, field))
}

fn make_with_port(alloc: Global, port: PortNo, fields: &[Field]) -> Result<Fields, NoMemory>
    ensures { IfOk result (λ made. made ≡ in_port port ∷ fields.now) }
{
    let mut made = Fields::new(alloc);
    made.push(in_port(port))?;
    made.append(fields)?;
    Ok(made)
}

/// What a packet has to agree with; `None` where none there can.
fn make_fields(alloc: Global, place: &Place, fields: &[Field]) -> Result<Option<Fields>, NoMemory>
    ensures { IfOk result (λ made. made ≡ rule_fields place.now fields.now) }
{
    match place {
        Place::AtPort(port) => {
            let made = make_with_port(alloc, *port, fields)?;
            Ok(Some(made))
        }
        Place::AtVlan(vid) => {
            if any_asks_for_another(*vid, fields) {
                return Ok(None);
            }
            let made = make_with_vid(alloc, *vid, fields)?;
            Ok(Some(made))
        }
    }
}

/// The entry of a rule; `None` where it hits no packet there.
fn make_rule(
    alloc: Global,
    place: &Place,
    dp: &Dp,
    priority: u16,
    rule: &Rule,
) -> Result<Option<Entry>, NoMemory>
    ensures { IfOk result (λ made. made ≡ rule_entry place.now dp.now priority rule.now) }
{
    match make_fields(alloc, place, rule.fields.as_slice())? {
        Some(fields) => {
            let instrs = make_instrs(alloc, place, dp, rule)?;
            let entry = make_entry(alloc, place.table(), priority, fields.as_slice(), instrs)?;
            Ok(Some(entry))
        }
        None => Ok(None),
    }
}

/// What no rule hits ends.
pub(crate) fn make_denial(alloc: Global, place: &Place) -> Result<Entry, NoMemory>
    ensures { IfOk result (λ made. made ≡ denial place.now) }
{
    let instrs = Instrs::new(alloc);
    make_entry(
        alloc,
        place.table(),
        DENIAL_PRIORITY,
        &[place.field()],
        instrs,
    )
}

fn push_some(out: &mut Entries, entry: Option<Entry>) -> Result<(), NoMemory>
    ensures { OnOk result (out.new ≡ out.old ++ cons_option entry []) }
{
    match entry {
        Some(entry) => out.push(entry),
        None => Ok(()),
    }
}

/// Adds the entries of rules, from a priority down, and says which priority follows.
pub(crate) fn push_rules(
    alloc: Global,
    out: &mut Entries,
    place: &Place,
    dp: &Dp,
    first: u16,
    rules: &[Rule],
) -> Result<u16, NoMemory>
    ensures entries { OnOk result (out.new ≡ out.old ++ entries_from place.now dp.now first rules.now) }
    ensures next { IfOk result (λ next. next ≡ first - length rules.now) }
{
    let mut priority = first;
    for rule in rules {
        push_some(out, make_rule(alloc, place, dp, priority, rule)?)?;
        priority = priority.saturating_sub(1);
    }
    Ok(priority)
}
