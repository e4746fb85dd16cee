ghost use Rattle.std.specs.Prelude.{◌≡◌, ◌==◌, ◌&&◌, ◌++◌, [], not, OnOk};
ghost use Rattle.std.specs.List.{find, list_any};
ghost use Rattle.std.specs.Option.{option_copied, option_map_or};
ghost use Rattle.of_match.specs.Hit.{hits};
ghost use Rattle.conf_types.specs.Attached.{acl_named, is_named};
ghost use Rattle.packet_way.specs.Leaving.{copies};
ghost use Rattle.packet_way.specs.Verdict.{rule_for, names_port, targets, acl_sends, is_allowed};

use crate::leaving::push_sent;
use conf_types::{Conf, Dp, Port, PortRef, Rule};
use net_base::{Names, NoMemory, PortNo, Text};
use of_match::{Packet, Sents, hits};
use std::alloc::Global;

fn are_naming(names: &[PortRef], port: &Port) -> bool
    ensures { result ≡ list_any (λ name. is_named name port.now) names.now }
{
    names.iter().any(|name| name.names(port))
}

/// Whether a rule sends packets that came in by `ingress` to the interface.
fn is_target(rule: &Rule, ingress: PortNo, port: &Port) -> bool
    ensures { result ≡ (port.now.enabled && names_port rule.now port.now && not (port.now.no == ingress)) }
{
    port.enabled
        && (are_naming(rule.mirror.as_slice(), port) || are_naming(rule.output.as_slice(), port))
        && port.no.get() != ingress.get()
}

fn find_hit<'a>(rules: &'a [Rule], port: PortNo, packet: &Packet) -> Option<&'a Rule>
    ensures { option_copied result ≡ find (λ rule. hits rule.fields port packet.now) rules.now }
{
    rules
        .iter()
        .find(|rule| hits(rule.fields.as_slice(), port, packet))
}

/// The rule of an ACL, by its name, that decides; `None` where none hits.
fn find_in<'a>(conf: &'a Conf, name: &Text, port: PortNo, packet: &Packet) -> Option<&'a Rule>
    ensures { option_copied result
        ≡ find (λ rule. hits rule.fields port packet.now) (option_map_or (λ acl. acl.rules) (acl_named conf.now.acls name.now) []) }
{
    match conf.acl(name) {
        Some(acl) => find_hit(acl.rules.as_slice(), port, packet),
        None => None,
    }
}

/// The rule that decides; `None` where none hits.
fn rule_for<'a>(conf: &'a Conf, acls: &Names, port: PortNo, packet: &Packet) -> Option<&'a Rule>
    ensures { option_copied result ≡ rule_for conf.now acls.now port packet.now }
{
    for name in acls.as_slice() {
        if let Some(rule) = find_in(conf, name, port, packet) {
            return Some(rule);
        }
    }
    None
}

/// The packet by each port that the rule sends it to.
fn push_targets(
    alloc: Global,
    out: &mut Sents,
    dp: &Dp,
    port: PortNo,
    rule: &Rule,
    packet: &Packet,
) -> Result<(), NoMemory>
    ensures { OnOk result (out.new ≡ out.old ++ copies (targets dp.now port rule.now) packet.now) }
{
    for target in dp.ports.as_slice() {
        if is_target(rule, port, target) {
            push_sent(alloc, out, target.no.get(), packet)?;
        }
    }
    Ok(())
}

/// What ACLs send of a packet, as it is.
pub(crate) fn push_acl_sends(
    alloc: Global,
    out: &mut Sents,
    conf: &Conf,
    dp: &Dp,
    acls: &Names,
    port: PortNo,
    packet: &Packet,
) -> Result<(), NoMemory>
    ensures { OnOk result (out.new ≡ out.old ++ acl_sends conf.now dp.now acls.now port packet.now) }
{
    match rule_for(conf, acls, port, packet) {
        Some(rule) => push_targets(alloc, out, dp, port, rule, packet),
        None => Ok(()),
    }
}

/// Whether the packet goes on behind the ACLs.
pub(crate) fn is_allowed(conf: &Conf, acls: &Names, port: PortNo, packet: &Packet) -> bool
    ensures { result ≡ is_allowed conf.now acls.now port packet.now }
{
    if acls.len() == 0 {
        return true;
    }
    match rule_for(conf, acls, port, packet) {
        Some(rule) => rule.allow,
        None => false,
    }
}
