//! Laws of the definitions: each function is empty, and its contract is the law.

ghost use Rattle.std.specs.Prelude.{◌<◌, Contains};
ghost use Rattle.std.specs.List.{AllByRecursion};
ghost use Rattle.conf_types.specs.declared.datapath.Dp.{Dp};
ghost use Rattle.conf_types.specs.declared.datapath.Port.{Port};
ghost use Rattle.conf_types.specs.declared.vlan.Vlan.{Vlan};
ghost use Rattle.conf_types.specs.Configuration.{Configuration};
ghost use Rattle.conf_types.specs.Lists.{EachBefore};
ghost use Rattle.conf_types.specs.Valid.{IsValid};
ghost use Rattle.plan_base.specs.Accepted.{IsFlowEntry, HaveDistinctKeys};
ghost use Rattle.acl_compile.specs.Slices.{port_acl, vlan_acl};

/// A switch accepts each entry: its match is in order, with what each field asks for before it, each
/// field has its bits and a mask only where it takes one, and its instructions are well formed
/// (OpenFlow 1.3, 7.2.3 and 7.2.4).
#[tactic(auto, using(crate::proofs::Accepted::accepted_laws))]
pub fn entries_are_accepted()
    ensures ports { (conf : Configuration) → IsValid conf → (d : Dp) → Contains conf.dps d → (i : Port) → Contains d.ports i
        → AllByRecursion IsFlowEntry (port_acl conf d i) }
    ensures vlans { (conf : Configuration) → IsValid conf → (d : Dp) → Contains conf.dps d → (v : Vlan) → Contains conf.vlans v
        → AllByRecursion IsFlowEntry (vlan_acl conf d v) }
{}

/// Priorities fall from rule to rule, and the denial stands behind all of them: no two entries of
/// one place have one priority.
#[tactic(auto, using(crate::proofs::Accepted::priority_laws))]
pub fn priorities_fall()
    ensures ports { (conf : Configuration) → IsValid conf → (d : Dp) → Contains conf.dps d → (i : Port) → Contains d.ports i
        → EachBefore (λ e f. f.key.priority < e.key.priority) (port_acl conf d i) }
    ensures vlans { (conf : Configuration) → IsValid conf → (d : Dp) → Contains conf.dps d → (v : Vlan) → Contains conf.vlans v
        → EachBefore (λ e f. f.key.priority < e.key.priority) (vlan_acl conf d v) }
{}

/// No two entries of a port, and no two of a VLAN, have one key.
#[tactic(auto, using(crate::proofs::Accepted::key_laws))]
pub fn keys_are_distinct()
    ensures ports { (conf : Configuration) → IsValid conf → (d : Dp) → Contains conf.dps d → (i : Port) → Contains d.ports i
        → HaveDistinctKeys (port_acl conf d i) }
    ensures vlans { (conf : Configuration) → IsValid conf → (d : Dp) → Contains conf.dps d → (v : Vlan) → Contains conf.vlans v
        → HaveDistinctKeys (vlan_acl conf d v) }
{}
