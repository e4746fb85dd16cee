//! The names of the ACLs that are attached on a datapath.

ghost use Rattle.std.specs.Prelude.{◌≡◌, ◌||◌, ◌&&◌, ℕ, List, IfOk, OnOk};
ghost use Rattle.std.specs.List.{list_any};
ghost use Rattle.std.specs.BTreeSet.{contains_text};
ghost use Rattle.conf_types.specs.Membership.{has_edge_member};
ghost use Rattle.conf_rules.specs.Ports.{is_in, is_attached};

use conf_resolve::Resolved;
use conf_rules::{Edges, see_name};
use conf_types::{Dp, Port, Vlan};
use net_base::{NoMemory, Text};
use std::alloc::Global;
use std::collections::BTreeSet;

/// Names of ACLs.
pub(crate) type Attached = BTreeSet<String>;

/// From now on these names are seen.
fn see_names(alloc: Global, seen: &mut Attached, names: &[Text]) -> Result<(), NoMemory>
    ensures { OnOk result ((t : List ℕ) → contains_text seen.new t ≡ (contains_text seen.old t || is_in t names.now)) }
{
    for name in names {
        see_name(alloc, seen, name)?;
    }
    Ok(())
}

/// From now on the ACLs of these interfaces are seen.
fn see_ports(alloc: Global, seen: &mut Attached, ports: &[Port]) -> Result<(), NoMemory>
    ensures { OnOk result ((t : List ℕ) → contains_text seen.new t ≡ (contains_text seen.old t || list_any (λ p. is_in t p.acls) ports.now)) }
{
    for port in ports {
        see_names(alloc, seen, port.acls.as_slice())?;
    }
    Ok(())
}

/// From now on the ACLs of a VLAN are seen, where the datapath has an edge port of it.
fn see_vlan(alloc: Global, seen: &mut Attached, edges: &Edges, vlan: &Vlan) -> Result<(), NoMemory>
    ensures { OnOk result ((t : List ℕ) → contains_text seen.new t ≡ (contains_text seen.old t || (is_in t vlan.now.acls && has_edge_member edges.now vlan.now.vid))) }
{
    if edges.has(vlan.vid) {
        see_names(alloc, seen, vlan.acls.as_slice())?;
    }
    Ok(())
}

fn see_vlans(
    alloc: Global,
    seen: &mut Attached,
    edges: &Edges,
    vlans: &[Vlan],
) -> Result<(), NoMemory>
    ensures { OnOk result ((t : List ℕ) → contains_text seen.new t ≡ (contains_text seen.old t || list_any (λ v. is_in t v.acls && has_edge_member edges.now v.vid) vlans.now)) }
{
    for vlan in vlans {
        see_vlan(alloc, seen, edges, vlan)?;
    }
    Ok(())
}

/// The names of the ACLs that are attached on the datapath.
pub(crate) fn attached_on(alloc: Global, conf: &Resolved, dp: &Dp) -> Result<Attached, NoMemory>
    ensures { IfOk result (λ names. (t : List ℕ) → contains_text names t ≡ is_attached conf.now dp.now t) }
{
    let mut names = BTreeSet::new(alloc);
    let edges = Edges::of(dp);
    see_ports(alloc, &mut names, dp.ports.as_slice())?;
    see_vlans(alloc, &mut names, &edges, conf.vlans().as_slice())?;
    Ok(names)
}
