ghost use Rattle.std.specs.Prelude.{◌≡◌, ◌<◌, length, slice_get, MatchOption, Some, All, IfOk};
ghost use Rattle.stack_paths.specs.Stack.{IsStack, ids};
ghost use Rattle.stack_paths.specs.Hops.{IsHops};

use net_base::{DpId, NoMemory, Node, PortNo, StackLink};
use std::alloc::Global;

/// One direction of a link, with its datapaths by their places among the nodes.
#[derive(Clone, Copy)]
pub(crate) struct Hop {
    pub(crate) from: usize,
    pub(crate) port: PortNo,
    pub(crate) to: usize,
    pub(crate) far_port: PortNo,
}

/// The place of a datapath among the nodes.
pub(crate) fn place_of(nodes: &[Node], dp: DpId) -> Option<usize>
    ensures { MatchOption result
        ((i : _) → slice_get (ids nodes.now) i ≡ Some dp → ⊥)
        (λ i. slice_get (ids nodes.now) i ≡ Some dp) }
{
    for (place, node) in nodes.iter().enumerate() {
        if node.id == dp {
            return Some(place);
        }
    }
    None
}

/// The place of a datapath that is one of the nodes.
fn known_place(nodes: &[Node], dp: DpId) -> usize
    requires { (i : _) × (slice_get (ids nodes.now) i ≡ Some dp) }
    ensures { slice_get (ids nodes.now) result ≡ Some dp }
{
    place_of(nodes, dp).unwrap()
}

/// The links, once in each direction.
pub(crate) fn hops_of(
    alloc: Global,
    nodes: &[Node],
    links: &[StackLink],
) -> Result<Vec<Hop>, NoMemory>
    requires { IsStack (record { nodes = nodes.now; links = links.now }) }
    ensures hops { IfOk result
        (λ hops. IsHops (record { nodes = nodes.now; links = links.now }) hops.items) }
    ensures places { IfOk result
        (λ hops. All (λ h. (h.from < length nodes.now) × (h.to < length nodes.now)) hops.items) }
{
    let mut hops = Vec::with_capacity(alloc, links.len())?;
    for link in links {
        let a = known_place(nodes, link.a);
        let b = known_place(nodes, link.b);
        hops.push(Hop {
            from: a,
            port: link.a_port,
            to: b,
            far_port: link.b_port,
        })?;
        hops.push(Hop {
            from: b,
            port: link.b_port,
            to: a,
            far_port: link.a_port,
        })?;
    }
    Ok(hops)
}
