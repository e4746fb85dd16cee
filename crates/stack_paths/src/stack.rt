ghost use Rattle.std.specs.Prelude.{◌≡◌, ◌≢◌, ◌↔◌, ◌<◌, ◌≤◌, ℕ, Some, All, AllPairs, IsTrue, length, slice_get};
ghost use Rattle.stack_paths.specs.Stack.{ids, IsEnd, IsStack, ArePortsApart};

use crate::hops::place_of;
use net_base::{DpId, Node, StackLink};

/// Whether the datapath is one of the nodes.
fn is_node(nodes: &[Node], dp: DpId) -> bool
    ensures { IsTrue result ↔ ((i : ℕ) × (slice_get (ids nodes.now) i ≡ Some dp)) }
{
    place_of(nodes, dp).is_some()
}

/// Whether none of the nodes has the identifier.
fn is_new(nodes: &[Node], dp: DpId) -> bool
    ensures { IsTrue result ↔ All (λ n. n.id ≢ dp) nodes.now }
{
    for node in nodes {
        if node.id == dp {
            return false;
        }
    }
    true
}

/// Whether the nodes are all different.
fn are_distinct(nodes: &[Node]) -> bool
    ensures { IsTrue result ↔ AllPairs (λ m n. m.id ≢ n.id) nodes.now }
{
    for (place, node) in nodes.iter().enumerate() {
        if !is_new(&nodes[..place], node.id) {
            return false;
        }
    }
    true
}

/// Whether the link is between two different ones of the nodes.
fn is_between_two(nodes: &[Node], link: &StackLink) -> bool
    ensures { IsTrue result
        ↔ (((i : ℕ) × (slice_get (ids nodes.now) i ≡ Some link.now.a))
        × ((i : ℕ) × (slice_get (ids nodes.now) i ≡ Some link.now.b))
        × (link.now.a ≢ link.now.b)) }
{
    is_node(nodes, link.a) && is_node(nodes, link.b) && link.a != link.b
}

/// Whether each link is between two different ones of the nodes.
fn are_between_two(nodes: &[Node], links: &[StackLink]) -> bool
    ensures { IsTrue result
        ↔ All
        (λ l. ((i : ℕ) × (slice_get (ids nodes.now) i ≡ Some l.a))
        × ((i : ℕ) × (slice_get (ids nodes.now) i ≡ Some l.b))
        × (l.a ≢ l.b))
        links.now }
{
    for link in links {
        if !is_between_two(nodes, link) {
            return false;
        }
    }
    true
}

/// Whether the port of the datapath is an end of the link.
fn is_end(link: &StackLink, dp: DpId, port: u32) -> bool
    ensures { IsTrue result ↔ IsEnd link.now dp port }
{
    link.a == dp && link.a_port.get() == port || link.b == dp && link.b_port.get() == port
}

/// Whether no port is an end of both links.
fn are_ports_apart(l: &StackLink, m: &StackLink) -> bool
    ensures { IsTrue result ↔ ArePortsApart l.now m.now }
{
    !is_end(m, l.a, l.a_port.get()) && !is_end(m, l.b, l.b_port.get())
}

/// Whether no port of the link is an end of one of the links.
fn is_apart(links: &[StackLink], link: &StackLink) -> bool
    ensures { IsTrue result ↔ All (λ l. ArePortsApart l link.now) links.now }
{
    for other in links {
        if !are_ports_apart(other, link) {
            return false;
        }
    }
    true
}

/// Whether no port is an end of two of the links.
fn are_apart(links: &[StackLink]) -> bool
    ensures { IsTrue result ↔ AllPairs ArePortsApart links.now }
{
    for (place, link) in links.iter().enumerate() {
        if !is_apart(&links[..place], link) {
            return false;
        }
    }
    true
}

/// Whether there are at most 64 nodes, all different.
fn are_nodes(nodes: &[Node]) -> bool
    ensures { IsTrue result
        ↔ ((length nodes.now ≤ 64) × AllPairs (λ m n. m.id ≢ n.id) nodes.now) }
{
    nodes.len() <= 64 && are_distinct(nodes)
}

/// Whether the links are between the nodes and share no port.
fn are_links(nodes: &[Node], links: &[StackLink]) -> bool
    ensures { IsTrue result
        ↔ (All
        (λ l. ((i : ℕ) × (slice_get (ids nodes.now) i ≡ Some l.a))
        × ((i : ℕ) × (slice_get (ids nodes.now) i ≡ Some l.b))
        × (l.a ≢ l.b))
        links.now
        × AllPairs ArePortsApart links.now) }
{
    are_between_two(nodes, links) && are_apart(links)
}

/// Whether `Paths::new` takes these: at most 64 datapaths, all different, each link between two
/// different ones of them, and no port of a datapath an end of two links.
pub fn is_stack(nodes: &[Node], links: &[StackLink]) -> bool
    ensures { IsTrue result ↔ IsStack (record { nodes = nodes.now; links = links.now }) }
{
    are_nodes(nodes) && are_links(nodes, links)
}
