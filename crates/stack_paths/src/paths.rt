ghost use Rattle.std.specs.Prelude.{◌≡◌, ◌==◌, ◌⊎◌, ◌↔◌, ◌<◌, ◌≤◌, [], ℕ, Some, None, All, Contains, IsSome, IfOk, IfSome, IfNone, MatchOption, length, slice_get, slice_index_or};
ghost use Rattle.std.specs.List.{list_any};
ghost use Rattle.std.specs.List.Sorted.{IsStrictlyIncreasing};
ghost use Rattle.stack_paths.specs.Stack.{ids, IsStack, IsNode, Walk, IsRoot, IsNextHop, IsTreePort};
ghost use Rattle.stack_paths.specs.Hops.{answer_at};
ghost use Rattle.stack_paths.specs.Chosen.{hop_of, is_tree_port};

use crate::hops::{hops_of, place_of};
use crate::roots::roots_of;
use crate::tree::{trees_of, uplinks_of};
use crate::ways::{Ways, all_ways};
use net_base::{DpId, Items, NoMemory, Node, Nodes, PortNo, StackLink, StackLinks};
use std::alloc::Global;
use std::marker::Model;

/// The paths of a stack of datapaths. Contracts see its datapaths and its links.
#[derive(Drop)]
pub struct Paths {
    nodes: Nodes,
    links: StackLinks,
    ways: Vec<Ways>,
    roots: Vec<usize>,
    trees: Vec<Vec<PortNo>>,
}

impl Model for Paths {
    ghost use Rattle.stack_paths.specs.Stack.{Stack};

    ghost Value = { Stack };

    ghost use Rattle.stack_paths.specs.Tables.{AreTables};

    ghost view = { λ p. record { nodes = p.nodes; links = p.links } };

    ghost invariant = { λ p. AreTables (record { nodes = p.nodes; links = p.links }) p.ways.items p.roots.items p.trees.items };
}

/// The distance between two places, by the ways to each.
fn distance_at(ways: &[Ways], from: usize, to: usize) -> Option<u32>
    requires to { to < length ways.now }
    requires from { (d : _) → from < length (slice_index_or ways.now to d).distances.items }
    ensures { (d : _) → result ≡ answer_at (slice_index_or ways.now to d).distances.items from }
{
    let ways = &ways[to];
    ways.distances[from]
}

/// The port of the first hop between two places, by the ways to each.
fn hop_at(ways: &[Ways], from: usize, to: usize) -> Option<PortNo>
    requires to { to < length ways.now }
    requires from { (d : _) → from < length (slice_index_or ways.now to d).hops.items }
    ensures { (d : _) → MatchOption result
        (answer_at (slice_index_or ways.now to d).hops.items from ≡ None)
        (λ port. (h : _)
        × (answer_at (slice_index_or ways.now to d).hops.items from ≡ Some h)
        × (h.port ≡ port)) }
{
    let ways = &ways[to];
    match &ways.hops[from] {
        Some(hop) => Some(hop.port),
        None => None,
    }
}

/// The datapath that the table of roots has at a place.
fn root_at(nodes: &[Node], roots: &[usize], place: usize) -> DpId
    requires place { place < length roots.now }
    requires roots { All (λ r. r < length nodes.now) roots.now }
    ensures { (x : ℕ) → slice_get (ids nodes.now) (slice_index_or roots.now place x) ≡ Some result }
{
    nodes[roots[place]].id
}

/// Whether the port is one of these.
fn has_port(ports: &[PortNo], port: PortNo) -> bool
    ensures { result ≡ list_any (λ q. q == port) ports.now }
{
    ports.iter().any(|other| other.get() == port.get())
}

impl Paths {
    /// The paths of these datapaths, in the order of their names, and of these links, of which both
    /// ends are up. There are at most 64 datapaths, all different; each link is between two different
    /// ones of them, and no port of a datapath is an end of two links.
    pub fn new(alloc: Global, nodes: &[Node], links: &[StackLink]) -> Result<Paths, NoMemory>
        requires { IsStack (record { nodes = nodes.now; links = links.now }) }
        ensures { IfOk result (λ paths. paths ≡ record { nodes = nodes.now; links = links.now }) }
    {
        let hops = hops_of(alloc, nodes, links)?;
        let ways = all_ways(alloc, nodes.len(), hops.as_slice())?;
        let roots = roots_of(alloc, nodes, ways.as_slice())?;
        let uplinks = uplinks_of(alloc, ways.as_slice(), roots.as_slice())?;
        let trees = trees_of(alloc, nodes.len(), uplinks.as_slice())?;
        Ok(Paths {
            nodes: Items::from_slice(alloc, nodes)?,
            links: Items::from_slice(alloc, links)?,
            ways,
            roots,
            trees,
        })
    }

    /// How many links the shortest walk from one datapath to the other has; `None` exactly where no
    /// walk joins them, as where one of them is no datapath of the stack.
    pub fn distance(&self, from: DpId, to: DpId) -> Option<u32>
        ensures walk { IfSome result (λ n. Walk self.now from to n) }
        ensures least { IfSome result (λ n. (m : ℕ) → Walk self.now from to m → n ≤ m) }
        ensures none { IfNone result ((m : ℕ) → Walk self.now from to m → ⊥) }
    {
        let nodes = self.nodes.as_slice();
        match (place_of(nodes, from), place_of(nodes, to)) {
            (Some(from), Some(to)) => distance_at(self.ways.as_slice(), from, to),
            _ => None,
        }
    }

    /// The port by which one datapath sends towards the other: the first link on a shortest walk, by
    /// the order of the datapaths that the links lead to, then by port. `None` exactly where no walk
    /// joins them or they are the same.
    pub fn next_hop(&self, from: DpId, to: DpId) -> Option<PortNo>
        ensures exact { result ≡ hop_of self.now from to }
        ensures hop { IfSome result (λ port. IsNextHop self.now from to port) }
        ensures none { IfNone result ((from ≡ to) ⊎ ((m : ℕ) → Walk self.now from to m → ⊥)) }
    {
        let nodes = self.nodes.as_slice();
        match (place_of(nodes, from), place_of(nodes, to)) {
            (Some(from), Some(to)) => hop_at(self.ways.as_slice(), from, to),
            _ => None,
        }
    }

    /// The root of the part of a datapath: of the datapaths joined to it the one with the least
    /// priority, one without a priority after all with one, and of equal ones the first in order.
    /// `None` exactly where it is no datapath of the stack.
    pub fn root_of(&self, dp: DpId) -> Option<DpId>
        ensures root { IfSome result (λ root. IsRoot self.now dp root) }
        ensures node { IsSome result ↔ IsNode self.now dp }
    {
        let nodes = self.nodes.as_slice();
        match place_of(nodes, dp) {
            Some(place) => Some(root_at(nodes, self.roots.as_slice(), place)),
            None => None,
        }
    }

    /// The ports of a datapath that are in the tree of its part, in ascending order; none for what is
    /// no datapath of the stack.
    pub fn tree_ports(&self, dp: DpId) -> &[PortNo]
        ensures ports { (p : ℕ) → Contains result.now p ↔ IsTreePort self.now dp p }
        ensures ascending { IsStrictlyIncreasing result.now }
        ensures no_node { (IsNode self.now dp → ⊥) → result.now ≡ [] }
    {
        match place_of(self.nodes.as_slice(), dp) {
            Some(place) => self.trees[place].as_slice(),
            None => &[],
        }
    }

    /// Whether a port of a datapath is in the tree of its part.
    pub fn is_tree_port(&self, dp: DpId, port: PortNo) -> bool
        ensures { result ≡ is_tree_port self.now dp port }
    {
        let _ = &self.nodes;
        has_port(self.tree_ports(dp), port)
    }
}
