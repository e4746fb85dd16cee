//! The calls of stack_paths: stacks with their distances, next hops, roots and tree ports, worked out
//! by hand.

use net_base::{DpId, NoMemory, Node, PortNo, StackLink};
use stack_paths::{Paths, is_stack};
use std::alloc::Global;
use std::process::Abort;
use std::test::Fail;

/// A datapath by its number, with its priority.
type NodeRow = (u64, Option<u32>);

/// A link by datapath, port, datapath, port.
type LinkRow = (u64, u32, u64, u32);

/// From one datapath to another: the distance and the port of the next hop, 0 where there is none.
type WayRow = (u64, u64, Option<u32>, u32);

/// A datapath's root and its tree ports.
type TreeRow = (u64, Option<u64>, &'static [u32]);

fn nodes_of(alloc: Global, rows: &[NodeRow]) -> Result<Vec<Node>, NoMemory> {
    let mut nodes = Vec::new(alloc);
    for (id, priority) in rows {
        nodes.push(Node {
            id: DpId(*id),
            priority: *priority,
        })?;
    }
    Ok(nodes)
}

fn links_of(rt: &impl Abort, alloc: Global, rows: &[LinkRow]) -> Result<Vec<StackLink>, NoMemory> {
    let mut links = Vec::new(alloc);
    for (a, a_port, b, b_port) in rows {
        links.push(StackLink {
            a: DpId(*a),
            a_port: PortNo::new(*a_port).expect(rt, "a port"),
            b: DpId(*b),
            b_port: PortNo::new(*b_port).expect(rt, "a port"),
        })?;
    }
    Ok(links)
}

fn check_ways(rt: &impl Abort, paths: &Paths, rows: &[WayRow]) {
    for (from, to, distance, hop) in rows {
        let found = paths.distance(DpId(*from), DpId(*to));
        assert!(rt; found == *distance, "{from} to {to}");
        let port = match paths.next_hop(DpId(*from), DpId(*to)) {
            Some(port) => port.get(),
            None => 0,
        };
        assert!(rt; port == *hop, "{from} to {to}");
    }
}

/// Whether the ports have these numbers.
fn are_ports(found: &[PortNo], ports: &[u32]) -> bool {
    found.len() == ports.len()
        && found
            .iter()
            .zip(ports)
            .all(|(port, number)| port.get() == *number)
}

fn check_trees(rt: &impl Abort, paths: &Paths, rows: &[TreeRow]) {
    for (dp, root, ports) in rows {
        assert!(rt; paths.root_of(DpId(*dp)) == root.map(DpId), "root of {dp}");
        assert!(rt;
            are_ports(paths.tree_ports(DpId(*dp)), ports),
            "tree of {dp}"
        );
    }
}

const RING: &[NodeRow] = &[(1, Some(1)), (2, None), (3, None)];

const TREE: &[NodeRow] = &[
    (5, None),
    (6, Some(9)),
    (7, Some(4)),
    (8, Some(4)),
    (9, None),
    (10, None),
    (11, None),
];

const STACKS: [(&[NodeRow], &[LinkRow], &[WayRow], &[TreeRow]); 9] = [
    // A ring of three with all its links.
    (
        RING,
        &[(1, 1, 2, 1), (1, 2, 3, 1), (2, 2, 3, 2)],
        &[(1, 2, Some(1), 1), (2, 3, Some(1), 2), (3, 1, Some(1), 1)],
        &[
            (1, Some(1), &[1, 2]),
            (2, Some(1), &[1]),
            (3, Some(1), &[1]),
        ],
    ),
    // The ring without its first, its second and its third link.
    (
        RING,
        &[(1, 2, 3, 1), (2, 2, 3, 2)],
        &[(1, 2, Some(2), 2), (2, 1, Some(2), 2), (3, 1, Some(1), 1)],
        &[
            (1, Some(1), &[2]),
            (2, Some(1), &[2]),
            (3, Some(1), &[1, 2]),
        ],
    ),
    (
        RING,
        &[(1, 1, 2, 1), (2, 2, 3, 2)],
        &[(1, 3, Some(2), 1), (3, 1, Some(2), 2), (2, 3, Some(1), 2)],
        &[
            (1, Some(1), &[1]),
            (2, Some(1), &[1, 2]),
            (3, Some(1), &[2]),
        ],
    ),
    (
        RING,
        &[(1, 1, 2, 1), (1, 2, 3, 1)],
        &[(2, 3, Some(2), 1), (3, 2, Some(2), 1), (1, 3, Some(1), 2)],
        &[
            (1, Some(1), &[1, 2]),
            (2, Some(1), &[1]),
            (3, Some(1), &[1]),
        ],
    ),
    // Roots go by priority and then by order.
    (
        TREE,
        &[(5, 1, 6, 1), (6, 2, 8, 1), (8, 2, 7, 1), (10, 1, 9, 1)],
        &[
            (5, 7, Some(3), 1),
            (5, 9, None, 0),
            (11, 11, Some(0), 0),
            (12, 12, None, 0),
        ],
        &[
            (5, Some(7), &[1]),
            (6, Some(7), &[1, 2]),
            (8, Some(7), &[1, 2]),
            (10, Some(9), &[1]),
            (11, Some(11), &[]),
            (12, None, &[]),
        ],
    ),
    // Of parallel links the one with the lesser port of one's own is taken.
    (
        RING,
        &[(1, 5, 2, 2), (1, 3, 2, 7), (2, 1, 1, 4)],
        &[(1, 2, Some(1), 3), (2, 1, Some(1), 1)],
        &[(1, Some(1), &[4]), (2, Some(1), &[1]), (3, Some(3), &[])],
    ),
    // Uplinks go by the order of the datapaths before the port.
    (
        &[(1, Some(1)), (3, None), (2, None), (4, None)],
        &[(1, 1, 2, 1), (1, 2, 3, 1), (4, 1, 2, 2), (4, 9, 3, 2)],
        &[(1, 4, Some(2), 2), (4, 1, Some(2), 9)],
        &[
            (4, Some(1), &[9]),
            (3, Some(1), &[1, 2]),
            (2, Some(1), &[1]),
        ],
    ),
    // No datapath, and one.
    (&[], &[], &[(1, 1, None, 0)], &[(1, None, &[])]),
    (
        &[(1, None)],
        &[],
        &[(1, 1, Some(0), 0)],
        &[(1, Some(1), &[])],
    ),
];

#[test]
fn paths_of_stacks(rt: HostRuntime) -> Result<(), Fail> {
    for (nodes, links, ways, trees) in STACKS {
        let nodes = nodes_of(rt.alloc(), nodes)?;
        let links = links_of(&rt, rt.alloc(), links)?;
        assert!(rt; is_stack(nodes.as_slice(), links.as_slice()));
        let paths = Paths::new(rt.alloc(), nodes.as_slice(), links.as_slice())?;
        check_ways(&rt, &paths, ways);
        check_trees(&rt, &paths, trees);
    }
    Ok(())
}

const REFUSED: [(&[NodeRow], &[LinkRow]); 5] = [
    // A datapath twice, a link to itself, to no datapath, and a port that is an end of two links.
    (&[(1, None), (2, None), (1, Some(1))], &[]),
    (RING, &[(1, 1, 1, 2)]),
    (RING, &[(1, 1, 4, 2)]),
    (RING, &[(1, 1, 2, 1), (3, 1, 1, 1)]),
    (RING, &[(1, 1, 2, 1), (2, 2, 3, 1), (3, 1, 1, 2)]),
];

#[test]
fn what_is_no_stack(rt: HostRuntime) -> Result<(), Fail> {
    for (nodes, links) in REFUSED {
        let nodes = nodes_of(rt.alloc(), nodes)?;
        let links = links_of(&rt, rt.alloc(), links)?;
        assert!(rt; !is_stack(nodes.as_slice(), links.as_slice()));
    }
    Ok(())
}

/// A stack has at most 64 datapaths.
#[test]
fn at_most_64_datapaths(rt: HostRuntime) -> Result<(), Fail> {
    let mut nodes = Vec::new(rt.alloc());
    for number in 1..=64 {
        nodes.push(Node {
            id: DpId(number),
            priority: None,
        })?;
    }
    assert!(rt; is_stack(nodes.as_slice(), &[]));
    nodes.push(Node {
        id: DpId(65),
        priority: None,
    })?;
    assert!(rt; !is_stack(nodes.as_slice(), &[]));
    Ok(())
}
