//! Distances and next hops in a ring of four nodes and in a chain.

use super::drawn::row_of;
use super::fixtures::{Line, RING, graph_of, id, trees_of};
use sr_graph::Graph;
use sr_model::{Case, FAR, Kind, LinkNo, NodeNo};
use sr_spf::Trees;
use std::alloc::Global;
use std::test::Fail;

/// Nodes 1 to 4: links from 1 to 2 and from 2 to 3, none at 4.
const CHAIN: [Line; 2] = [(2, 3, 7), (1, 2, 10)];

/// What is told of the trees of a graph of four nodes: the distances from some nodes, those from
/// one node to another, and the next hops from one node to another. The number of the system id
/// that is overloaded is 0 where none is.
struct Told {
    name: &'static str,
    links: &'static [Line],
    overloaded: u64,
    cells: &'static [(u16, [u64; 4])],
    distances: &'static [(u16, u16, Option<u64>)],
    hops: &'static [(u16, u16, &'static [LinkNo])],
}

const TOLD: [Told; 3] = [
    Told {
        name: "a ring has two ways across",
        links: &RING,
        overloaded: 0,
        cells: &[(2, [2, 1, 0, 1])],
        distances: &[(3, 1, Some(2))],
        hops: &[
            (0, 2, &[LinkNo(0), LinkNo(1)]),
            (0, 0, &[]),
            (3, 1, &[LinkNo(6), LinkNo(7)]),
            (1, 2, &[LinkNo(3)]),
        ],
    },
    Told {
        name: "no walk passes through an overloaded node",
        links: &RING,
        overloaded: 4,
        cells: &[(0, [0, 1, 2, 1])],
        distances: &[],
        hops: &[(0, 2, &[LinkNo(0)]), (3, 1, &[LinkNo(6), LinkNo(7)])],
    },
    Told {
        name: "a chain has an end",
        links: &CHAIN,
        overloaded: 0,
        cells: &[(0, [0, 10, 17, FAR]), (2, [FAR, FAR, 0, FAR])],
        distances: &[(1, 2, Some(7)), (2, 1, None)],
        hops: &[(0, 2, &[LinkNo(0)]), (2, 1, &[])],
    },
];

/// The graph of four nodes, one of which may be overloaded.
fn graph_with(alloc: Global, links: &[Line], overloaded: u64) -> Result<Graph, Fail> {
    if overloaded > 4 {
        return Err(Fail::new("there are four nodes"));
    }
    let mut graph = graph_of(alloc, 4, links)?;
    graph.mark(alloc, [id(overloaded)].as_slice())?;
    Ok(graph)
}

/// Whether the trees have these distances from these nodes.
fn have_cells(trees: &Trees, cells: &[(u16, [u64; 4])]) -> bool {
    for (from, row) in cells {
        if *from as u32 >= trees.node_count() || trees.cells(NodeNo(*from)) != row.as_slice() {
            return false;
        }
    }
    true
}

/// Whether the trees have these distances between these nodes.
fn have_distances(trees: &Trees, distances: &[(u16, u16, Option<u64>)]) -> bool {
    for &(from, to, distance) in distances {
        let few = trees.node_count();
        if from as u32 >= few || to as u32 >= few {
            return false;
        }
        if trees.dist(NodeNo(from), NodeNo(to)) != distance {
            return false;
        }
    }
    true
}

/// Whether the trees have these next hops between these nodes.
fn have_hops(trees: &Trees, hops: &[(u16, u16, &[LinkNo])]) -> bool {
    for &(from, to, links) in hops {
        let few = trees.node_count();
        if from as u32 >= few || to as u32 >= few {
            return false;
        }
        if trees.next_hops(NodeNo(from), NodeNo(to)) != links {
            return false;
        }
    }
    true
}

#[test]
fn trees_have_distances_and_next_hops(rt: HostRuntime) -> Result<(), Fail> {
    let alloc = rt.alloc();
    for told in &TOLD {
        let name = told.name;
        let graph = graph_with(alloc, told.links, told.overloaded)?;
        let trees = trees_of(&rt, alloc, &graph)?;
        assert!(rt; have_cells(&trees, told.cells), "{name}");
        assert!(rt; have_distances(&trees, told.distances), "{name}");
        assert!(rt; have_hops(&trees, told.hops), "{name}");
    }
    Ok(())
}

/// A ring without a pair is a chain, in which an overloaded node leaves no way beyond it.
#[test]
fn a_row_does_without_a_pair(rt: HostRuntime) -> Result<(), Fail> {
    let alloc = rt.alloc();
    for (overloaded, cells) in [(0, [0, 3, 2, 1]), (4, [0, FAR, FAR, 1])] {
        let graph = graph_with(alloc, &RING, overloaded)?;
        assert!(rt; graph.node_count() == 4);
        assert!(rt; graph.link_count() == 8);
        let case = Case {
            kind: Kind::Link,
            link: LinkNo(0),
        };
        let failed = graph.failed(alloc, case)?;
        let row = row_of(alloc, &graph, &failed, NodeNo(0))?;
        assert_eq!(rt; row.as_slice(), cells.as_slice());
    }
    Ok(())
}
