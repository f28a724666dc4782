//! What is counted of the answers of an audit. What is wanted is counted by hand, from the
//! definitions.

use super::fixtures::{Line, RING_WITH_LEAF, graph_of, net_with, version_of};
use sr_audit::{Counts, audit, counts};
use std::test::Fail;

/// A net whose nodes have indices from this number on, and whose lists have at most that many
/// segments; and how many answers of its audit are of each sort.
struct Told {
    name: &'static str,
    nodes: u64,
    links: &'static [Line],
    first: u32,
    depth: u8,
    counts: Counts,
}

const TOLD: [Told; 2] = [
    // To node 1, which has no index, nothing is repaired. In a link case, and likewise in an SRLG
    // case, 2 repairs would need a segment of node 1, and 6 need one of another node; 8 need none.
    // In a node case 8 need none. To and from the leaf there is no other way.
    Told {
        name: "a ring with a leaf, no segments, and no index at node 1",
        nodes: 5,
        links: &RING_WITH_LEAF,
        first: 1,
        depth: 0,
        counts: Counts {
            covered: 24,
            nopath: 12,
            nolist: 4,
            toodeep: 12,
        },
    },
    Told {
        name: "no nodes",
        nodes: 0,
        links: &[],
        first: 0,
        depth: 0,
        counts: Counts {
            covered: 0,
            nopath: 0,
            nolist: 0,
            toodeep: 0,
        },
    },
];

#[test]
fn each_sort_of_answer_is_counted_apart(rt: HostRuntime) -> Result<(), Fail> {
    let alloc = rt.alloc();
    for told in &TOLD {
        assert!(rt; told.nodes < 256 && told.depth < 13);
        let graph = graph_of(alloc, told.nodes, told.links)?;
        let net = net_with(alloc, graph, told.first, told.depth)?;
        let version = version_of(&rt, alloc, net)?;
        let report = audit(&rt, alloc, &version)?;
        assert_eq!(rt; report.version(), 1);
        assert!(rt; report.counts() == told.counts, "{}", told.name);
        assert!(rt; counts(&version) == told.counts, "{}", told.name);
    }
    Ok(())
}

/// The first version lets all lists through.
#[test]
fn a_renewed_version_is_counted_by_its_own_depth(rt: HostRuntime) -> Result<(), Fail> {
    let alloc = rt.alloc();
    for told in &TOLD {
        assert!(rt; told.nodes < 256 && told.depth < 13);
        let graph = graph_of(alloc, told.nodes, told.links)?;
        let net = net_with(alloc, graph, told.first, 12)?;
        let version = version_of(&rt, alloc, net)?;
        assert_eq!(rt; version.number(), 1);
        let renewed = version.renewed(told.depth)?;
        assert_eq!(rt; renewed.number(), 2);
        assert!(rt; counts(&renewed) == told.counts, "{}", told.name);
    }
    Ok(())
}
