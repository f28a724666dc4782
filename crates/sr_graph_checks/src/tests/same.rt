//! Which graphs are the same, which nets have the same lists, and what is the same at another depth.

use super::fixtures::{Line, Span, id, net_with, spanned};
use sr_graph::Graph;
use sr_labels::Net;
use sr_model::{MOST_DEPTH, NodeNo};
use std::alloc::Global;
use std::test::Fail;

/// Nodes 1 to 3 in a triangle of metric 1, but for this metric from 1 to 2. The links whose ends add
/// up to the risky number have group 7.
fn triangle(alloc: Global, metric: u32, risky: u64) -> Result<Graph, Fail> {
    let lines: [Line; 6] = [
        (1, 2, metric),
        (2, 1, 1),
        (2, 3, 1),
        (3, 2, 1),
        (3, 1, 1),
        (1, 3, 1),
    ];
    let mut spans = Vec::new(alloc);
    for (from, to, metric) in lines {
        spans.push(Span {
            from,
            to,
            metric,
            number: 0,
        })?;
    }
    spanned(alloc, 3, &spans, risky)
}

/// A metric differs, and then a risk group.
#[test]
fn the_same_graph_has_the_same_links(rt: HostRuntime) -> Result<(), Fail> {
    let alloc = rt.alloc();
    let graph = triangle(alloc, 1, 3)?;
    for (metric, risky, same) in [(1, 3, true), (2, 3, false), (1, 4, false)] {
        let other = triangle(alloc, metric, risky)?;
        assert_eq!(rt; graph.is_same(&other), same);
    }
    Ok(())
}

#[test]
fn the_same_graph_has_the_same_overloaded_nodes(rt: HostRuntime) -> Result<(), Fail> {
    let alloc = rt.alloc();
    let mut graph = triangle(alloc, 1, 3)?;
    graph.mark(alloc, [id(2)].as_slice())?;
    for (overloaded, same) in [(2, true), (3, false)] {
        assert!(rt; overloaded < 4u64);
        let mut other = triangle(alloc, 1, 3)?;
        other.mark(alloc, [id(overloaded)].as_slice())?;
        assert_eq!(rt; graph.is_same(&other), same);
    }
    Ok(())
}

/// The nodes from this number on have an index. A metric differs, and then the index of node 1.
#[test]
fn the_same_lists_are_of_the_same_graph_and_indices(rt: HostRuntime) -> Result<(), Fail> {
    let alloc = rt.alloc();
    let net = net_with(alloc, triangle(alloc, 1, 3)?, 0, 8)?;
    for (metric, first, same) in [(1, 0, true), (2, 0, false), (1, 1, false)] {
        let other = net_with(alloc, triangle(alloc, metric, 3)?, first, 8)?;
        assert_eq!(rt; net.has_same_lists(&other), same);
    }
    Ok(())
}

#[test]
fn shallower_lists_are_the_same_lists(rt: HostRuntime) -> Result<(), Fail> {
    let alloc = rt.alloc();
    let net = net_with(alloc, triangle(alloc, 1, 3)?, 0, 8)?;
    let shallow = net_with(alloc, triangle(alloc, 1, 3)?, 0, 3)?;
    assert!(rt; net.has_same_lists(&shallow));
    Ok(())
}

/// Whether the nodes announce the same ranges and indices in both nets.
fn have_same_labels(one: &Net, other: &Net) -> bool {
    let few = one.graph().node_count();
    if other.graph().node_count() != few {
        return false;
    }
    for number in 0..few {
        let node = NodeNo(number as u16);
        let (labels, others) = (one.labels(node), other.labels(node));
        if labels.srgb().ranges() != others.srgb().ranges() || labels.index() != others.index() {
            return false;
        }
    }
    true
}

/// Node 1 has no index, and nodes 2 and 3 have one.
#[test]
fn another_depth_is_all_that_differs(rt: HostRuntime) -> Result<(), Fail> {
    let alloc = rt.alloc();
    let net = net_with(alloc, triangle(alloc, 1, 3)?, 1, 8)?;
    for depth in [0, 3, 8, 12] {
        assert!(rt; depth <= MOST_DEPTH);
        let other = net.with_depth(depth)?;
        assert_eq!(rt; other.depth(), depth);
        assert!(rt; other.graph().is_same(net.graph()));
        assert!(rt; have_same_labels(&net, &other));
    }
    assert_eq!(rt; net.depth(), 8);
    Ok(())
}
