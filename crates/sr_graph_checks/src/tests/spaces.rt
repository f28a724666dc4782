//! The spaces of small rings.
ghost use Rattle.std.specs.Prelude.{◌<◌};
ghost use Rattle.sr_model.specs.Graph.{node_count};
ghost use Rattle.sr_spf.specs.Trees.{AreTrees};

use super::fixtures::{Line, RING, graph_of, id, trees_of};
use sr_graph::{Graph, LinkSet};
use sr_model::{Case, Kind, LinkNo, NodeNo};
use sr_spaces::{NodeSet, Spaces, extended_p, p_row, q_set};
use sr_spf::Trees;
use std::alloc::{AllocError, Global};
use std::test::Fail;

/// Nodes 1 to 5 in a ring of metric 1. In order of key the first two links are 1>2 and 1>5.
const RING_OF_FIVE: [Line; 10] = [
    (1, 2, 1),
    (2, 1, 1),
    (2, 3, 1),
    (3, 2, 1),
    (3, 4, 1),
    (4, 3, 1),
    (4, 5, 1),
    (5, 4, 1),
    (5, 1, 1),
    (1, 5, 1),
];

/// A ring, the number of the system id that is overloaded, 0 where none is, and a link; and which
/// nodes are in the spaces where the link's pair fails: P and extended P of its beginning, and Q of
/// its end.
struct Told {
    name: &'static str,
    nodes: u64,
    links: &'static [Line],
    overloaded: u64,
    link: u16,
    p: &'static [bool],
    extended: &'static [bool],
    q: &'static [bool],
}

const TOLD: [Told; 4] = [
    // Of two equal ways from 1 to 3, and from 4 to 2, one has the pair.
    Told {
        name: "a ring of four",
        nodes: 4,
        links: &RING,
        overloaded: 0,
        link: 0,
        p: &[true, false, false, true],
        extended: &[true, false, true, true],
        q: &[false, true, true, false],
    },
    // Node 4 adds itself alone to what node 1 reaches. From it two equal ways still lead to node 2.
    Told {
        name: "where one of four is overloaded",
        nodes: 4,
        links: &RING,
        overloaded: 4,
        link: 0,
        p: &[true, false, false, true],
        extended: &[true, false, false, true],
        q: &[false, true, true, false],
    },
    // No way from 1 to 3 leads over node 4. Of two equal ways from 2 to 4 one has the pair.
    Told {
        name: "where one of four is overloaded, on the other side",
        nodes: 4,
        links: &RING,
        overloaded: 4,
        link: 1,
        p: &[true, true, true, false],
        extended: &[true, true, true, false],
        q: &[false, false, true, true],
    },
    Told {
        name: "a ring of five",
        nodes: 5,
        links: &RING_OF_FIVE,
        overloaded: 0,
        link: 0,
        p: &[true, false, false, true, true],
        extended: &[true, false, true, true, true],
        q: &[false, true, true, true, false],
    },
];

/// The graph of the ring.
fn graph_told(alloc: Global, told: &Told) -> Result<Graph, Fail> {
    if told.nodes > 255 || told.overloaded > 255 {
        return Err(Fail::new("there are few nodes"));
    }
    let mut graph = graph_of(alloc, told.nodes, told.links)?;
    graph.mark(alloc, [id(told.overloaded)].as_slice())?;
    Ok(graph)
}

/// Whether the set has just the nodes whose test is true.
fn tells(set: &NodeSet, tests: &[bool]) -> bool {
    let mut node = 0u16;
    for test in tests {
        if set.has(NodeNo(node)) != *test {
            return false;
        }
        node = node.saturating_add(1);
    }
    true
}

/// Whether P and extended P of the node are those that are told.
fn are_told_before(
    alloc: Global,
    graph: &Graph,
    trees: &Trees,
    node: NodeNo,
    failed: &LinkSet,
    told: &Told,
) -> Result<bool, AllocError>
    requires trees { AreTrees graph.now trees.now }
    requires node { node.0 < node_count graph.now }
{
    let p = p_row(alloc, graph, trees, node, failed)?;
    let extended = extended_p(alloc, graph, trees, node, failed)?;
    Ok(tells(&p, told.p) && tells(&extended, told.extended))
}

/// Whether Q of the node is that which is told.
fn is_told_behind(
    alloc: Global,
    graph: &Graph,
    trees: &Trees,
    node: NodeNo,
    failed: &LinkSet,
    told: &Told,
) -> Result<bool, AllocError>
    requires trees { AreTrees graph.now trees.now }
    requires node { node.0 < node_count graph.now }
{
    Ok(tells(&q_set(alloc, graph, trees, node, failed)?, told.q))
}

/// Whether the spaces are those that are told.
fn are_told(alloc: Global, graph: &Graph, trees: &Trees, told: &Told) -> Result<bool, AllocError>
    requires { AreTrees graph.now trees.now }
{
    let link = LinkNo(told.link);
    if link.0 as u32 >= graph.link_count() {
        return Ok(false);
    }
    let kind = Kind::Link;
    let edge = graph.edge(link);
    let failed = graph.failed(alloc, Case { kind, link })?;
    Ok(
        are_told_before(alloc, graph, trees, edge.from, &failed, told)?
            && is_told_behind(alloc, graph, trees, edge.to, &failed, told)?,
    )
}

#[test]
fn spaces_of_rings(rt: HostRuntime) -> Result<(), Fail> {
    let alloc = rt.alloc();
    for told in &TOLD {
        let graph = graph_told(alloc, told)?;
        let trees = trees_of(&rt, alloc, &graph)?;
        assert!(rt; are_told(alloc, &graph, &trees, told)?, "{}", told.name);
    }
    Ok(())
}

/// Whether just the nodes whose test is true are in P of the node.
fn are_in_p(spaces: &Spaces, node: u16, tests: [bool; 4]) -> bool {
    if node >= 4 || spaces.graph().node_count() != 4 {
        return false;
    }
    for other in 0..4 {
        if spaces.in_p(NodeNo(node), NodeNo(other)) != tests[other as usize] {
            return false;
        }
    }
    true
}

/// Of two equal ways from 1 to 3 one reaches node 2.
#[test]
fn where_a_node_of_four_fails(rt: HostRuntime) -> Result<(), Fail> {
    let alloc = rt.alloc();
    let graph = graph_of(alloc, 4, &RING)?;
    assert!(rt; graph.link_count() == 8);
    let link = LinkNo(0);
    let kind = Kind::Node;
    let failed = graph.failed(alloc, Case { kind, link })?;
    let trees = trees_of(&rt, alloc, &graph)?;
    let spaces = Spaces::around(&graph, &trees, &failed, graph.edge(link).to);
    assert!(rt; are_in_p(&spaces, 0, [true, false, false, true]));
    assert!(rt; are_in_p(&spaces, 1, [false, true, false, false]));
    Ok(())
}
