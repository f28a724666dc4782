//! Which nodes of a set shortest walks reach over a link, or through a node: all of them at once.
ghost use Rattle.std.specs.Prelude.{◌≡◌, ℕ, ◌<◌, ◌↔◌, [], true, IsTrue};
ghost use Rattle.sr_lanes.specs.Bits.{is_in};
ghost use Rattle.sr_model.specs.Graph.{node_count};
ghost use Rattle.sr_model.specs.Walk.{OnShortest, IsOnWay};
ghost use Rattle.sr_model.specs.Space.{InP};
ghost use Rattle.sr_spaces.specs.Failure.{AreReachedBy};

use sr_graph::{Graph, LinkSet};
use sr_lanes::{NODES_AT_MOST, NodeBits, tight_among};
use sr_model::{LinkNo, NodeNo};
use sr_spf::Trees;

/// This node, where it is one of them.
fn only(node: NodeNo, among: NodeBits) -> NodeBits
    requires { node.0 < NODES_AT_MOST }
    ensures { (v : ℕ) → IsTrue (is_in result v) ↔ ((is_in among v ≡ true) × (v ≡ node.0)) }
{
    among.and(NodeBits::alone(node.0 as usize))
}

/// Those of the nodes to which a shortest walk from u holds the link. `row` has the distances from u.
fn over_link(
    graph: &Graph,
    trees: &Trees,
    row: &[u64],
    u: NodeNo,
    link: LinkNo,
    among: NodeBits,
) -> NodeBits
    requires reached { AreReachedBy graph.now trees.now row.now u.0 among }
    ensures { (v : ℕ) → IsTrue (is_in result v)
        ↔ ((is_in among v ≡ true) × OnShortest graph.now [] u.0 v link.0) }
{
    // A set of links knows no graph, so it may list a number past the graph's links, which stands on no walk.
    if link.0 as u32 >= graph.link_count() {
        return NodeBits::none();
    }
    let edge = graph.edge(link);
    let over = row[edge.from.0 as usize] + edge.metric as u64;
    // Most links stand on no shortest walk from u, since none to their end holds them.
    if over != row[edge.to.0 as usize] || !graph.carries(u, edge.from) {
        return NodeBits::none();
    }
    if graph.overloaded(edge.to) {
        return only(edge.to, among);
    }
    tight_among(row, over, trees.cells(edge.to), among)
}

/// Those of the nodes that are in P of u, where u reaches each: each failed link is tested. `row` has the distances from u,
/// and `x` the failed links.
pub(crate) fn avoid_links(
    graph: &Graph,
    trees: &Trees,
    row: &[u64],
    u: NodeNo,
    x: &LinkSet,
    among: NodeBits,
) -> NodeBits
    requires reached { AreReachedBy graph.now trees.now row.now u.0 among }
    ensures { (v : ℕ) → IsTrue (is_in result v) ↔ ((is_in among v ≡ true) × InP graph.now x.now u.0 v) }
{
    let mut left = among;
    for link in x.links() {
        left = left.and_not(over_link(graph, trees, row, u, *link, left));
    }
    left
}

/// Those of the nodes to which a shortest walk from u reaches this one, where u reaches each. `row` has the distances from
/// u.
pub(crate) fn through_node(
    graph: &Graph,
    trees: &Trees,
    row: &[u64],
    u: NodeNo,
    node: NodeNo,
    among: NodeBits,
) -> NodeBits
    requires reached { AreReachedBy graph.now trees.now row.now u.0 among }
    requires node { node.0 < node_count graph.now }
    ensures { (v : ℕ) → IsTrue (is_in result v)
        ↔ ((is_in among v ≡ true) × IsOnWay graph.now [] u.0 v node.0) }
{
    if !graph.carries(u, node) {
        return only(node, among);
    }
    tight_among(row, row[node.0 as usize], trees.cells(node), among)
}
