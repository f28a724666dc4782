//! Whether a node is in P of another: by the failed links one by one, or by the one node at which they lie.
ghost use Rattle.std.specs.Prelude.{◌<◌, ◌↔◌, [], IsTrue};
ghost use Rattle.sr_model.specs.Graph.{node_count};
ghost use Rattle.sr_model.specs.Walk.{OnShortest, IsOnWay};
ghost use Rattle.sr_model.specs.Space.{InP};
ghost use Rattle.sr_spaces.specs.Failure.{IsReached};

use sr_graph::{Graph, LinkSet};
use sr_model::{LinkNo, NodeNo};
use sr_spf::Trees;

/// Whether the link stands on a shortest walk from u to v, where u reaches v. `row` has the distances from u.
fn link_holds(graph: &Graph, trees: &Trees, row: &[u64], u: NodeNo, v: NodeNo, link: LinkNo) -> bool
    requires reached { IsReached graph.now trees.now row.now u.0 v.0 }
    ensures { IsTrue result ↔ OnShortest graph.now [] u.0 v.0 link.0 }
{
    // A set of links knows no graph, so it may list a number past the graph's links, which stands on no walk.
    if link.0 as u32 >= graph.link_count() {
        return false;
    }
    let edge = graph.edge(link);
    let whole = row[v.0 as usize];
    let over = row[edge.from.0 as usize] + edge.metric as u64;
    // Most links lead away, and the row of their end needn't be read.
    if over > whole {
        return false;
    }
    if over + trees.cells(edge.to)[v.0 as usize] != whole {
        return false;
    }
    graph.carries(u, edge.from) && graph.carries(v, edge.to)
}

/// Whether v is in P of u, where u reaches v: each failed link is tested. `row` has the distances from u, and `x` the
/// failed links.
pub(crate) fn avoids_links(
    graph: &Graph,
    trees: &Trees,
    row: &[u64],
    u: NodeNo,
    v: NodeNo,
    x: &LinkSet,
) -> bool
    requires reached { IsReached graph.now trees.now row.now u.0 v.0 }
    ensures { IsTrue result ↔ InP graph.now x.now u.0 v.0 }
{
    for link in x.links() {
        if link_holds(graph, trees, row, u, v, *link) {
            return false;
        }
    }
    true
}

/// Whether a shortest walk from u to v reaches the node, where u reaches v. `row` has the distances from u.
pub(crate) fn reaches(
    graph: &Graph,
    trees: &Trees,
    row: &[u64],
    u: NodeNo,
    v: NodeNo,
    node: NodeNo,
) -> bool
    requires reached { IsReached graph.now trees.now row.now u.0 v.0 }
    requires node { node.0 < node_count graph.now }
    ensures { IsTrue result ↔ IsOnWay graph.now [] u.0 v.0 node.0 }
{
    if node.0 == v.0 {
        return true;
    }
    let whole = row[v.0 as usize];
    let first = row[node.0 as usize];
    // Most nodes lie farther away, and their row needn't be read.
    if first > whole {
        return false;
    }
    if first + trees.cells(node)[v.0 as usize] != whole {
        return false;
    }
    graph.carries(u, node)
}
