//! The nodes on the shortest walks to the affected destinations.
ghost use Rattle.std.specs.Prelude.{◌≡◌, ◌↔◌, ◌⊎◌, ℕ, ◌<◌, List, Bool, true, false, IsTrue, IfOk};
ghost use Rattle.sr_model.specs.Graph.{node_count, link_count, tail};
ghost use Rattle.sr_model.specs.Walk.{IsRow};
ghost use Rattle.sr_model.specs.Case.{IsCase};
ghost use Rattle.sr_lanes.specs.Bits.{is_in};
ghost use Rattle.sr_spf.specs.Trees.{AreTrees};
ghost use Rattle.sr_post.specs.Marks.{AreTails, AreWalks, HasNodesBefore, IsOneBefore, IsRowAfter, LeadsAlong};

use crate::destinations::affected_set;
use sr_graph::Graph;
use sr_labels::Net;
use sr_lanes::{NodeBits, finite};
use sr_model::{Case, LinkNo, NodeNo};
use sr_spf::Trees;
use std::alloc::{AllocError, Global};

/// Whether the link begins at a node that isn't found and leads along the row, and a walk from the source may go on by it.
/// The row has the distances from the source without some links.
fn leads_along(graph: &Graph, source: NodeNo, cells: &[u64], link: LinkNo, found: NodeBits) -> bool
    requires row { (x : List Bool) × IsRow graph.now x source.0 cells.now }
    requires link { link.0 < link_count graph.now }
    ensures { IsTrue result ↔ ((is_in found (tail graph.now link.0) ≡ false)
        × LeadsAlong graph.now source.0 cells.now link.0) }
{
    let edge = graph.edge(link);
    // Most nodes are soon found, and of the other links most lead elsewhere.
    !found.has(edge.from.0 as usize)
        && cells[edge.from.0 as usize] + edge.metric as u64 == cells[edge.to.0 as usize]
        && graph.carries(source, edge.from)
}

/// The nodes that are found, and those from which a link that leads along the row leads to the node: all of these are among
/// `before`.
fn with_nodes_before(
    graph: &Graph,
    source: NodeNo,
    cells: &[u64],
    v: NodeNo,
    found: NodeBits,
    before: NodeBits,
) -> NodeBits
    requires row { (x : List Bool) × IsRow graph.now x source.0 cells.now }
    requires v { v.0 < node_count graph.now }
    requires before { HasNodesBefore graph.now source.0 cells.now v.0 before }
    ensures { (u : ℕ) → IsTrue (is_in result u)
        ↔ ((is_in found u ≡ true) ⊎ IsOneBefore graph.now source.0 cells.now v.0 u) }
{
    // Often all of them are found, which costs less to tell.
    if before.and_not(found).is_empty() {
        return found;
    }
    let mut set = found;
    let links = graph.links_to(v);
    for i in 0..links.len() {
        if leads_along(graph, source, cells, links[i], set) {
            set = set.with(graph.edge(links[i]).from.0 as usize);
        }
    }
    set
}

/// For each node those at which some link to it begins.
pub fn tails(alloc: Global, graph: &Graph) -> Result<Vec<NodeBits>, AllocError>
    ensures { IfOk result (λ tails. AreTails graph.now tails.items) }
{
    let count = graph.node_count() as usize;
    let mut tails = vec![in alloc; NodeBits::none(); count]?;
    for l in 0..graph.link_count() as u16 {
        let edge = graph.edge(LinkNo(l));
        let end = edge.to.0 as usize;
        tails[end] = tails[end].with(edge.from.0 as usize);
    }
    Ok(tails)
}

/// The nodes on the shortest walks of the case, from the distances from its source without the links that fail. Walks are
/// followed back from the destinations: `pending` are those of the nodes found from which none has been. `tails` has for
/// each node those at which some link to it begins.
///
/// Which links fail isn't asked: of those that lead along the distances to a node that is reached, only links that begin at
/// the source fail, and the source is found first.
pub fn walks(net: &Net, trees: &Trees, case: Case, cells: &[u64], tails: &[NodeBits]) -> NodeBits
    requires trees { AreTrees net.now.graph trees.now }
    requires case { IsCase net.now.graph case }
    requires row { IsRowAfter net.now.graph case cells.now }
    requires tails { AreTails net.now.graph tails.now }
    ensures { AreWalks net.now case result }
{
    let graph = net.graph();
    let source = graph.edge(case.link).from;
    let reached = finite(cells);
    let mut pending = affected_set(net, trees, case).and(reached);
    let Some(_) = pending.first() else {
        return pending;
    };
    let mut found = pending.with(source.0 as usize);
    'pending: while let Some(v) = pending.take_first() {
        let node = NodeNo(v as u16);
        // A node that isn't reached, as one that failed, is never found.
        let before = tails[v].and(reached);
        let now = with_nodes_before(graph, source, cells, node, found, before);
        pending = pending.or(now.and_not(found));
        found = now;
        // What is on walks is reached, so that no other node is left. In many cases this comes soon.
        if reached.and_not(found).is_empty() {
            return found;
        }
    }
    found
}
