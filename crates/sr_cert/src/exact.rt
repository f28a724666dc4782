//! Rows of distances, tested by the links of the graph.
ghost use Rattle.std.specs.Prelude.{◌≡◌, ◌<◌, ◌≤◌, ◌↔◌, ℕ, length, IsTrue};
ghost use Rattle.sr_model.specs.Graph.{node_count, link_count};
ghost use Rattle.sr_graph.specs.Members.{number_at, IsInList, IsInRange};
ghost use Rattle.sr_cert.specs.Settled.{heading_of, base, IsOffer, IsLeastOffer, Reaches, IsToldByLinks, IsExactWithout};

use crate::course::Course;
use sr_graph::{Graph, LinkRange, LinkSet};
use sr_model::{FAR, LinkNo, NodeNo};

/// What a link offers to its farther end: the cell of its nearer end and its metric. `FAR` where no walk of the course
/// may hold the link, or none reaches its nearer end.
fn offer(graph: &Graph, x: &LinkSet, course: Course, cells: &[u64], link: LinkNo) -> u64
    requires link { link.0 < link_count graph.now }
    requires long { length cells.now ≡ node_count graph.now }
    ensures { IsOffer graph.now x.now (heading_of course) cells.now link.0 result }
{
    if x.has(link) {
        return FAR;
    }
    let edge = graph.edge(link);
    let (own, near) = match course {
        Course::From(node) => (node, edge.from),
        Course::To(node) => (node, edge.to),
    };
    if !graph.carries(own, near) {
        return FAR;
    }
    let cell = cells[near.0 as usize];
    // A certificate may hold any numbers, so that the sum is made only where it is small.
    if cell >= FAR {
        return FAR;
    }
    cell + edge.metric as u64
}

/// The least offer of the listed links.
fn least_listed(graph: &Graph, x: &LinkSet, course: Course, cells: &[u64], links: &[LinkNo]) -> u64
    requires links { (i : ℕ) → i < length links.now → number_at links.now i < link_count graph.now }
    requires long { length cells.now ≡ node_count graph.now }
    ensures { IsLeastOffer graph.now x.now (heading_of course) cells.now (IsInList links.now) result }
{
    let mut least = FAR;
    for link in links {
        least = least.min(offer(graph, x, course, cells, *link));
    }
    least
}

/// The least offer of the links of the range.
fn least_in_range(
    graph: &Graph,
    x: &LinkSet,
    course: Course,
    cells: &[u64],
    links: LinkRange,
) -> u64
    requires order { links.first ≤ links.end }
    requires links { links.end ≤ link_count graph.now }
    requires long { length cells.now ≡ node_count graph.now }
    ensures { IsLeastOffer graph.now x.now (heading_of course) cells.now (IsInRange links.first links.end) result }
{
    let mut least = FAR;
    for link in links.first..links.end {
        least = least.min(offer(graph, x, course, cells, LinkNo(link)));
    }
    least
}

/// The least offer to the node.
fn least_offer(graph: &Graph, x: &LinkSet, course: Course, cells: &[u64], node: NodeNo) -> u64
    requires long { length cells.now ≡ node_count graph.now }
    requires node { node.0 < node_count graph.now }
    ensures { IsLeastOffer graph.now x.now (heading_of course) cells.now
        (Reaches graph.now (heading_of course) node.0)
        result }
{
    match course {
        Course::From(_) => least_listed(graph, x, course, cells, graph.links_to(node)),
        Course::To(_) => least_in_range(graph, x, course, cells, graph.links_from(node)),
    }
}

/// Whether the cell of the node is settled: 0 for the row's own node, and else the least offer.
fn settled(graph: &Graph, x: &LinkSet, course: Course, cells: &[u64], node: NodeNo) -> bool
    requires long { length cells.now ≡ node_count graph.now }
    requires node { node.0 < node_count graph.now }
    ensures { IsTrue result ↔ IsToldByLinks graph.now x.now (heading_of course) cells.now node.0 }
{
    let cell = cells[node.0 as usize];
    if node.0 == course.node().0 {
        return cell == 0;
    }
    cell == least_offer(graph, x, course, cells, node)
}

/// Whether the row is exact without the links of the set: metrics are positive, so that only the distances have each
/// cell settled.
pub(crate) fn is_exact(graph: &Graph, x: &LinkSet, course: Course, cells: &[u64]) -> bool
    requires node { base (heading_of course) < node_count graph.now }
    requires long { length cells.now ≡ node_count graph.now }
    ensures { IsTrue result ↔ IsExactWithout graph.now x.now (heading_of course) cells.now }
{
    for node in 0..graph.node_count() {
        if !settled(graph, x, course, cells, NodeNo(node as u16)) {
            return false;
        }
    }
    true
}
