//! Nodes to which a distance may be another in the new net.
ghost use Rattle.std.specs.Prelude.{◌≡◌, ◌↔◌, ℕ, ◌<◌, true, false, length, IfOk};
ghost use Rattle.sr_lanes.specs.Bits.{is_in};
ghost use Rattle.sr_model.specs.Graph.{Graph as Topology, node_count};
ghost use Rattle.sr_model.specs.Label.{Net};
ghost use Rattle.sr_spf.specs.Trees.{tree_count, AreTrees};
ghost use Rattle.sr_spf.specs.Renewed.{IsRenewal};
ghost use Rattle.sr_delta.specs.Changes.{AreWithin, AreChanges};
ghost use Rattle.sr_delta.specs.KeptTrees.{AreKeptTrees};
ghost use Rattle.sr_delta.specs.Lost.{IsPast, AreLostToChanges, AreLostSets};

use crate::change::Change;
use crate::differences::Changes;
use crate::kept::kept_trees;
use crate::stays::is_idle;
use sr_graph::Graph;
use sr_lanes::{NodeBits, finite, tight};
use sr_model::NodeNo;
use sr_spf::{Renewal, Trees, ends_behind};
use std::alloc::{AllocError, Global};

/// The nodes to which a shortest walk from u may run through w, and w itself.
fn past(graph: &Graph, old: &Trees, u: NodeNo, w: NodeNo) -> NodeBits
    requires old { (g : Topology) × AreTrees g old.now }
    requires count { tree_count old.now ≡ node_count graph.now }
    requires nodes { (u.0 < node_count graph.now) × (w.0 < node_count graph.now) }
    ensures within { (v : ℕ) → is_in result v ≡ true → v < node_count graph.now }
    ensures each { (v : ℕ) → v < node_count graph.now
        → (is_in result v ≡ true) ↔ IsPast graph.now old.now.rows u.0 w.0 v }
{
    let row = old.cells(u);
    tight(row, row[w.0 as usize], old.cells(w)).and(ends_behind(graph, w))
}

/// The nodes to which there is no walk from u, and those past the end of a changed link that isn't idle, but for u. `old` are
/// the trees of the old net, `graph` is the new one's.
fn lost_from(graph: &Graph, links: &[Change], old: &Trees, u: NodeNo) -> NodeBits
    requires old { (g : Topology) × AreTrees g old.now }
    requires count { tree_count old.now ≡ node_count graph.now }
    requires links { AreWithin (node_count graph.now) links.now }
    requires u { u.0 < node_count graph.now }
    ensures { AreLostToChanges graph.now old.now.rows links.now u.0 result }
{
    let row = old.cells(u);
    let mut lost = NodeBits::below(row.len()).and_not(finite(row));
    for n in 0..links.len() {
        if !is_idle(row, &links[n]) {
            lost = lost.or(past(graph, old, u, links[n].to));
        }
    }
    lost.without(u.0 as usize)
}

/// The nodes to which the distance from u may be another in the new net; none where the tree of u stays.
fn lost_or_none(graph: &Graph, links: &[Change], old: &Trees, stays: bool, u: NodeNo) -> NodeBits
    requires old { (g : Topology) × AreTrees g old.now }
    requires count { tree_count old.now ≡ node_count graph.now }
    requires links { AreWithin (node_count graph.now) links.now }
    requires u { u.0 < node_count graph.now }
    ensures { stays ≡ false → AreLostToChanges graph.now old.now.rows links.now u.0 result }
{
    if stays {
        NodeBits::none()
    } else {
        lost_from(graph, links, old, u)
    }
}

/// By number, the nodes to which the distance from each node may be another in the new net, whose graph this is; none where
/// the node is marked in `kept`.
fn lost_sets(
    alloc: Global,
    graph: &Graph,
    links: &[Change],
    old: &Trees,
    kept: &[bool],
) -> Result<Vec<NodeBits>, AllocError>
    requires old { (g : Topology) × AreTrees g old.now }
    requires count { tree_count old.now ≡ node_count graph.now }
    requires links { AreWithin (node_count graph.now) links.now }
    requires kept { length kept.now ≡ tree_count old.now }
    ensures { IfOk result (λ sets. AreLostSets graph.now old.now.rows links.now kept.now sets.items) }
{
    let count = old.node_count();
    let mut sets = Vec::with_capacity(alloc, count as usize)?;
    for u in 0..count as u16 {
        let stays = kept[u as usize];
        sets.push(lost_or_none(graph, links, old, stays, NodeNo(u)))?;
    }
    Ok(sets)
}

/// What of the old trees serves the new net, whose graph this is: the trees that stay, and of the others the distances that
/// stand. `old` are the trees of the old net, which has the same nodes.
pub fn renewal(
    alloc: Global,
    graph: &Graph,
    changes: &Changes,
    old: &Trees,
) -> Result<Renewal, AllocError>
    requires old { (g : Topology) × AreTrees g old.now }
    requires counts { (tree_count old.now ≡ node_count graph.now) × (changes.now.nodes ≡ tree_count old.now) }
    ensures kept { (n m : Net) → AreChanges n m changes.now → AreTrees n.graph old.now
        → IfOk result (λ r. AreKeptTrees n m r.stays.items) }
    ensures lost { IfOk result (λ r. AreLostSets graph.now old.now.rows changes.now.links r.stays.items r.lost.items) }
    ensures renewal { (n m : Net) → AreChanges n m changes.now → AreTrees n.graph old.now → changes.now.same ≡ true
        → graph.now ≡ m.graph → IfOk result (λ r. IsRenewal m.graph old.now r changes.now.partners) }
{
    let stays = kept_trees(alloc, changes, old)?;
    let lost = lost_sets(alloc, graph, changes.links(), old, &stays)?;
    Ok(Renewal { stays, lost })
}
