//! Whether the nodes towards which a protected link leads have an index alike.
ghost use Rattle.std.specs.Prelude.{◌≡◌, ◌↔◌, ◌<◌, [], true, IsTrue};
ghost use Rattle.sr_model.specs.Graph.{Graph as Topology, node_count};
ghost use Rattle.sr_model.specs.Label.{Net as Labelled};
ghost use Rattle.sr_model.specs.Walk.{IsNextHop};
ghost use Rattle.sr_model.specs.Case.{IsCase, IsOutside};
ghost use Rattle.sr_lanes.specs.declared.limits.TheConstants.{NODES_AT_MOST as Most};
ghost use Rattle.sr_spf.specs.Trees.{tree_count, AreTrees};
ghost use Rattle.sr_delta.specs.Changes.{AreChanges};
ghost use Rattle.sr_delta.specs.Cases.{IsLedTo, IsEndAlike, AreEndsAlike};

use crate::differences::Changes;
use crate::old_case::OldCase;
use sr_graph::Graph;
use sr_lanes::NodeBits;
use sr_model::{Case, Kind, LinkNo, NodeNo};
use sr_spf::Trees;

/// Whether the node isn't the source, nor the end that fails as a whole.
fn is_outside(graph: &Graph, case: Case, d: NodeNo) -> bool
    requires { IsCase graph.now case }
    ensures { IsTrue result ↔ IsOutside graph.now case d.0 }
{
    let protected = graph.edge(case.link);
    if d.0 == protected.from.0 {
        return false;
    }
    match case.kind {
        Kind::Node => d.0 != protected.to.0,
        Kind::Link | Kind::Risk => true,
    }
}

/// Whether the link is a next hop from one node to another.
fn is_next_hop(trees: &Trees, from: NodeNo, to: NodeNo, link: LinkNo) -> bool
    requires from { from.0 < tree_count trees.now }
    requires to { to.0 < tree_count trees.now }
    ensures { (g : Topology) → AreTrees g trees.now → IsTrue result ↔ IsNextHop g [] from.0 to.0 link.0 }
{
    let hops = trees.next_hops(from, to);
    for i in 0..hops.len() {
        if hops[i].0 == link.0 {
            return true;
        }
    }
    false
}

/// Whether the protected link is a next hop of the source towards the node, which isn't the source nor fails.
fn is_led_to(old: &OldCase<'_>, d: NodeNo) -> bool
    requires { d.0 < node_count old.now.net.graph }
    ensures { IsTrue result ↔ IsLedTo old.now.net old.now.case d.0 }
{
    let case = old.case();
    let source = old.graph().edge(case.link).from;
    is_outside(old.graph(), case, d) && is_next_hop(old.trees(), source, d, case.link)
}

/// Whether the node has an index in both nets or in neither, or the protected link doesn't lead there.
fn is_end_alike(changes: &Changes, old: &OldCase<'_>, d: NodeNo) -> bool
    requires nodes { changes.now.nodes ≡ node_count old.now.net.graph }
    requires d { d.0 < node_count old.now.net.graph }
    requires few { d.0 < Most }
    ensures { (m : Labelled) → AreChanges old.now.net m changes.now → changes.now.same ≡ true
        → IsTrue result ↔ IsEndAlike old.now.net m old.now.case d.0 }
{
    changes.indexed_alike().has(d.0 as usize) || !is_led_to(old, d)
}

/// Whether each node towards which the protected link leads has an index in both nets or in neither, told one by one.
fn is_each_end_alike(changes: &Changes, old: &OldCase<'_>) -> bool
    requires { changes.now.nodes ≡ node_count old.now.net.graph }
    ensures { (m : Labelled) → AreChanges old.now.net m changes.now → changes.now.same ≡ true
        → IsTrue result ↔ AreEndsAlike old.now.net m old.now.case }
{
    for d in 0..old.graph().node_count() as u16 {
        if !is_end_alike(changes, old, NodeNo(d)) {
            return false;
        }
    }
    true
}

/// Whether each node towards which the protected link leads has an index in both nets or in neither. Where all nodes
/// have, as after most commits, none is looked at.
pub(crate) fn are_ends_alike(changes: &Changes, old: &OldCase<'_>) -> bool
    requires { changes.now.nodes ≡ node_count old.now.net.graph }
    ensures { (m : Labelled) → AreChanges old.now.net m changes.now → changes.now.same ≡ true
        → IsTrue result ↔ AreEndsAlike old.now.net m old.now.case }
{
    let nodes = NodeBits::below(old.graph().node_count() as usize);
    nodes.and_not(changes.indexed_alike()).is_empty() || is_each_end_alike(changes, old)
}
