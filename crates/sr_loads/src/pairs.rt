//! The pairs of nodes between which packets go, in order.
ghost use Rattle.std.specs.Prelude.{◌<◌, ◌+◌, ◌↔◌, [], IsTrue, IfOk, OnOk};
ghost use Rattle.sr_model.specs.Graph.{node_count};
ghost use Rattle.sr_model.specs.Walk.{IsRow};
ghost use Rattle.sr_spf.specs.Trees.{AreTrees};
ghost use Rattle.sr_loads.specs.Packets.{ArePeers, ArePairs, ArePairsBefore, pair};

use crate::packet::Pair;
use sr_labels::Net;
use sr_model::{FAR, MOST_NODES, NodeNo};
use sr_spf::Trees;
use std::alloc::{AllocError, Global};

/// The most pairs of a net: one from each node to each.
pub(crate) const MOST_PAIRS: usize = MOST_NODES * MOST_NODES;

/// Whether packets go from the one node to the other: another one that has an index and to which a walk leads. `cells` are
/// the distances from the one.
fn are_peers(net: &Net, cells: &[u64], from: NodeNo, to: NodeNo) -> bool
    requires cells { IsRow net.now.graph [] from.0 cells.now }
    requires from { from.0 < node_count net.now.graph }
    requires to { to.0 < node_count net.now.graph }
    ensures { IsTrue result ↔ ArePeers net.now from.0 to.0 }
{
    if to.0 == from.0 || net.labels(to).index().is_none() {
        return false;
    }
    cells[to.0 as usize] < FAR
}

/// Adds the pairs of a node at which packets start.
fn push_from(
    net: &Net,
    trees: &Trees,
    from: NodeNo,
    pairs: &mut Vec<Pair>,
) -> Result<(), AllocError>
    requires trees { AreTrees net.now.graph trees.now }
    requires from { from.0 < node_count net.now.graph }
    requires before { ArePairsBefore net.now (pair from.0 0) pairs.old.items }
    ensures { OnOk result (ArePairsBefore net.now (pair (from.0 + 1) 0) pairs.new.items) }
{
    let cells = trees.cells(from);
    for number in 0..net.graph().node_count() {
        let to = NodeNo(number as u16);
        if are_peers(net, cells, from, to) {
            pairs.push(Pair { from, to })?;
        }
    }
    Ok(())
}

/// The pairs of nodes between which packets go, in order of the node at which they start, then of that to which they go.
pub(crate) fn pairs_of(alloc: Global, net: &Net, trees: &Trees) -> Result<Vec<Pair>, AllocError>
    requires { AreTrees net.now.graph trees.now }
    ensures { IfOk result (λ pairs. ArePairs net.now pairs.items) }
{
    let nodes = net.graph().node_count();
    let mut pairs = Vec::with_capacity(alloc, nodes as usize * nodes as usize)?;
    for from in 0..nodes {
        push_from(net, trees, NodeNo(from as u16), &mut pairs)?;
    }
    Ok(pairs)
}
