//! Distances that are others in the new net.
ghost use Rattle.std.specs.Prelude.{◌≡◌, ◌<◌, IfOk};
ghost use Rattle.sr_model.specs.Graph.{Graph as Topology};
ghost use Rattle.sr_spf.specs.Trees.{tree_count, AreTrees};
ghost use Rattle.sr_delta.specs.Moved.{AreMoved, IsMovedFrom};

use sr_lanes::{NodeBits, differ};
use sr_model::NodeNo;
use sr_spf::Trees;
use std::alloc::{AllocError, Global};

/// The nodes to which it isn't as far from u in the new graph as in the old one.
fn moved_from(old: &Trees, new: &Trees, u: NodeNo) -> NodeBits
    requires u { u.0 < tree_count old.now }
    requires same { tree_count new.now ≡ tree_count old.now }
    ensures { (g h : Topology) → AreTrees g old.now → AreTrees h new.now → IsMovedFrom g h u.0 result }
{
    let _count = old.node_count();
    differ(old.cells(u), new.cells(u))
}

/// For each node, by number, the nodes to which it isn't as far from there in the new graph as in the old one. Both graphs
/// have the same nodes.
pub fn moved_distances(alloc: Global, old: &Trees, new: &Trees) -> Result<Vec<NodeBits>, AllocError>
    requires { tree_count new.now ≡ tree_count old.now }
    ensures { (g h : Topology) → AreTrees g old.now → AreTrees h new.now
        → IfOk result (λ sets. AreMoved g h sets.items (tree_count old.now)) }
{
    let count = old.node_count();
    let mut sets = Vec::with_capacity(alloc, count as usize)?;
    for u in 0..count as u16 {
        sets.push(moved_from(old, new, NodeNo(u)))?;
    }
    Ok(sets)
}
