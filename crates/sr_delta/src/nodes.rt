//! Whether two graphs have the same nodes.
ghost use Rattle.std.specs.Prelude.{◌≡◌, ◌↔◌, ℕ, ◌<◌, IsTrue, IfOk};
ghost use Rattle.sr_model.specs.Graph.{node_count, is_overloaded};
ghost use Rattle.sr_model.specs.Stay.{HaveSameNodes};

use sr_graph::Graph;
use sr_lanes::rows_equal;
use sr_model::NodeNo;
use std::alloc::{AllocError, Global};

/// The system ids of the nodes, as numbers.
fn ids(alloc: Global, graph: &Graph) -> Result<Vec<u64>, AllocError>
    ensures { IfOk result (λ list. list.items ≡ graph.now.systems) }
{
    let count = graph.node_count();
    let mut list = Vec::with_capacity(alloc, count as usize)?;
    for v in 0..count as u16 {
        list.push(graph.system(NodeNo(v)).value())?;
    }
    Ok(list)
}

/// Whether the same of the old nodes are overloaded in both graphs.
fn same_load(old: &Graph, new: &Graph) -> bool
    ensures { IsTrue result ↔ ((v : ℕ) → v < node_count old.now → is_overloaded old.now v ≡ is_overloaded new.now v) }
{
    for v in 0..old.node_count() as u16 {
        if old.overloaded(NodeNo(v)) != new.overloaded(NodeNo(v)) {
            return false;
        }
    }
    true
}

/// Whether the graphs have the same nodes, and the same of them are overloaded.
pub(crate) fn same_nodes(alloc: Global, old: &Graph, new: &Graph) -> Result<bool, AllocError>
    ensures { IfOk result (λ same. IsTrue same ↔ HaveSameNodes old.now new.now) }
{
    let before = ids(alloc, old)?;
    let after = ids(alloc, new)?;
    let same = rows_equal(&after, &before) && same_load(old, new);
    Ok(same)
}
