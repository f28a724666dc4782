//! P spaces.
ghost use Rattle.std.specs.Prelude.{◌≡◌, ◌<◌, length, IfOk};
ghost use Rattle.sr_model.specs.Graph.{node_count};
ghost use Rattle.sr_spf.specs.Trees.{AreTrees};
ghost use Rattle.sr_spaces.specs.Sets.{IsP};

use crate::node_set::NodeSet;
use crate::spaces::Spaces;
use sr_graph::{Graph, LinkSet};
use sr_model::NodeNo;
use sr_spf::Trees;
use std::alloc::{AllocError, Global};

/// P of u: the nodes that u reaches, and to which no shortest walk from u holds a failed link, where every equal-cost
/// shortest walk counts (this project's rule). `x` has the failed links.
pub fn p_row(
    alloc: Global,
    graph: &Graph,
    trees: &Trees,
    u: NodeNo,
    x: &LinkSet,
) -> Result<NodeSet, AllocError>
    requires trees { AreTrees graph.now trees.now }
    requires u { u.0 < node_count graph.now }
    ensures long { IfOk result (λ s. length s ≡ node_count graph.now) }
    ensures space { IfOk result (IsP graph.now x.now u.0) }
{
    let spaces = Spaces::over(graph, trees, x);
    let count = graph.node_count();
    let mut tests = Vec::with_capacity(alloc, count as usize)?;
    for v in 0..count {
        tests.push(spaces.in_p(u, NodeNo(v as u16)))?;
    }
    Ok(NodeSet::of(tests))
}
