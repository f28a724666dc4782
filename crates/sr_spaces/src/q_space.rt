//! Q spaces.
ghost use Rattle.std.specs.Prelude.{◌≡◌, ◌<◌, length, IfOk};
ghost use Rattle.sr_model.specs.Graph.{node_count};
ghost use Rattle.sr_spf.specs.Trees.{AreTrees};
ghost use Rattle.sr_spaces.specs.Sets.{IsQ};

use crate::node_set::NodeSet;
use crate::spaces::Spaces;
use sr_graph::{Graph, LinkSet};
use sr_model::NodeNo;
use sr_spf::Trees;
use std::alloc::{AllocError, Global};

/// Q of d: the nodes that have d in their P (this project's rule). `x` has the failed links.
pub fn q_set(
    alloc: Global,
    graph: &Graph,
    trees: &Trees,
    d: NodeNo,
    x: &LinkSet,
) -> Result<NodeSet, AllocError>
    requires trees { AreTrees graph.now trees.now }
    requires d { d.0 < node_count graph.now }
    ensures long { IfOk result (λ s. length s ≡ node_count graph.now) }
    ensures space { IfOk result (IsQ graph.now x.now d.0) }
{
    let spaces = Spaces::over(graph, trees, x);
    let count = graph.node_count();
    let mut tests = Vec::with_capacity(alloc, count as usize)?;
    for u in 0..count {
        tests.push(spaces.in_p(NodeNo(u as u16), d))?;
    }
    Ok(NodeSet::of(tests))
}
