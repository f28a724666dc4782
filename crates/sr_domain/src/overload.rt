//! Overloaded nodes.
ghost use Rattle.std.specs.Prelude.{◌≡◌, filter, IfOk};
ghost use Rattle.std.specs.List.Sorted.{IsStrictlyIncreasing};
ghost use Rattle.sr_graph.specs.Marks.{IsMarked};
ghost use Rattle.sr_domain.specs.Nodes.{has_overload_bit as has_overload_bit_in};

use crate::nodes::has_overload_bit;
use sr_graph::Graph;
use sr_lsdb::Facts;
use sr_model::SystemId;
use std::alloc::{AllocError, Global};

/// The overloaded nodes among these, in their order.
pub(crate) fn overloaded_of(
    alloc: Global,
    facts: &Facts,
    nodes: &[SystemId],
) -> Result<Vec<SystemId>, AllocError>
    ensures { IfOk result (λ v. v.items ≡ filter (has_overload_bit_in facts.now) nodes.now) }
{
    let mut out = Vec::new(alloc);
    for node in nodes {
        if has_overload_bit(facts, *node) {
            out.push(*node)?;
        }
    }
    Ok(out)
}

/// The graph in which just these nodes are overloaded.
pub(crate) fn marked(
    alloc: Global,
    graph: Graph,
    overloaded: &[SystemId],
) -> Result<Graph, AllocError>
    requires { IsStrictlyIncreasing overloaded.now }
    ensures { IfOk result (IsMarked graph overloaded.now) }
{
    let mut graph = graph;
    graph.mark(alloc, overloaded)?;
    Ok(graph)
}
