//! Extended P spaces.
ghost use Rattle.std.specs.Prelude.{◌≡◌, ◌<◌, ◌↔◌, length, IsTrue, IfOk};
ghost use Rattle.sr_model.specs.Graph.{node_count, link_count};
ghost use Rattle.sr_model.specs.Space.{InExtendedP, Adds};
ghost use Rattle.sr_spf.specs.Trees.{AreTrees};
ghost use Rattle.sr_spaces.specs.Sets.{IsExtendedP};

use crate::node_set::NodeSet;
use crate::spaces::Spaces;
use sr_graph::{Graph, LinkRange, LinkSet};
use sr_model::{LinkNo, NodeNo};
use sr_spf::Trees;
use std::alloc::{AllocError, Global};

/// Whether a link outside the failed ones adds v to the extended P of its beginning: v is in P of its end, or is that
/// end where it is overloaded.
fn adds(spaces: &Spaces, link: LinkNo, v: NodeNo) -> bool
    requires link { link.0 < link_count spaces.now.graph }
    requires v { v.0 < node_count spaces.now.graph }
    ensures { IsTrue result ↔ Adds spaces.now.graph spaces.now.failed link.0 v.0 }
{
    let graph = spaces.graph();
    let to = graph.edge(link).to;
    if graph.overloaded(to) {
        v.0 == to.0
    } else {
        spaces.in_p(to, v)
    }
}

/// Whether v is in extended P of s.
fn in_extended_p(spaces: &Spaces, s: NodeNo, v: NodeNo) -> bool
    requires s { s.0 < node_count spaces.now.graph }
    requires v { v.0 < node_count spaces.now.graph }
    ensures { IsTrue result ↔ InExtendedP spaces.now.graph spaces.now.failed s.0 v.0 }
{
    if spaces.in_p(s, v) {
        return true;
    }
    let failed = spaces.failed();
    let LinkRange { first, end } = spaces.graph().links_from(s);
    for link in first..end {
        if !failed.has(LinkNo(link)) && adds(spaces, LinkNo(link), v) {
            return true;
        }
    }
    false
}

/// Extended P of s: P of s, and what each link from s that doesn't fail adds, which is P of its end, or the end alone
/// where it is overloaded (this project's rule). `x` has the failed links.
pub fn extended_p(
    alloc: Global,
    graph: &Graph,
    trees: &Trees,
    s: NodeNo,
    x: &LinkSet,
) -> Result<NodeSet, AllocError>
    requires trees { AreTrees graph.now trees.now }
    requires s { s.0 < node_count graph.now }
    ensures long { IfOk result (λ t. length t ≡ node_count graph.now) }
    ensures space { IfOk result (IsExtendedP graph.now x.now s.0) }
{
    let spaces = Spaces::over(graph, trees, x);
    let count = graph.node_count();
    let mut tests = Vec::with_capacity(alloc, count as usize)?;
    for v in 0..count {
        tests.push(in_extended_p(&spaces, s, NodeNo(v as u16)))?;
    }
    Ok(NodeSet::of(tests))
}
