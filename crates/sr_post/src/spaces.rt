//! The spaces of a case, the node at which its failed links lie, and the nodes of which the spaces have to be asked.
ghost use Rattle.std.specs.Prelude.{◌≡◌, ◌<◌, List, Bool};
ghost use Rattle.sr_model.specs.Case.{IsCase, IsFailedSet, source_of};
ghost use Rattle.sr_model.specs.Graph.{node_count};
ghost use Rattle.sr_laws.specs.Steady.{pivot_of};
ghost use Rattle.sr_spf.specs.Trees.{AreTrees};
ghost use Rattle.sr_post.specs.Kept.{AreDoubtful};

use sr_graph::{Graph, LinkSet};
use sr_lanes::{NodeBits, tight};
use sr_model::{Case, Kind, NodeNo};
use sr_spaces::Spaces;
use sr_spf::Trees;

/// The node at which the failed links of the case lie: the end of the protected link where that node fails, else its
/// beginning.
pub fn pivot_of(graph: &Graph, case: Case) -> NodeNo
    requires { IsCase graph.now case }
    ensures pivot { result.0 ≡ pivot_of graph.now case }
    ensures within { result.0 < node_count graph.now }
{
    let protected = graph.edge(case.link);
    match case.kind {
        Kind::Node => protected.to,
        Kind::Link | Kind::Risk => protected.from,
    }
}

/// The spaces of the case. Where a node fails they are told by that node alone.
pub fn spaces_of<'a>(
    graph: &'a Graph,
    trees: &'a Trees,
    failed: &'a LinkSet,
    case: Case,
) -> Spaces<'a>
    requires trees { AreTrees graph.now trees.now }
    requires case { IsCase graph.now case }
    requires failed { IsFailedSet graph.now case failed.now }
    ensures { result ≡ record { graph = graph.now; failed = failed.now } }
{
    match case.kind {
        Kind::Node => Spaces::around(graph, trees, failed, graph.edge(case.link).to),
        Kind::Link | Kind::Risk => Spaces::over(graph, trees, failed),
    }
}

/// The nodes towards which a failed link may stand behind a next hop of the source that hasn't failed. Where each failed
/// link lies at the source there are none: no shortest walk comes back there. Where a node fails, they are those that have
/// it on a shortest walk from the source.
pub(crate) fn doubtful_of(graph: &Graph, trees: &Trees, case: Case) -> NodeBits
    requires trees { AreTrees graph.now trees.now }
    requires case { IsCase graph.now case }
    ensures { (x : List Bool) → IsFailedSet graph.now case x
        → AreDoubtful graph.now x (source_of graph.now case) result }
{
    let _count = graph.node_count();
    let edge = graph.edge(case.link);
    match case.kind {
        Kind::Link | Kind::Risk => NodeBits::none(),
        Kind::Node => {
            let row = trees.cells(edge.from);
            tight(row, row[edge.to.0 as usize], trees.cells(edge.to))
        }
    }
}
