//! What the failure of a link leaves, told from the distances that the failure of its end leaves, without a search.
ghost use Rattle.std.specs.Prelude.{◌≡◌, ◌≤◌, ◌<◌, All, IfOk, length};
ghost use Rattle.sr_model.specs.declared.case.Kind.TheVariants.{Link as LinkKind};
ghost use Rattle.sr_model.specs.declared.link.TheConstants.{FAR as Far};
ghost use Rattle.sr_model.specs.declared.link.NodeNo.{NodeNo as Node};
ghost use Rattle.sr_model.specs.Graph.{node_count};
ghost use Rattle.sr_model.specs.Case.{IsCase};
ghost use Rattle.sr_spf.specs.Begun.{HasCells};
ghost use Rattle.sr_spf.specs.Trees.{AreTrees};
ghost use Rattle.sr_post.specs.Bypass.{node_case, IsDistancePast, AreLostFilled};
ghost use Rattle.sr_post.specs.Marks.{IsRowAfter};
ghost use Rattle.sr_post.specs.Post.{IsPost};

use crate::failure::{Begun, begin_case};
use crate::left::Post;
use sr_graph::Graph;
use sr_labels::Net;
use sr_model::{Case, NodeNo};
use sr_seq::Seq;
use sr_spf::{Trees, least_way};
use std::alloc::{AllocError, Global};

/// The distance to a lost node: the least of the way around the end and, where a walk to the node may pass the end, of the
/// way over it. To the end itself it is the way into it.
fn distance_past(
    graph: &Graph,
    end: NodeNo,
    into: u64,
    around: &[u64],
    onward: &[u64],
    node: NodeNo,
) -> u64
    requires into { into ≤ Far }
    requires rows { HasCells graph.now around.now × HasCells graph.now onward.now }
    requires node { node.0 < node_count graph.now }
    ensures { IsDistancePast graph.now
        (record { end = end.0; into = into; around = around.now; onward = onward.now }) node.0 result }
{
    let around_it = around[node.0 as usize];
    let over_it = into + onward[node.0 as usize];
    if over_it < around_it && graph.carries(node, end) {
        over_it
    } else {
        around_it
    }
}

/// Fills the cells of the lost nodes with their distances.
fn fill_lost(
    graph: &Graph,
    end: NodeNo,
    into: u64,
    around: &[u64],
    onward: &[u64],
    lost: &[NodeNo],
    cells: &mut [u64],
)
    requires into { into ≤ Far }
    requires rows { HasCells graph.now around.now × HasCells graph.now onward.now }
    requires lost { All (λ (n : Node). n.0 < node_count graph.now) lost.now }
    requires cells { length cells.old ≡ node_count graph.now }
    ensures { AreLostFilled graph.now (record { end = end.0; into = into; around = around.now; onward = onward.now })
        lost.now (length lost.now) cells.old cells.new }
{
    for node in lost {
        cells[node.0 as usize] = distance_past(graph, end, into, around, onward, *node);
    }
}

/// What the failure of a link leaves, told from the distances that the failure of its end leaves: `around`. No search is
/// made, and none is counted. A node that isn't lost keeps its distance. A walk to another one goes around the end, or it
/// reaches the end by a link that hasn't failed and goes on from there as it does in the whole graph.
pub fn post_of_link(
    alloc: Global,
    net: &Net,
    trees: &Trees,
    case: Case,
    around: &[u64],
) -> Result<Post, AllocError>
    requires trees { AreTrees net.now.graph trees.now }
    requires case { IsCase net.now.graph case × (case.kind ≡ LinkKind) }
    requires around { IsRowAfter net.now.graph (node_case case) around.now }
    ensures { IfOk result (IsPost net.now case) }
{
    let Begun {
        failed,
        mut cells,
        lost,
        kept,
    } = begin_case(alloc, net, trees, case)?;
    let graph = net.graph();
    let edge = graph.edge(case.link);
    let into = least_way(graph, &failed, edge.from, edge.to, around);
    fill_lost(
        graph,
        edge.to,
        into,
        around,
        trees.cells(edge.to),
        &lost,
        &mut cells,
    );
    Ok(Post::new(failed, Seq::new(cells), kept))
}
