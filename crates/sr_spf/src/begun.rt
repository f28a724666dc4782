//! Distances from one node, where those of most nodes are known.
ghost use Rattle.std.specs.Prelude.{◌≡◌, [], ◌+◌, ◌<◌, OnOk, IfOk};
ghost use Rattle.std.specs.BinaryHeap.{heap_items};
ghost use Rattle.sr_model.specs.Graph.{node_count, link_count};
ghost use Rattle.sr_model.specs.Walk.{IsRow};
ghost use Rattle.sr_spf.specs.Queue.{IsQueued};
ghost use Rattle.sr_spf.specs.Begun.{HasCells, IsBegun, IsLeastWay};

use crate::dijkstra::{Queue, entry, settle};
use crate::steps::Steps;
use sr_graph::{Graph, LinkSet};
use sr_model::NodeNo;
use sr_seq::Seq;
use std::alloc::{AllocError, Global};
use std::collections::BinaryHeap;
use std::sync::ledger::Ledger;

/// The least of the node's cell and of the sums of another node's cell and a link from there to the node, which isn't one of
/// `without`, where a walk from the source may pass that other node. The sums are compared first, since few of them are
/// less.
pub fn least_way(
    graph: &Graph,
    without: &LinkSet,
    source: NodeNo,
    node: NodeNo,
    cells: &[u64],
) -> u64
    requires node { node.0 < node_count graph.now }
    requires cells { HasCells graph.now cells.now }
    ensures { IsLeastWay graph.now without.now source.0 cells.now node.0 result }
{
    let mut least = cells[node.0 as usize];
    for link in graph.links_to(node) {
        let edge = graph.edge(*link);
        let over = cells[edge.from.0 as usize] + edge.metric as u64;
        if over < least && !without.has(*link) && graph.carries(source, edge.from) {
            least = over;
        }
    }
    least
}

/// Lowers the cell of each lost node to the least way to it, and queues it where that is less.
fn enter(
    graph: &Graph,
    without: &LinkSet,
    source: NodeNo,
    lost: &[NodeNo],
    cells: &mut [u64],
    queue: &mut Queue,
) -> Result<(), AllocError>
    requires begun { IsBegun graph.now without.now source.0 cells.old lost.now }
    requires empty { heap_items queue.old ≡ [] }
    ensures queued { OnOk result
        (IsQueued (record { graph = graph.now; without = without.now; source = source.0 })
        cells.new (heap_items queue.new) source.0 (link_count graph.now)) }
{
    for node in lost {
        let cell = least_way(graph, without, source, *node, cells);
        if cell < cells[node.0 as usize] {
            cells[node.0 as usize] = cell;
            queue.push(entry(cell, *node))?;
        }
    }
    Ok(())
}

/// The distances from the source in the graph without these links, where those of all nodes but the lost ones are known:
/// the distance to each node, by number; `FAR` where there is no walk. One search is counted.
pub fn row_after<L: Ledger>(
    alloc: Global,
    graph: &Graph,
    without: &LinkSet,
    source: NodeNo,
    mut cells: Vec<u64>,
    lost: &[NodeNo],
    steps: &mut Steps<L>,
) -> Result<Seq<u64>, AllocError>
    requires source { source.0 < node_count graph.now }
    requires begun { IsBegun graph.now without.now source.0 cells.items lost.now }
    ensures row { IfOk result (λ r. IsRow graph.now without.now source.0 r) }
    ensures steps { steps.new ≡ steps.old + 1 }
{
    steps.tick();
    let mut queue = BinaryHeap::with_capacity(alloc, lost.len())?;
    enter(graph, without, source, lost, &mut cells, &mut queue)?;
    settle(graph, without, source, &mut cells, &mut queue)?;
    Ok(Seq::new(cells))
}
