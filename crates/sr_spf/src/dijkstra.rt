//! Distances from one node, by Dijkstra's algorithm.
ghost use Rattle.std.specs.Prelude.{◌≡◌, [], ◌+◌, ◌*◌, ◌<◌, ◌≤◌, ◌^◌, length, sum, IfOk, OnOk, slice_index};
ghost use Rattle.std.specs.BinaryHeap.{heap_items, heap_len};
ghost use Rattle.sr_model.specs.Graph.{node_count, link_count};
ghost use Rattle.sr_model.specs.Walk.{IsRow};
ghost use Rattle.sr_spf.specs.Relax.{falls};
ghost use Rattle.sr_spf.specs.Queue.{entry, IsQueued};

use crate::steps::Steps;
use sr_graph::{Edge, Graph, LinkRange, LinkSet};
use sr_model::{FAR, LinkNo, NodeNo};
use sr_seq::Seq;
use std::alloc::{AllocError, Global};
use std::cmp::Reverse;
use std::collections::BinaryHeap;
use std::sync::ledger::Ledger;

/// How many numbers a node of an entry may have.
const NUMBERS: u64 = 1 << 16;

/// A node whose distance fell, with that distance. The least distance comes first. Both stand in one number, so that one
/// comparison orders two entries: searches compare more than they do all else.
type QueueEntry = Reverse<u64>;

/// The nodes that wait to be visited.
pub(crate) type Queue = BinaryHeap<QueueEntry>;

/// The entry of a node with this distance. A distance fits 32 bits: it has at most 255 links of at most 16777214 each.
#[inline(always)]
pub(crate) fn entry(cell: u64, node: NodeNo) -> QueueEntry
    requires { cell < 2 ^ 32 }
    ensures { result ≡ entry cell node.0 }
{
    Reverse(cell * NUMBERS + node.0 as u64)
}

/// Whether the way over the link, which begins at the node, is shorter than what the cell of its end says.
#[inline(always)]
fn falls(node: NodeNo, edge: Edge, cells: &[u64]) -> bool
    requires from { node.0 < length cells.now }
    requires to { edge.to.0 < length cells.now }
    requires fits { slice_index cells.now node.0 + edge.metric < 2 ^ 64 }
    ensures { result ≡ falls node.0 edge.to.0 edge.metric cells.now }
{
    cells[node.0 as usize] + (edge.metric as u64) < cells[edge.to.0 as usize]
}

/// Relaxes the links of the node, where a walk from the source may take them, and queues each node whose cell falls.
fn visit(
    graph: &Graph,
    without: &LinkSet,
    source: NodeNo,
    node: NodeNo,
    cells: &mut [u64],
    queue: &mut Queue,
) -> Result<(), AllocError>
    requires node { node.0 < node_count graph.now }
    requires queued { IsQueued (record { graph = graph.now; without = without.now; source = source.0 })
        cells.old (heap_items queue.old) node.0 0 }
    ensures queued { OnOk result
        (IsQueued (record { graph = graph.now; without = without.now; source = source.0 })
        cells.new (heap_items queue.new) node.0 (link_count graph.now)) }
    ensures work { OnOk result (2 * sum cells.new + heap_len queue.new ≤ 2 * sum cells.old + heap_len queue.old) }
{
    if !graph.carries(source, node) {
        return Ok(());
    }
    let LinkRange { first, end } = graph.links_from(node);
    for i in first..end {
        let edge = graph.edge(LinkNo(i));
        // Most links lower nothing.
        if falls(node, edge, cells) && !without.has(LinkNo(i)) {
            let over = cells[node.0 as usize] + edge.metric as u64;
            cells[edge.to.0 as usize] = over;
            queue.push(entry(over, edge.to))?;
        }
    }
    Ok(())
}

/// Visits the queued nodes, and those that the visits queue.
pub(crate) fn settle(
    graph: &Graph,
    without: &LinkSet,
    source: NodeNo,
    cells: &mut [u64],
    queue: &mut Queue,
) -> Result<(), AllocError>
    requires queued { IsQueued (record { graph = graph.now; without = without.now; source = source.0 })
        cells.old (heap_items queue.old) source.0 (link_count graph.now) }
    ensures row { OnOk result (IsRow graph.now without.now source.0 cells.new) }
    ensures empty { OnOk result (heap_items queue.new ≡ []) }
{
    'pops: while let Some(Reverse(waiting)) = queue.pop() {
        let node = (waiting % NUMBERS) as u16;
        if waiting / NUMBERS == cells[node as usize] {
            visit(graph, without, source, NodeNo(node), cells, queue)?;
        }
    }
    Ok(())
}

/// The distances from the source in the graph without these links: the distance to each node, by number; `FAR` where
/// there is no walk. One search is counted.
pub fn row<L: Ledger>(
    alloc: Global,
    graph: &Graph,
    without: &LinkSet,
    source: NodeNo,
    steps: &mut Steps<L>,
) -> Result<Seq<u64>, AllocError>
    requires source { source.0 < node_count graph.now }
    ensures row { IfOk result (λ r. IsRow graph.now without.now source.0 r) }
    ensures steps { steps.new ≡ steps.old + 1 }
{
    steps.tick();
    let count = graph.node_count() as usize;
    let mut cells = vec![in alloc; FAR; count]?;
    let mut queue = BinaryHeap::with_capacity(alloc, count)?;
    cells[source.0 as usize] = 0;
    queue.push(entry(0, source))?;
    settle(graph, without, source, &mut cells, &mut queue)?;
    Ok(Seq::new(cells))
}
