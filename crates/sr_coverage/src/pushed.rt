//! Repairs counted by kind and by how many labels they push.
ghost use Rattle.std.specs.Prelude.{◌≡◌, ℕ, ◌+◌, ◌*◌, ◌<◌, ◌≤◌, ◌^◌, length, IfOk};
ghost use Rattle.sr_model.specs.Audit.{IsAudit, is_least, rank_of};
ghost use Rattle.sr_model.specs.Graph.{node_count};
ghost use Rattle.sr_model.specs.Repair.{Fits};
ghost use Rattle.sr_model.specs.Rule.{IsNet};
ghost use Rattle.sr_insight.specs.Stacks.{AreStackCounts};
ghost use Rattle.sr_coverage.specs.Pushed.{IsWide, AreNarrow, pushed_slot, AreTallied, AreRowsOf};

use sr_insight::StackCount;
use sr_labels::Net;
use sr_model::{Answer, Item, Kind, NodeNo};
use std::alloc::{AllocError, Global};

/// The most labels that a repair at the node pushes: one for each segment, and one for the destination.
fn most_labels(net: &Net, node: NodeNo) -> usize
    requires { node.0 < node_count net.now.graph }
    ensures most { (k : ℕ) → Fits net.now node.0 k → k + 1 ≤ result }
    ensures few { result ≤ 256 }
{
    match net.labels(node).imposes() {
        Some(most) => usize::from(most),
        None => usize::from(net.depth()) + 1,
    }
}

/// How many numbers of labels there are: 0, and up to the most that a repair of the net pushes.
fn width_of(net: &Net) -> usize
    ensures wide { IsWide net.now (node_count net.now.graph) result }
    ensures some { 0 < result }
    ensures few { result ≤ 257 }
    ensures net { IsNet net.now }
{
    let count = net.graph().node_count();
    let mut width = 1;
    for node in 0..count {
        width = width.max(most_labels(net, NodeNo(node as u16)) + 1);
    }
    width
}

/// The slot of a kind and a number of labels in a table of this width.
fn pushed_slot(width: usize, kind: Kind, labels: usize) -> usize
    requires labels { labels < width }
    requires few { width ≤ 257 }
    ensures slot { result ≡ pushed_slot width kind labels }
    ensures within { result < 3 * width }
{
    match kind {
        Kind::Link => labels,
        Kind::Node => width + labels,
        Kind::Risk => 2 * width + labels,
    }
}

/// Whether the item is a repair.
fn has_list(item: &Item<'_>) -> bool
    ensures { result ≡ is_least item.now.answer }
{
    match item.answer {
        Answer::Least(_) => true,
        Answer::NoPath | Answer::NoList | Answer::TooDeep { .. } => false,
    }
}

/// How many repairs push each number of labels, for each kind and each number below the width.
fn tallied(alloc: Global, items: &[Item<'_>], width: usize) -> Result<Vec<u32>, AllocError>
    requires narrow { AreNarrow items.now width }
    requires few { length items.now < 2 ^ 32 }
    requires width { width ≤ 257 }
    ensures { IfOk result (λ table. AreTallied width items.now table.items) }
{
    let mut table = vec![in alloc; 0; 3 * width]?;
    for item in items {
        if has_list(item) {
            let slot = pushed_slot(width, item.case.kind, item.labels.as_slice().len());
            table[slot] += 1;
        }
    }
    Ok(table)
}

/// The kind of this place among link, node and risk.
fn kind_at(rank: usize) -> Kind
    requires { rank < 3 }
    ensures { rank_of result ≡ rank }
{
    match rank {
        0 => Kind::Link,
        1 => Kind::Node,
        _ => Kind::Risk,
    }
}

/// A row for each slot that isn't 0, in order.
fn table_rows(alloc: Global, table: &[u32], width: usize) -> Result<Vec<StackCount>, AllocError>
    requires long { length table.now ≡ 3 * width }
    requires some { 0 < width }
    requires few { width ≤ 257 }
    ensures { IfOk result (λ rows. AreRowsOf width table.now (3 * width) rows.items) }
{
    let mut rows = Vec::new(alloc);
    for slot in 0..table.len() {
        let repairs = table[slot];
        if repairs > 0 {
            rows.push(StackCount {
                kind: kind_at(slot / width),
                labels: (slot % width) as u32,
                repairs,
            })?;
        }
    }
    Ok(rows)
}

/// How many labels the repairs among these items push, which are an audit of the net, by kind and then by number.
pub(crate) fn stack_counts_of(
    alloc: Global,
    net: &Net,
    items: &[Item<'_>],
) -> Result<Vec<StackCount>, AllocError>
    requires audit { IsAudit net.now items.now }
    requires few { length items.now < 2 ^ 32 }
    ensures { IfOk result (λ rows. AreStackCounts items.now rows.items) }
{
    let width = width_of(net);
    let table = tallied(alloc, items, width)?;
    table_rows(alloc, &table, width)
}
