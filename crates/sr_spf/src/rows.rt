//! The distances from each node in the whole graph, in threads.
ghost use Rattle.std.specs.Prelude.{◌≡◌, ◌+◌, ◌<◌, ◌≤◌, [], length, IfOk, OnOk};
ghost use Rattle.sr_model.specs.Graph.{node_count};
ghost use Rattle.sr_model.specs.Walk.{IsRow};
ghost use Rattle.sr_spf.specs.Begun.{IsBegun};
ghost use Rattle.sr_spf.specs.Trees.{AreRows};
ghost use Rattle.sr_spf.specs.Rows.{rows_in};

use crate::begun::row_after;
use crate::dijkstra::row;
use crate::shared::Shared;
use crate::steps::{Searched, Steps};
use crate::trees::NODES;
use sr_graph::{Graph, LinkSet};
use sr_model::NodeNo;
use sr_seq::Seq;
use sr_threads::made_of_each;
use std::alloc::{AllocError, Global};
use std::marker::Brand;
use std::sync::ledger::{Blank, Ledger};
use std::thread::Threads;

/// The distances from one node, and that the search for them was counted.
#[derive(Drop)]
pub(crate) struct Counted {
    /// The distance to each node, by number; `FAR` where there is no walk.
    pub(crate) row: Seq<u64>,
    pub(crate) searched: Searched,
}

/// The distances from the node in the whole graph, counted from nothing. `nothing` is the set of no links.
fn measured_from<L: Ledger>(
    alloc: Global,
    graph: &Graph,
    nothing: &LinkSet,
    node: NodeNo,
    blank: Blank,
) -> Result<Counted, AllocError>
    requires name { blank.name ≡ L.name }
    requires parts { (blank.parts ≡ L.parts) × (0 < L.parts) }
    requires nothing { nothing.now ≡ [] }
    requires node { node.0 < node_count graph.now }
    ensures { IfOk result (λ c. IsRow graph.now [] node.0 c.row) }
{
    let mut steps = Steps::<L>::new(blank);
    let row = row(alloc, graph, nothing, node, &mut steps)?;
    let searched = steps.give_up();
    Ok(Counted { row, searched })
}

/// The distances from the node in the whole graph, by a counter of their own.
pub(crate) fn measured(
    alloc: Global,
    graph: &Graph,
    nothing: &LinkSet,
    node: NodeNo,
) -> Result<Counted, AllocError>
    requires nothing { nothing.now ≡ [] }
    requires node { node.0 < node_count graph.now }
    ensures { IfOk result (λ c. IsRow graph.now [] node.0 c.row) }
{
    measured_from::<Brand>(alloc, graph, nothing, node, Blank::new(1))
}

/// The distances from the node in the whole graph, where those of all nodes but the lost ones are known. `nothing` is the set
/// of no links.
fn measured_after_from<L: Ledger>(
    alloc: Global,
    graph: &Graph,
    nothing: &LinkSet,
    node: NodeNo,
    cells: Vec<u64>,
    lost: &[NodeNo],
    blank: Blank,
) -> Result<Counted, AllocError>
    requires blank { (blank.name ≡ L.name) × (blank.parts ≡ L.parts) × (0 < L.parts) }
    requires nothing { nothing.now ≡ [] }
    requires node { node.0 < node_count graph.now }
    requires begun { IsBegun graph.now [] node.0 cells.items lost.now }
    ensures { IfOk result (λ c. IsRow graph.now [] node.0 c.row) }
{
    let mut steps = Steps::<L>::new(blank);
    let row = row_after(alloc, graph, nothing, node, cells, lost, &mut steps)?;
    let searched = steps.give_up();
    Ok(Counted { row, searched })
}

/// The distances from the node in the whole graph, where those of all nodes but the lost ones are known, by a counter of
/// their own.
pub(crate) fn measured_after(
    alloc: Global,
    graph: &Graph,
    nothing: &LinkSet,
    node: NodeNo,
    cells: Vec<u64>,
    lost: &[NodeNo],
) -> Result<Counted, AllocError>
    requires nothing { nothing.now ≡ [] }
    requires node { node.0 < node_count graph.now }
    requires begun { IsBegun graph.now [] node.0 cells.items lost.now }
    ensures { IfOk result (λ c. IsRow graph.now [] node.0 c.row) }
{
    measured_after_from::<Brand>(alloc, graph, nothing, node, cells, lost, Blank::new(1))
}

/// The distances from each node, by number. The nodes are split among threads where there are any.
fn all_counted(
    rt: &(impl Threads + Sync),
    alloc: Global,
    graph: &Graph,
) -> Result<Vec<Counted>, AllocError>
    ensures { IfOk result (λ all. AreRows graph.now (rows_in all.items) (node_count graph.now)) }
{
    let nothing = graph.nothing(alloc)?;
    let counted = |node: u32| -> Result<Counted, AllocError>
        requires nothing { nothing ≡ [] }
        requires few { node_count graph.now ≤ 256 }
        requires node { node < node_count graph.now }
        ensures { IfOk result (λ c. IsRow graph.entry.now [] node c.row) }
    { measured(alloc, graph, &nothing, NodeNo(node as u16)) };
    made_of_each(rt, alloc, graph.node_count(), NODES, &counted)
}

/// The distances alone. The search for each is taken in.
fn all_taken_in<L: Ledger>(
    alloc: Global,
    all: Vec<Counted>,
    steps: &mut Steps<L>,
) -> Result<Vec<Seq<u64>>, AllocError>
    ensures rows { IfOk result (λ rows. rows.items ≡ rows_in all.items) }
    ensures steps { OnOk result (steps.new ≡ steps.old + length all.items) }
    ensures most { steps.new ≤ steps.old + length all.items }
    ensures least { steps.old ≤ steps.new }
{
    let mut rows = Vec::with_capacity(alloc, all.len())?;
    for one in all {
        let Counted { row, searched } = one;
        steps.take_in(searched);
        rows.push(row)?;
    }
    Ok(rows)
}

/// The distances from each node, in threads where there are any. One search is counted for each node.
pub(crate) fn rows_of<L: Ledger>(
    rt: &(impl Threads + Sync),
    alloc: Global,
    graph: &Graph,
    steps: &mut Steps<L>,
) -> Result<Shared<Seq<u64>>, AllocError>
    ensures rows { IfOk result (λ rows. AreRows graph.now rows (node_count graph.now)) }
    ensures steps { OnOk result (steps.new ≡ steps.old + node_count graph.now) }
    ensures most { steps.new ≤ steps.old + node_count graph.now }
    ensures least { steps.old ≤ steps.new }
{
    let all = all_counted(rt, alloc, graph)?;
    let rows = all_taken_in(alloc, all, steps)?;
    Shared::of(alloc, rows)
}
