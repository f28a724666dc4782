//! The rows and the next hops of a new graph, of which those of some nodes stay.
ghost use Rattle.std.specs.Prelude.{◌≡◌, ◌+◌, ◌<◌, ◌≤◌, ◌∷◌, [], length, IsTrue, IfOk, OnOk};
ghost use Rattle.sr_model.specs.Graph.{node_count, link_count};
ghost use Rattle.sr_spf.specs.Carried.{AreCarried};
ghost use Rattle.sr_spf.specs.Hops.{AreHopsFrom};
ghost use Rattle.sr_spf.specs.Trees.{AreRows, AreHopTables};
ghost use Rattle.sr_spf.specs.Renewed.{fallen, searches, rows_found, moved_table, row_found, AreInPlace, AreRowsBut, AreStayingRows, AreStayingTables, IsFoundRow, AreFoundRows, IsFoundTable};

use crate::hops::{HopTable, hops_of};
use crate::lost::{all_listed, cells_without};
use crate::rows::{Counted, measured_after};
use crate::shared::Shared;
use crate::steps::Steps;
use crate::trees::NODES;
use sr_graph::{Graph, LinkSet};
use sr_lanes::NodeBits;
use sr_model::{LinkNo, NodeNo};
use sr_seq::Seq;
use sr_threads::made_of_each;
use std::alloc::{AllocError, Global};
use std::sync::ledger::Ledger;
use std::thread::Threads;

/// What of the trees of an old graph serves a new one.
#[derive(Debug, Drop)]
pub struct Renewal {
    /// By number, whether the tree of the node stays.
    pub stays: Vec<bool>,
    /// By number, the nodes to which the node's old distance may be another in the new graph, where its tree doesn't stay.
    pub lost: Vec<NodeBits>,
}

/// The distances from the node in the whole graph, unless its row stays: the search goes on from those that stand.
fn found_row(
    alloc: Global,
    graph: &Graph,
    nothing: &LinkSet,
    renewal: &Renewal,
    old: &Shared<Seq<u64>>,
    node: NodeNo,
) -> Result<Option<Counted>, AllocError>
    requires nothing { nothing.now ≡ [] }
    requires old { AreRowsBut graph.now old.now renewal.now }
    requires node { node.0 < node_count graph.now }
    ensures { IfOk result (IsFoundRow graph.now renewal.now.stays.items node.0) }
{
    if renewal.stays[node.0 as usize] {
        return Ok(None);
    }
    let lost = renewal.lost[node.0 as usize];
    let cells = cells_without(alloc, old.get(node.0 as usize).as_slice(), lost)?;
    let nodes = all_listed(alloc, lost)?;
    let counted = measured_after(alloc, graph, nothing, node, cells, &nodes)?;
    Ok(Some(counted))
}

/// By number, the distances from each node whose row doesn't stay. The nodes are split among threads where there are any.
fn found_rows(
    rt: &(impl Threads + Sync),
    alloc: Global,
    graph: &Graph,
    renewal: &Renewal,
    old: &Shared<Seq<u64>>,
) -> Result<Vec<Option<Counted>>, AllocError>
    requires { AreRowsBut graph.now old.now renewal.now }
    ensures { IfOk result (λ all. AreFoundRows graph.now renewal.now.stays.items all.items) }
{
    let nothing = graph.nothing(alloc)?;
    let found = |node: u32| -> Result<Option<Counted>, AllocError>
        requires nothing { nothing ≡ [] }
        requires few { node_count graph.now ≤ 256 }
        requires old { AreRowsBut graph.now old.now renewal.now }
        requires node { node < node_count graph.now }
        ensures { IfOk result (IsFoundRow graph.entry.now renewal.entry.now.stays.items node) }
    { found_row(alloc, graph, &nothing, renewal, old, NodeNo(node as u16)) };
    made_of_each(rt, alloc, graph.node_count(), NODES, &found)
}

/// The distances alone, if there are any. The search for them is taken in.
fn taken_in<L: Ledger>(one: Option<Counted>, steps: &mut Steps<L>) -> Option<Seq<u64>>
    ensures row { result ≡ row_found one }
    ensures steps { steps.new ≡ steps.old + searches (one ∷ []) }
{
    match one {
        None => None,
        Some(Counted { row, searched }) => {
            steps.take_in(searched);
            Some(row)
        }
    }
}

/// The distances alone. The search for each row is taken in.
fn all_found_taken_in<L: Ledger>(
    alloc: Global,
    all: Vec<Option<Counted>>,
    steps: &mut Steps<L>,
) -> Result<Vec<Option<Seq<u64>>>, AllocError>
    ensures rows { IfOk result (λ rows. rows.items ≡ rows_found all.items) }
    ensures steps { OnOk result (steps.new ≡ steps.old + searches all.items) }
    ensures most { steps.new ≤ steps.old + searches all.items }
    ensures least { steps.old ≤ steps.new }
{
    let mut rows = Vec::with_capacity(alloc, all.len())?;
    for one in all {
        let row = taken_in(one, steps);
        rows.push(row)?;
    }
    Ok(rows)
}

/// The distances from each node: those that stay are shared, and one search is counted for each other node.
pub(crate) fn renewed_rows<L: Ledger>(
    rt: &(impl Threads + Sync),
    alloc: Global,
    graph: &Graph,
    renewal: &Renewal,
    old: &Shared<Seq<u64>>,
    steps: &mut Steps<L>,
) -> Result<Shared<Seq<u64>>, AllocError>
    requires { AreStayingRows graph.now old.now renewal.now.stays.items × AreRowsBut graph.now old.now renewal.now }
    ensures rows { IfOk result (λ rows. AreRows graph.now rows (node_count graph.now)) }
    ensures steps { OnOk result (steps.new ≡ steps.old + fallen renewal.now.stays.items) }
    ensures most { steps.new ≤ steps.old + fallen renewal.now.stays.items }
    ensures least { steps.old ≤ steps.new }
{
    let all = found_rows(rt, alloc, graph, renewal, old)?;
    let found = all_found_taken_in(alloc, all, steps)?;
    Shared::renewed(alloc, old, found)
}

/// Whether each link has the number that it had, where it has one.
pub fn are_in_place(links: &[Option<LinkNo>]) -> bool
    ensures { IsTrue result → AreInPlace links.now }
{
    for place in 0..links.len() {
        match links[place] {
            Some(number) => {
                if number.0 as usize != place {
                    return false;
                }
            }
            None => {}
        }
    }
    true
}

/// The next hops from the node, unless they stay.
fn found_table(
    alloc: Global,
    graph: &Graph,
    carried: &[NodeBits],
    renewal: &Renewal,
    node: NodeNo,
) -> Result<Option<HopTable>, AllocError>
    requires carried { AreCarried graph.now carried.now (link_count graph.now) }
    requires marks { length renewal.now.stays.items ≡ node_count graph.now }
    requires node { node.0 < node_count graph.now }
    ensures { IfOk result (IsFoundTable graph.now renewal.now.stays.items node.0) }
{
    if renewal.stays[node.0 as usize] {
        return Ok(None);
    }
    let table = hops_of(alloc, graph, carried, node)?;
    Ok(Some(table))
}

/// The next hops from each node: those that stay are shared. The nodes are split among threads where there are any.
pub(crate) fn kept_tables(
    rt: &(impl Threads + Sync),
    alloc: Global,
    graph: &Graph,
    carried: &[NodeBits],
    old: &Shared<HopTable>,
    renewal: &Renewal,
) -> Result<Shared<HopTable>, AllocError>
    requires carried { AreCarried graph.now carried.now (link_count graph.now) }
    requires old { AreStayingTables graph.now old.now renewal.now.stays.items (λ t. t) }
    ensures { IfOk result (λ hops. AreHopTables graph.now hops (node_count graph.now)) }
{
    let found = |node: u32| -> Result<Option<HopTable>, AllocError>
        requires carried { AreCarried graph.now carried.now (link_count graph.now) }
        requires marks { length renewal.now.stays.items ≡ node_count graph.now }
        requires node { node < node_count graph.now }
        ensures { IfOk result (IsFoundTable graph.entry.now renewal.entry.now.stays.items node) }
    {
        let _count = graph.node_count();
        found_table(alloc, graph, carried, renewal, NodeNo(node as u16))
    };
    let tables = made_of_each(rt, alloc, graph.node_count(), NODES, &found)?;
    Shared::renewed(alloc, old, tables)
}

/// The next hops from the node: where they stay, those that it had, by the new numbers of the links.
fn moved_or_found(
    alloc: Global,
    graph: &Graph,
    carried: &[NodeBits],
    old: &Shared<HopTable>,
    renewal: &Renewal,
    links: &[Option<LinkNo>],
    node: NodeNo,
) -> Result<HopTable, AllocError>
    requires carried { AreCarried graph.now carried.now (link_count graph.now) }
    requires old { AreStayingTables graph.now old.now renewal.now.stays.items (moved_table links.now) }
    requires node { node.0 < node_count graph.now }
    ensures { IfOk result (AreHopsFrom graph.now node.0) }
{
    if renewal.stays[node.0 as usize] {
        return old.get(node.0 as usize).moved(alloc, links);
    }
    hops_of(alloc, graph, carried, node)
}

/// The next hops from each node: those that stay are copied with the new numbers of the links. The nodes are split among
/// threads where there are any.
pub(crate) fn moved_tables(
    rt: &(impl Threads + Sync),
    alloc: Global,
    graph: &Graph,
    carried: &[NodeBits],
    old: &Shared<HopTable>,
    renewal: &Renewal,
    links: &[Option<LinkNo>],
) -> Result<Shared<HopTable>, AllocError>
    requires carried { AreCarried graph.now carried.now (link_count graph.now) }
    requires old { AreStayingTables graph.now old.now renewal.now.stays.items (moved_table links.now) }
    ensures { IfOk result (λ hops. AreHopTables graph.now hops (node_count graph.now)) }
{
    let moved = |node: u32| -> Result<HopTable, AllocError>
        requires carried { AreCarried graph.now carried.now (link_count graph.now) }
        requires old { AreStayingTables graph.now old.now renewal.now.stays.items (moved_table links.now) }
        requires node { node < node_count graph.now }
        ensures { IfOk result (AreHopsFrom graph.entry.now node) }
    {
        let _count = graph.node_count();
        moved_or_found(
            alloc,
            graph,
            carried,
            old,
            renewal,
            links,
            NodeNo(node as u16),
        )
    };
    let tables = made_of_each(rt, alloc, graph.node_count(), NODES, &moved)?;
    Shared::of(alloc, tables)
}
