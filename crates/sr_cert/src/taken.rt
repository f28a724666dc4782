//! The rows of distances of a certificate, taken from what a version has.
ghost use Rattle.std.specs.Prelude.{◌≡◌, ◌≤◌, ◌+◌, ◌<◌, ◌∷◌, [], IfOk, OnOk};
ghost use Rattle.sr_model.specs.Graph.{node_count, link_count, head};
ghost use Rattle.sr_model.specs.Case.{IsCase};
ghost use Rattle.sr_spf.specs.Trees.{row_at, tree_count};
ghost use Rattle.sr_repair.specs.Stack.{CanLabel, HaveLabels};
ghost use Rattle.sr_cert.specs.Rows.{From, To, headings};
ghost use Rattle.sr_cert.specs.Taken.{IsRowWithout, IsColumn, AddsRows, AreTaken, headings_of};

use sr_graph::Graph;
use sr_model::{Case, LinkNo, NodeNo, Segment};
use sr_repair::{Version, segment_end};
use sr_seq::Seq;
use sr_spf::{Steps, Trees, row};
use std::alloc::{AllocError, Global};
use std::sync::ledger::Ledger;

/// The distances from the source of the case without the links that fail. At most one search is counted.
fn row_without<L: Ledger>(
    alloc: Global,
    graph: &Graph,
    case: Case,
    steps: &mut Steps<L>,
) -> Result<Seq<u64>, AllocError>
    requires { IsCase graph.now case }
    ensures row { IfOk result (IsRowWithout graph.now case) }
    ensures most { steps.new ≤ steps.old + 1 }
    ensures least { steps.old ≤ steps.new }
{
    let failed = graph.failed(alloc, case)?;
    let source = graph.edge(case.link).from;
    row(alloc, graph, &failed, source, steps)
}

/// The distances from the node.
fn row_from(alloc: Global, trees: &Trees, node: NodeNo) -> Result<Seq<u64>, AllocError>
    requires { node.0 < tree_count trees.now }
    ensures { IfOk result (λ cells. cells ≡ row_at trees.now.rows node.0) }
{
    Ok(Seq::new(Vec::from_slice(alloc, trees.cells(node))?))
}

/// The distances to the node from each node.
fn column_to(alloc: Global, trees: &Trees, node: NodeNo) -> Result<Seq<u64>, AllocError>
    requires { node.0 < tree_count trees.now }
    ensures { IfOk result (IsColumn trees.now node.0 (tree_count trees.now)) }
{
    let mut cells = Vec::with_capacity(alloc, trees.node_count() as usize)?;
    for from in 0..trees.node_count() {
        cells.push(trees.cells(NodeNo(from as u16))[node.0 as usize])?;
    }
    Ok(Seq::new(cells))
}

/// Appends the distances from one node, and then those to another.
fn add_pair(
    alloc: Global,
    version: &Version,
    from: NodeNo,
    to: NodeNo,
    out: &mut Vec<Seq<u64>>,
) -> Result<(), AllocError>
    requires from { from.0 < node_count version.now.net.graph }
    requires to { to.0 < node_count version.now.net.graph }
    ensures { OnOk result (AddsRows version.now.net.graph (From from.0 ∷ To to.0 ∷ []) out.old.items out.new.items) }
{
    let trees = version.trees();
    out.push(row_from(alloc, trees, from)?)?;
    out.push(column_to(alloc, trees, to)?)?;
    Ok(())
}

/// Appends the rows that a segment asks for, which becomes active at node `at`.
fn add_segment(
    alloc: Global,
    version: &Version,
    at: NodeNo,
    segment: Segment,
    out: &mut Vec<Seq<u64>>,
) -> Result<(), AllocError>
    requires at { at.0 < node_count version.now.net.graph }
    requires label { CanLabel version.now.net segment }
    ensures { OnOk result (AddsRows version.now.net.graph (headings_of at.0 segment) out.old.items out.new.items) }
{
    match segment {
        Segment::Node(node) => add_pair(alloc, version, at, node, out),
        Segment::Adj(_) => Ok(()),
    }
}

/// Appends the rows that segments ask for from waypoint `begin` on towards the destination.
fn add_rows(
    alloc: Global,
    version: &Version,
    begin: NodeNo,
    segments: &[Segment],
    destination: NodeNo,
    out: &mut Vec<Seq<u64>>,
) -> Result<(), AllocError>
    requires begin { begin.0 < node_count version.now.net.graph }
    requires segments { HaveLabels version.now.net segments.now }
    requires destination { destination.0 < node_count version.now.net.graph }
    ensures { OnOk result (AddsRows version.now.net.graph
        (headings version.now.net.graph begin.0 segments.now destination.0) out.old.items out.new.items) }
{
    let net = version.net();
    let mut at = begin;
    for segment in segments {
        add_segment(alloc, version, at, *segment, out)?;
        at = segment_end(net, *segment);
    }
    add_pair(alloc, version, at, destination, out)
}

/// The rows of a repair with this first link and these segments towards the destination. At most one search is counted.
pub(crate) fn certificate_rows<L: Ledger>(
    alloc: Global,
    version: &Version,
    case: Case,
    first: LinkNo,
    segments: &[Segment],
    destination: NodeNo,
    steps: &mut Steps<L>,
) -> Result<Seq<Seq<u64>>, AllocError>
    requires links { IsCase version.now.net.graph case × (first.0 < link_count version.now.net.graph) }
    requires segments { HaveLabels version.now.net segments.now }
    requires destination { destination.0 < node_count version.now.net.graph }
    ensures rows { IfOk result (AreTaken version.now.net.graph case
        (headings version.now.net.graph (head version.now.net.graph first.0) segments.now destination.0)) }
    ensures searches { (steps.old ≤ steps.new) × (steps.new ≤ steps.old + 1) }
{
    let graph = version.net().graph();
    let mut rows = Vec::new(alloc);
    rows.push(row_without(alloc, graph, case, steps)?)?;
    add_rows(
        alloc,
        version,
        graph.edge(first).to,
        segments,
        destination,
        &mut rows,
    )?;
    Ok(Seq::new(rows))
}
