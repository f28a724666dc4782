//! Rows of graphs that are drawn from a number, and of a ring with great metrics, beside a plain
//! search by rounds.
ghost use Rattle.std.specs.Prelude.{◌≡◌, ◌<◌, ◌≤◌, ℕ, IfOk, length, replicate};
ghost use Rattle.std.specs.Prelude.{slice_index_or, slice_set};
ghost use Rattle.sr_model.specs.Graph.{node_count, IsGraph};
ghost use Rattle.sr_spf.specs.Begun.{IsBegun};

use super::fixtures::{Line, Span, graph_of, id, spanned};
use sr_graph::{Graph, LinkSet};
use sr_model::{Case, FAR, Kind, LinkNo, NodeNo};
use sr_seq::Seq;
use sr_spf::{Steps, row, row_after};
use std::alloc::{AllocError, Global};
use std::marker::Brand;
use std::sync::ledger::{Blank, Ledger};
use std::test::Fail;

/// Nodes 1 to 4 in a ring of metric 3, but for the greatest metric from 3 to 4.
const STEEP: [Line; 8] = [
    (4, 1, 3),
    (1, 4, 3),
    (3, 4, 16_777_214),
    (4, 3, 3),
    (2, 3, 3),
    (3, 2, 3),
    (1, 2, 3),
    (2, 1, 3),
];

/// The row of the source, counted from nothing.
fn row_from<L: Ledger>(
    alloc: Global,
    graph: &Graph,
    without: &LinkSet,
    source: NodeNo,
    blank: Blank,
) -> Result<Seq<u64>, AllocError>
    requires source { source.0 < node_count graph.now }
    requires name { blank.name ≡ L.name }
    requires parts { (blank.parts ≡ L.parts) × (0 < L.parts) }
{
    let mut steps = Steps::<L>::new(blank);
    row(alloc, graph, without, source, &mut steps)
}

/// The row of the source.
pub fn row_of(
    alloc: Global,
    graph: &Graph,
    without: &LinkSet,
    source: NodeNo,
) -> Result<Seq<u64>, AllocError>
    requires { source.0 < node_count graph.now }
{
    row_from::<Brand>(alloc, graph, without, source, Blank::new(1))
}

/// Goes over all links as often as there are nodes, and lowers each cell to which a link leads a
/// shorter way.
fn lower_by_rounds(graph: &Graph, without: &LinkSet, source: NodeNo, cells: &mut [u64])
    requires { length cells.old ≡ node_count graph.now }
{
    for _ in 0..graph.node_count() {
        for number in 0..graph.link_count() {
            let number = LinkNo(number as u16);
            let link = graph.link(number);
            let from = cells[link.from.0 as usize];
            let over = from.saturating_add(link.metric as u64);
            let may_pass = !without.has(number) && graph.carries(source, link.from);
            if may_pass && from < FAR && over < cells[link.to.0 as usize] {
                cells[link.to.0 as usize] = over;
            }
        }
    }
}

/// Cells of `FAR`, but 0 at the source.
fn beginning(alloc: Global, graph: &Graph, source: NodeNo) -> Result<Vec<u64>, AllocError>
    requires { source.0 < node_count graph.now }
    ensures { IfOk result (λ cells.
        cells.items ≡ slice_set (replicate (node_count graph.now) FAR) source.0 0) }
{
    let mut cells = vec![in alloc; FAR; graph.node_count() as usize]?;
    cells[source.0 as usize] = 0;
    Ok(cells)
}

/// The cells that rounds over all links give.
fn lowest_by_rounds(
    alloc: Global,
    graph: &Graph,
    without: &LinkSet,
    source: NodeNo,
) -> Result<Vec<u64>, AllocError>
    requires { source.0 < node_count graph.now }
{
    let mut cells = beginning(alloc, graph, source)?;
    lower_by_rounds(graph, without, source, &mut cells);
    Ok(cells)
}

/// All nodes of the graph.
fn all_nodes(alloc: Global, graph: &Graph) -> Result<Vec<NodeNo>, AllocError>
    ensures long { IfOk result (λ nodes. length nodes.items ≡ node_count graph.now) }
    ensures each { IfOk result (λ nodes. (k : ℕ) → k < node_count graph.now
        → slice_index_or nodes.items k (record { 0 = k }) ≡ record { 0 = k }) }
    ensures graph { IsGraph graph.now }
{
    let mut nodes = Vec::new(alloc);
    for node in 0..graph.node_count() {
        nodes.push(NodeNo(node as u16))?;
    }
    Ok(nodes)
}

/// The row of the source after these distances, counted from nothing.
fn row_after_from<L: Ledger>(
    alloc: Global,
    graph: &Graph,
    without: &LinkSet,
    source: NodeNo,
    cells: Vec<u64>,
    lost: &[NodeNo],
    blank: Blank,
) -> Result<Seq<u64>, AllocError>
    requires source { source.0 < node_count graph.now }
    requires begun { IsBegun graph.now without.now source.0 cells.items lost.now }
    requires name { blank.name ≡ L.name }
    requires parts { (blank.parts ≡ L.parts) × (0 < L.parts) }
{
    let mut steps = Steps::<L>::new(blank);
    row_after(alloc, graph, without, source, cells, lost, &mut steps)
}

/// The row that a search gives which knows the source's distance alone.
fn row_after_source(
    alloc: Global,
    graph: &Graph,
    without: &LinkSet,
    source: NodeNo,
) -> Result<Seq<u64>, AllocError>
    requires { source.0 < node_count graph.now }
{
    let lost = all_nodes(alloc, graph)?;
    let cells = beginning(alloc, graph, source)?;
    row_after_from::<Brand>(alloc, graph, without, source, cells, &lost, Blank::new(1))
}

/// Whether both searches give the cells that rounds over all links give, from each node.
fn are_as_by_rounds(alloc: Global, graph: &Graph, without: &LinkSet) -> Result<bool, AllocError> {
    for node in 0..graph.node_count() {
        let source = NodeNo(node as u16);
        let lowest = lowest_by_rounds(alloc, graph, without, source)?;
        let row = row_of(alloc, graph, without, source)?;
        let after = row_after_source(alloc, graph, without, source)?;
        if row.as_slice() != lowest.as_slice() || after.as_slice() != lowest.as_slice() {
            return Ok(false);
        }
    }
    Ok(true)
}

#[test]
fn rows_of_a_steep_ring_are_as_by_rounds(rt: HostRuntime) -> Result<(), Fail> {
    let alloc = rt.alloc();
    let graph = graph_of(alloc, 4, &STEEP)?;
    assert!(rt; graph.link_count() == 8);
    let case = Case {
        kind: Kind::Node,
        link: LinkNo(1),
    };
    let nothing = graph.nothing(alloc)?;
    assert!(rt; are_as_by_rounds(alloc, &graph, &nothing)?);
    let failed = graph.failed(alloc, case)?;
    assert!(rt; are_as_by_rounds(alloc, &graph, &failed)?);
    Ok(())
}

/// The next number below the bound. What is drawn follows from the state alone.
fn draw(state: &mut u32, below: u64) -> u64
    requires { 0 < below }
    ensures { result < below }
{
    *state = state.wrapping_mul(1664525).wrapping_add(1013904223);
    (*state / 65536) as u64 % below
}

/// As many links, each with a number of its own and a metric of 1 to 5, between two different nodes
/// of the system ids from 1 on.
fn drawn_spans(
    alloc: Global,
    nodes: u64,
    count: u32,
    state: &mut u32,
) -> Result<Vec<Span>, AllocError>
    requires { (2 ≤ nodes) × (nodes < 256) }
{
    let mut spans = Vec::new(alloc);
    for number in 0..count {
        let from = draw(state, nodes) + 1;
        let other = draw(state, nodes - 1) + 1;
        let to = if other < from { other } else { other + 1 };
        let metric = draw(state, 5) as u32 + 1;
        spans.push(Span {
            from,
            to,
            metric,
            number,
        })?;
    }
    Ok(spans)
}

/// A graph of 2 to 12 nodes and up to 60 links, of which at most one node is overloaded.
fn drawn_graph(alloc: Global, state: &mut u32) -> Result<Graph, Fail> {
    let nodes = draw(state, 11) + 2;
    let count = draw(state, 61) as u32;
    let spans = drawn_spans(alloc, nodes, count, state)?;
    let mut graph = spanned(alloc, nodes, &spans, 0)?;
    graph.mark(alloc, [id(draw(state, 16))].as_slice())?;
    Ok(graph)
}

/// The links that fail in a link case or a node case. None where there is no link.
fn drawn_failure(alloc: Global, graph: &Graph, state: &mut u32) -> Result<LinkSet, AllocError> {
    let count = graph.link_count();
    if count == 0 {
        return graph.nothing(alloc);
    }
    let kind = if draw(state, 2) == 0 {
        Kind::Link
    } else {
        Kind::Node
    };
    let link = LinkNo(draw(state, count as u64) as u16);
    graph.failed(alloc, Case { kind, link })
}

#[test]
fn drawn_rows_are_as_by_rounds(rt: HostRuntime) -> Result<(), Fail> {
    let alloc = rt.alloc();
    for seed in 0..40u32 {
        let mut state = seed;
        let graph = drawn_graph(alloc, &mut state)?;
        let nothing = graph.nothing(alloc)?;
        assert!(rt;
            are_as_by_rounds(alloc, &graph, &nothing)?,
            "of seed {seed}"
        );
        let failed = drawn_failure(alloc, &graph, &mut state)?;
        assert!(rt; are_as_by_rounds(alloc, &graph, &failed)?, "of seed {seed}");
    }
    Ok(())
}
