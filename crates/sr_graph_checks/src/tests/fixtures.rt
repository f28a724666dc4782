//! Small graphs and nets, and what is computed of them.
ghost use Rattle.std.specs.Prelude.{◌≡◌, ◌+◌, ◌<◌, ◌≤◌, ℕ, All, IfOk, None};
ghost use Rattle.std.specs.Prelude.{length, replicate, slice_index};
ghost use Rattle.sr_model.specs.Graph.{node_count};
ghost use Rattle.sr_model.specs.Rule.{AreAnnounced};
ghost use Rattle.sr_graph.specs.Draft.{IsDraft};
ghost use Rattle.sr_spf.specs.Trees.{tree_count, AreTrees};
ghost use Rattle.sr_graph_checks.specs.Spans.{span_groups, IsSpanned};

use sr_graph::{Draft, DraftLink, Graph};
use sr_labels::{Net, NodeLabels, Srgb, first_clash};
use sr_model::{Ident, LinkKey, LinkNo, MOST_METRIC, Range, SystemId};
use sr_repair::Version;
use sr_seq::Seq;
use sr_spf::{Steps, Trees};
use std::alloc::{AllocError, Global};
use std::marker::Brand;
use std::sync::ledger::{Blank, Ledger};
use std::test::Fail;
use std::thread::Threads;

/// A link between two nodes: the numbers of their system ids, its metric, and the number at both
/// its ends that tells it from others. With the number 0 it has no identity.
#[derive(Clone, Copy)]
pub struct Span {
    pub from: u64,
    pub to: u64,
    pub metric: u32,
    pub number: u32,
}

/// A link of a table: the numbers of the system ids at its ends, and its metric.
pub type Line = (u64, u64, u32);

/// Nodes 1 to 4 in a ring of metric 1. In order of key the links are 1>2, 1>4, 2>1, 2>3, 3>2, 3>4,
/// 4>1 and 4>3.
pub const RING: [Line; 8] = [
    (4, 1, 1),
    (1, 4, 1),
    (3, 4, 1),
    (4, 3, 1),
    (2, 3, 1),
    (3, 2, 1),
    (1, 2, 1),
    (2, 1, 1),
];

/// Nodes 1 to 4 in a ring of metric 1, and node 5 behind node 3. In order of key the links are 1>2,
/// 1>4, 2>1, 2>3, 3>2, 3>4, 3>5, 4>1, 4>3 and 5>3.
pub const RING_WITH_LEAF: [Line; 10] = [
    (1, 2, 1),
    (2, 1, 1),
    (2, 3, 1),
    (3, 2, 1),
    (3, 4, 1),
    (4, 3, 1),
    (4, 1, 1),
    (1, 4, 1),
    (3, 5, 1),
    (5, 3, 1),
];

/// The system id of a small number.
pub fn id(value: u64) -> SystemId
    requires { value < 256 }
    ensures { result ≡ value }
{
    SystemId::new(value).unwrap()
}

/// The system ids from 1 on.
fn numbered(alloc: Global, nodes: u64) -> Result<Vec<SystemId>, AllocError>
    requires { nodes < 256 }
    ensures long { IfOk result (λ ids. length ids.items ≡ nodes) }
    ensures each { IfOk result (λ ids. (k : ℕ) → k < nodes → slice_index ids.items k ≡ k + 1) }
{
    let mut ids = Vec::new(alloc);
    for node in 0..nodes {
        ids.push(id(node + 1))?;
    }
    Ok(ids)
}

/// The groups of a link whose ends add up to this number: group 7 where that is the risky one, else
/// none.
fn groups_of(alloc: Global, ends: u64, risky: u64) -> Result<Vec<u32>, AllocError>
    ensures { IfOk result (λ groups. groups.items ≡ span_groups risky ends) }
{
    if ends == risky {
        Ok(vec![in alloc; 7]?)
    } else {
        Ok(Vec::new(alloc))
    }
}

/// The link of the span, where that joins two of the nodes.
fn link_of(alloc: Global, nodes: u64, span: Span, risky: u64) -> Result<DraftLink, Fail>
    requires { nodes < 256 }
    ensures { IfOk result (IsSpanned nodes risky) }
{
    let Span {
        from,
        to,
        metric,
        number,
    } = span;
    if from == 0 || from > nodes || to == 0 || to > nodes || from == to || metric > MOST_METRIC {
        return Err(Fail::new("a span joins no two of the nodes"));
    }
    let ident = if number == 0 {
        Ident::None
    } else {
        Ident::Link(number, number)
    };
    Ok(DraftLink {
        key: LinkKey {
            from: id(from),
            to: id(to),
            ident,
        },
        metric,
        groups: Seq::new(groups_of(alloc, from + to, risky)?),
    })
}

/// The links of the spans.
fn links_of(alloc: Global, nodes: u64, spans: &[Span], risky: u64) -> Result<Vec<DraftLink>, Fail>
    requires { nodes < 256 }
    ensures { IfOk result (λ links. All (IsSpanned nodes risky) links.items) }
{
    let mut links = Vec::new(alloc);
    for span in spans {
        links.push(link_of(alloc, nodes, *span, risky)?)?;
    }
    Ok(links)
}

/// The draft of nodes 1 to this number and these links. Those whose ends add up to the risky number
/// have group 7, the others no group.
fn draft_of(alloc: Global, nodes: u64, spans: &[Span], risky: u64) -> Result<Draft, Fail>
    requires { nodes < 256 }
    ensures { IfOk result IsDraft }
{
    let ids = numbered(alloc, nodes)?;
    let links = links_of(alloc, nodes, spans, risky)?;
    Ok(Draft {
        nodes: Seq::new(ids),
        links: Seq::new(links),
    })
}

/// The graph of nodes 1 to this number and these links. Those whose ends add up to the risky number
/// have group 7, the others no group.
pub fn spanned(alloc: Global, nodes: u64, spans: &[Span], risky: u64) -> Result<Graph, Fail>
    requires { nodes < 256 }
{
    Ok(Graph::build(alloc, draft_of(alloc, nodes, spans, risky)?)?)
}

/// The graph of nodes 1 to this number and the links of the table, which have neither identities
/// nor groups.
pub fn graph_of(alloc: Global, nodes: u64, table: &[Line]) -> Result<Graph, Fail>
    requires { nodes < 256 }
{
    let mut spans = Vec::new(alloc);
    for &(from, to, metric) in table {
        spans.push(Span {
            from,
            to,
            metric,
            number: 0,
        })?;
    }
    spanned(alloc, nodes, &spans, 0)
}

/// The trees of the graph, counted from nothing.
fn trees_from<L: Ledger>(
    rt: &(impl Threads + Sync),
    alloc: Global,
    graph: &Graph,
    blank: Blank,
) -> Result<Trees, AllocError>
    requires name { blank.name ≡ L.name }
    requires parts { (blank.parts ≡ L.parts) × (0 < L.parts) }
    ensures count { IfOk result (λ t. tree_count t ≡ node_count graph.now) }
    ensures trees { IfOk result (AreTrees graph.now) }
{
    let mut steps = Steps::<L>::new(blank);
    Trees::build(rt, alloc, graph, &mut steps)
}

/// The trees of the graph.
pub fn trees_of(
    rt: &(impl Threads + Sync),
    alloc: Global,
    graph: &Graph,
) -> Result<Trees, AllocError>
    ensures count { IfOk result (λ t. tree_count t ≡ node_count graph.now) }
    ensures trees { IfOk result (AreTrees graph.now) }
{
    trees_from::<Brand>(rt, alloc, graph, Blank::new(1))
}

/// What a node announces that has this index, if any, and the labels 16000 to 16099.
fn node(alloc: Global, index: Option<u32>) -> Result<NodeLabels, Fail> {
    let range = Range {
        first: 16_000,
        size: 100,
    };
    let srgb = Srgb::new([range].to_vec(alloc)?)?;
    Ok(NodeLabels::new(srgb, index, false, false, None))
}

/// What the nodes announce: each from this number on has one more than its number as its index, the
/// others have none.
fn nodes_of(alloc: Global, graph: &Graph, first: u32) -> Result<Vec<NodeLabels>, Fail>
    ensures { IfOk result (λ list. length list.items ≡ node_count graph.now) }
{
    let mut list = Vec::new(alloc);
    for v in 0..graph.node_count() {
        let index = if v < first { None } else { Some(v + 1) };
        list.push(node(alloc, index)?)?;
    }
    Ok(list)
}

/// The keys of the links.
fn keys_of(alloc: Global, graph: &Graph) -> Result<Vec<LinkKey>, AllocError>
    ensures { IfOk result (λ keys. AreAnnounced graph.now keys.items) }
{
    let mut keys = Vec::new(alloc);
    for link in 0..graph.link_count() as u16 {
        keys.push(graph.link(LinkNo(link)).key)?;
    }
    Ok(keys)
}

/// As often no label as this.
fn no_labels(alloc: Global, count: usize) -> Result<Vec<Option<u32>>, AllocError>
    ensures { IfOk result (λ list. list.items ≡ replicate count None) }
{
    vec![in alloc; None; count]
}

/// The net of the graph, with no adjacency label, where a list may have that many segments. Each node
/// from this number on has one more than its number as its index, the others have none.
pub fn net_with(alloc: Global, graph: Graph, first: u32, depth: u8) -> Result<Net, Fail>
    requires { depth ≤ 12 }
{
    let nodes = nodes_of(alloc, &graph, first)?;
    let adj = no_labels(alloc, graph.link_count() as usize)?;
    let announced = keys_of(alloc, &graph)?;
    match first_clash(alloc, &nodes, &[])? {
        Some(_) => Err(Fail::new("labels clash")),
        None => Ok(Net::new(alloc, graph, nodes, adj, announced, depth)?),
    }
}

/// The net of nodes 1 to this number and the links of the table, where each node has an index and a
/// list may have eight segments.
pub fn net_of(alloc: Global, nodes: u64, table: &[Line]) -> Result<Net, Fail>
    requires { nodes < 256 }
{
    net_with(alloc, graph_of(alloc, nodes, table)?, 0, 8)
}

/// The first version of the net, with its searches counted from nothing.
fn opening<L: Ledger>(
    rt: &(impl Threads + Sync),
    alloc: Global,
    net: Net,
    blank: Blank,
) -> Result<Version, AllocError>
    requires name { blank.name ≡ L.name }
    requires parts { (blank.parts ≡ L.parts) × (0 < L.parts) }
    ensures { IfOk result (λ version. version.net ≡ net) }
{
    let mut steps = Steps::<L>::new(blank);
    Version::opening(rt, alloc, net, &mut steps)
}

/// The first version of the net.
pub fn version_of(
    rt: &(impl Threads + Sync),
    alloc: Global,
    net: Net,
) -> Result<Version, AllocError>
    ensures { IfOk result (λ version. version.net ≡ net) }
{
    opening::<Brand>(rt, alloc, net, Blank::new(1))
}
