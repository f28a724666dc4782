//! Two small nets: a ring of four nodes, and two nodes with two bidirectional links.
ghost use Rattle.std.specs.Prelude.{◌≡◌, ◌<◌, length, map, IfOk};
ghost use Rattle.sr_model.specs.Graph.{node_count};
ghost use Rattle.sr_model.specs.Rule.{AreAnnounced};
ghost use Rattle.sr_graph.specs.Draft.{IsDraft};
ghost use Rattle.sr_line_checks.specs.Drafts.{drafted_in};

use sr_graph::{Draft, DraftLink, Graph};
use sr_labels::{Net, NodeLabels, Srgb, first_clash};
use sr_model::{Ident, LinkKey, LinkNo, Range, SystemId};
use sr_seq::Seq;
use std::alloc::{AllocError, Global};
use std::process::Abort;
use std::test::Fail;

/// The system id of a number of two octets.
pub fn id(value: u64) -> SystemId
    requires { value < 65536 }
    ensures { result ≡ value }
{
    SystemId::new(value).unwrap()
}

/// The name of a link.
fn key(from: u64, to: u64, ident: Ident) -> LinkKey
    requires from { from < 65536 }
    requires to { to < 65536 }
    ensures { result ≡ record { from = from; to = to; ident = ident } }
{
    LinkKey {
        from: id(from),
        to: id(to),
        ident,
    }
}

/// The links of these names, each of metric 1 and in these groups.
fn links_of(alloc: Global, keys: &[LinkKey], groups: &[u32]) -> Result<Vec<DraftLink>, AllocError>
    ensures { IfOk result (λ links. links.items ≡ map (drafted_in groups.now) keys.now) }
{
    let mut links = Vec::new(alloc);
    for key in keys {
        links.push(DraftLink {
            key: *key,
            metric: 1,
            groups: Seq::new(Vec::from_slice(alloc, groups)?),
        })?;
    }
    Ok(links)
}

/// Nodes 1 to 4 in a ring, whose links have no identity and no groups.
fn ring(alloc: Global) -> Result<Draft, AllocError>
    ensures { IfOk result IsDraft }
{
    let nodes = vec![in alloc; id(1), id(2), id(3), id(4)]?;
    let keys = [
        key(1, 2, Ident::None),
        key(1, 4, Ident::None),
        key(2, 1, Ident::None),
        key(2, 3, Ident::None),
        key(3, 2, Ident::None),
        key(3, 4, Ident::None),
        key(4, 1, Ident::None),
        key(4, 3, Ident::None),
    ];
    let links = links_of(alloc, &keys, &[])?;
    Ok(Draft {
        nodes: Seq::new(nodes),
        links: Seq::new(links),
    })
}

/// Nodes 1 and 2, joined by a bidirectional link with addresses and by one with link identifiers, both in groups 3 and 700.
fn pairs(alloc: Global) -> Result<Draft, AllocError>
    ensures { IfOk result IsDraft }
{
    let nodes = vec![in alloc; id(1), id(2)]?;
    let keys = [
        key(1, 2, Ident::Addr(0xc0a8_0001, 0x0a00_00ff)),
        key(2, 1, Ident::Addr(0x0a00_00ff, 0xc0a8_0001)),
        key(1, 2, Ident::Link(4_294_967_295, 0)),
        key(2, 1, Ident::Link(0, 4_294_967_295)),
    ];
    let links = links_of(alloc, &keys, &[3, 700])?;
    Ok(Draft {
        nodes: Seq::new(nodes),
        links: Seq::new(links),
    })
}

/// The graph of the ring.
pub fn ring_graph(alloc: Global) -> Result<Graph, Fail> {
    Ok(Graph::build(alloc, ring(alloc)?)?)
}

/// The graph of the two nodes.
pub fn pairs_graph(alloc: Global) -> Result<Graph, Fail> {
    Ok(Graph::build(alloc, pairs(alloc)?)?)
}

/// What a node announces that has this index, and the labels 16000 to 16099 and 900: the flag P from index 1 on, the flag
/// E from index 2 on, and from index 3 on how many labels it can impose.
fn node(alloc: Global, index: u32) -> Result<NodeLabels, Fail> {
    let ranges = vec![in alloc;
        Range {
            first: 16000,
            size: 100
        },
        Range {
            first: 900,
            size: 1
        },
    ]?;
    let imposes = if index > 2 { Some(10) } else { None };
    Ok(NodeLabels::new(
        Srgb::new(ranges)?,
        Some(index),
        index > 0,
        index > 1,
        imposes,
    ))
}

/// What the nodes announce, each of which has its number as its index.
fn nodes_of(alloc: Global, graph: &Graph) -> Result<Vec<NodeLabels>, Fail>
    ensures { IfOk result (λ list. length list.items ≡ node_count graph.now) }
{
    let mut list = Vec::new(alloc);
    for v in 0..graph.node_count() {
        list.push(node(alloc, v)?)?;
    }
    Ok(list)
}

/// The names of the links.
fn keys_of(alloc: Global, graph: &Graph) -> Result<Vec<LinkKey>, AllocError>
    ensures { IfOk result (λ list. AreAnnounced graph.now list.items) }
{
    let mut list = Vec::new(alloc);
    for l in 0..graph.link_count() as u16 {
        list.push(graph.link(LinkNo(l)).key)?;
    }
    Ok(list)
}

/// The net of the graph, with no adjacency label. An error where labels clash.
pub fn net_of(alloc: Global, graph: Graph) -> Result<Net, Fail> {
    let nodes = nodes_of(alloc, &graph)?;
    match first_clash(alloc, &nodes, &[])? {
        Some(_) => Err(Fail::new("labels clash")),
        None => {
            let adj = vec![in alloc; None; graph.link_count() as usize]?;
            let announced = keys_of(alloc, &graph)?;
            Ok(Net::new(alloc, graph, nodes, adj, announced, 3)?)
        }
    }
}

/// The net of the ring, with no adjacency label.
pub fn ring_net(alloc: Global) -> Result<Net, Fail> {
    net_of(alloc, ring_graph(alloc)?)
}

/// What was printed is this text.
pub fn expect_text(rt: &impl Abort, printed: &[u8], text: &str) {
    assert_eq!(rt; printed, text.as_bytes());
}
