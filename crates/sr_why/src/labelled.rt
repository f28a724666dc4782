//! The net as if no index and no label were lacking.
ghost use Rattle.std.specs.Prelude.{◌≡◌, ◌<◌, ◌≤◌, [], ◌∷◌, IfOk};
ghost use Rattle.sr_model.specs.declared.link.TheConstants.{MOST_LINKS as MostLinks};
ghost use Rattle.sr_why.specs.Labelled.{IsLabelled};
ghost use Rattle.sr_why.specs.Whole.{whole_range, AreWholeLinks, AreWholeNodes};

use crate::keys::link_keys;
use sr_labels::{FIRST_FREE, Net, NodeLabels, Range, Srgb};
use std::alloc::{AllocError, Global};

/// The SRGB that has a label for each of that many nodes.
fn whole_srgb(alloc: Global, count: u32) -> Result<Srgb, AllocError>
    requires some { 0 < count }
    requires few { count ≤ 256 }
    ensures { IfOk result (λ srgb. srgb ≡ whole_range count ∷ []) }
{
    let range = Range {
        first: FIRST_FREE,
        size: count,
    };
    let ranges = vec![in alloc; range]?;
    Ok(Srgb::new(ranges).unwrap())
}

/// What that many nodes announce: each has its number as its index.
fn whole_nodes(alloc: Global, count: u32) -> Result<Vec<NodeLabels>, AllocError>
    requires { count ≤ 256 }
    ensures { IfOk result (λ nodes. AreWholeNodes count count nodes.items) }
{
    let mut nodes = Vec::with_capacity(alloc, count as usize)?;
    for node in 0..count {
        let srgb = whole_srgb(alloc, count)?;
        nodes.push(NodeLabels::new(srgb, Some(node), false, false, None))?;
    }
    Ok(nodes)
}

/// The labels of that many links, behind those of the nodes.
fn whole_links(alloc: Global, nodes: u32, links: u32) -> Result<Vec<Option<u32>>, AllocError>
    requires nodes { nodes ≤ 256 }
    requires links { links ≤ MostLinks }
    ensures { IfOk result (λ adj. AreWholeLinks nodes links adj.items) }
{
    let mut adj = Vec::with_capacity(alloc, links as usize)?;
    for link in 0..links {
        adj.push(Some(FIRST_FREE + nodes + link))?;
    }
    Ok(adj)
}

/// The net as if each node had an index and each link a label.
pub(crate) fn labelled_net(alloc: Global, net: &Net) -> Result<Net, AllocError>
    ensures { IfOk result (IsLabelled net.now) }
{
    let graph = net.graph();
    let nodes = whole_nodes(alloc, graph.node_count())?;
    let adj = whole_links(alloc, graph.node_count(), graph.link_count())?;
    let keys = link_keys(alloc, graph)?;
    let copy = graph.copied(alloc)?;
    Net::new(alloc, copy, nodes, adj, keys, net.depth())
}
