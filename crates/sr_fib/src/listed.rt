//! The nodes and links of a net that have a segment, listed in order of index and of label.
ghost use Rattle.std.specs.Prelude.{◌<◌, IfOk};
ghost use Rattle.sr_model.specs.Graph.{node_count};
ghost use Rattle.sr_fib.specs.Sorted.{AscendByIndex, AscendByLabel, HaveOwnIndices, HaveOwnLabels};
ghost use Rattle.sr_fib.specs.Tables.{AreIndices, AreAdjacencies};

use crate::sorted::{IndexedNode, LabelledLink, by_index, by_label};
use sr_graph::LinkRange;
use sr_labels::Net;
use sr_model::{LinkNo, NodeNo};
use std::alloc::{AllocError, Global};

/// The nodes that have an index, in order of node.
fn indexed(alloc: Global, net: &Net) -> Result<Vec<IndexedNode>, AllocError>
    ensures nodes { IfOk result (λ list. AreIndices net.now list.items) }
    ensures own { IfOk result (λ list. HaveOwnIndices list.items) }
{
    let count = net.graph().node_count();
    let mut list = Vec::with_capacity(alloc, count as usize)?;
    for place in 0..count {
        let node = NodeNo(place as u16);
        match net.labels(node).index() {
            None => {}
            Some(index) => list.push(IndexedNode { index, node })?,
        }
    }
    Ok(list)
}

/// The nodes that have an index, in order of index.
pub(crate) fn indices(alloc: Global, net: &Net) -> Result<Vec<IndexedNode>, AllocError>
    ensures nodes { IfOk result (λ list. AreIndices net.now list.items) }
    ensures order { IfOk result (λ list. AscendByIndex list.items) }
{
    let list = indexed(alloc, net)?;
    Ok(by_index(list))
}

/// The links of the node that have an adjacency label, in order of link.
fn labelled(alloc: Global, net: &Net, node: NodeNo) -> Result<Vec<LabelledLink>, AllocError>
    requires { node.0 < node_count net.now.graph }
    ensures links { IfOk result (λ list. AreAdjacencies net.now node.0 list.items) }
    ensures own { IfOk result (λ list. HaveOwnLabels list.items) }
{
    let LinkRange { first, end } = net.graph().links_from(node);
    let mut list = Vec::with_capacity(alloc, (end - first) as usize)?;
    for place in first..end {
        let link = LinkNo(place);
        match net.adj(link) {
            None => {}
            Some(label) => list.push(LabelledLink { label, link })?,
        }
    }
    Ok(list)
}

/// The links of the node that have an adjacency label, in order of label.
pub(crate) fn adjacencies(
    alloc: Global,
    net: &Net,
    node: NodeNo,
) -> Result<Vec<LabelledLink>, AllocError>
    requires { node.0 < node_count net.now.graph }
    ensures links { IfOk result (λ list. AreAdjacencies net.now node.0 list.items) }
    ensures order { IfOk result (λ list. AscendByLabel list.items) }
{
    let list = labelled(alloc, net, node)?;
    Ok(by_label(list))
}
