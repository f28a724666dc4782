//! The rules on the indices of node segments.
ghost use Rattle.std.specs.Prelude.{◌≡◌, ◌<◌, None, length, IfOk, MatchOption};
ghost use Rattle.sr_model.specs.Label.{sizes, IsSrgb};
ghost use Rattle.sr_model.specs.Rule.{node_at, NoOutside, IsLeastOutside};
ghost use Rattle.sr_labels.specs.declared.indices.Outside.{Outside as Found};
ghost use Rattle.sr_labels.specs.Rules.{HaveSrgbs};
ghost use Rattle.sr_labels.specs.Indices.{AreByNode, AreByIndex, NoTwins, IsFirstTwin, AreAtLeast, IsFirstWithout};

use crate::node::NodeLabels;
use std::alloc::{AllocError, Global};

/// The index of a node's segment, with the place of the node.
#[derive(Clone, Copy, PartialEq, Eq, PartialOrd, Ord)]
pub(crate) struct NodeIndex {
    pub(crate) index: u32,
    pub(crate) node: usize,
}

/// An index that lies outside the ranges of a node, with the place of the node.
#[derive(Clone, Copy)]
pub(crate) struct Outside {
    pub(crate) index: u32,
    pub(crate) node: usize,
}

/// The index of the node at this place.
fn index_at(nodes: &[NodeLabels], node: usize) -> Option<u32>
    requires { node < length nodes.now }
    ensures { result ≡ (node_at nodes.now node).index }
{
    nodes[node].index()
}

/// The indices that the nodes announce, in order of node.
fn announced(alloc: Global, nodes: &[NodeLabels]) -> Result<Vec<NodeIndex>, AllocError>
    ensures { IfOk result (λ list. AreByNode nodes.now list.items) }
{
    let mut list = Vec::new(alloc);
    for node in 0..nodes.len() {
        match index_at(nodes, node) {
            None => {}
            Some(index) => list.push(NodeIndex { index, node })?,
        }
    }
    Ok(list)
}

/// The indices that the nodes announce, in order of index and then of node.
pub(crate) fn node_indices(
    alloc: Global,
    nodes: &[NodeLabels],
) -> Result<Vec<NodeIndex>, AllocError>
    ensures { IfOk result (λ list. AreByIndex nodes.now list.items) }
{
    let mut list = announced(alloc, nodes)?;
    list.sort_unstable();
    Ok(list)
}

/// The second place of the first two neighbours with one index.
pub(crate) fn first_twin(list: &[NodeIndex]) -> Option<usize>
    ensures { MatchOption result (NoTwins list.now) (IsFirstTwin list.now) }
{
    for place in 1..list.len() {
        if list[place].index == list[place - 1].index {
            return Some(place);
        }
    }
    None
}

/// How many labels the node at this place has.
fn size_at(nodes: &[NodeLabels], node: usize) -> u32
    requires { node < length nodes.now }
    ensures size { result ≡ sizes (node_at nodes.now node).srgb }
    ensures good { IsSrgb (node_at nodes.now node).srgb }
{
    nodes[node].srgb().size()
}

/// No more than the number of labels of any node.
pub(crate) fn least_size(nodes: &[NodeLabels]) -> u32
    ensures srgbs { HaveSrgbs nodes.now }
    ensures least { AreAtLeast nodes.now result }
{
    let mut least = u32::MAX;
    for node in 0..nodes.len() {
        let size = size_at(nodes, node);
        if size < least {
            least = size;
        }
    }
    least
}

/// The first node that has no label for the index.
fn first_without(nodes: &[NodeLabels], index: u32) -> Option<usize>
    ensures { IsFirstWithout nodes.now index result }
{
    for node in 0..nodes.len() {
        if size_at(nodes, node) <= index {
            return Some(node);
        }
    }
    None
}

/// The least index that lies outside the ranges of some node, with the least such node.
pub(crate) fn first_outside(nodes: &[NodeLabels], list: &[NodeIndex], least: u32) -> Option<Outside>
    requires list { AreByIndex nodes.now list.now }
    requires least { AreAtLeast nodes.now least }
    ensures { MatchOption result (NoOutside nodes.now)
        (λ (found : Found). IsLeastOutside nodes.now found.index found.node) }
{
    for entry in list {
        let index = entry.index;
        if index >= least {
            match first_without(nodes, index) {
                None => {}
                Some(node) => return Some(Outside { index, node }),
            }
        }
    }
    None
}
