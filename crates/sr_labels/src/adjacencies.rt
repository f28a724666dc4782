//! The rule on adjacency labels.
ghost use Rattle.std.specs.Prelude.{◌<◌, ◌↔◌, length, IsPermutation, IsTrue, IfOk, MatchOption};
ghost use Rattle.sr_model.specs.Rule.{NoAdjClash, IsLeastClash};
ghost use Rattle.sr_labels.specs.Rules.{AreOfNodes};
ghost use Rattle.sr_labels.specs.Adjacencies.{AreInOrder, IsTakenLabel, IsRepeated};

use crate::node::NodeLabels;
use crate::srgb::FIRST_FREE;
use sr_model::AdjLabel;
use std::alloc::{AllocError, Global};

/// Whether the label is reserved, or in the ranges of its node.
fn is_taken(nodes: &[NodeLabels], this: AdjLabel) -> bool
    requires { this.node < length nodes.now }
    ensures { IsTrue result ↔ IsTakenLabel nodes.now this }
{
    if this.label < FIRST_FREE {
        return true;
    }
    match nodes[this.node].srgb().index(this.label) {
        Some(_) => true,
        None => false,
    }
}

/// Whether the label at the next place is the same, and of the same node.
pub fn is_repeated(list: &[AdjLabel], place: usize) -> bool
    requires { place < length list.now }
    ensures { IsTrue result ↔ IsRepeated list.now place }
{
    place + 1 < list.len()
        && list[place + 1].node == list[place].node
        && list[place + 1].label == list[place].label
}

/// The same labels in order of node and then of label.
pub fn sort_labels(mut list: Vec<AdjLabel>) -> Vec<AdjLabel>
    ensures same { IsPermutation list.items result.items }
    ensures order { AreInOrder result.items }
{
    list.sort_unstable_by_key(|this| (this.node, this.label));
    list
}

/// The first of the labels in order that breaks its rule.
fn first_in_order(nodes: &[NodeLabels], list: &[AdjLabel]) -> Option<AdjLabel>
    requires nodes { AreOfNodes (length nodes.now) list.now }
    requires order { AreInOrder list.now }
    ensures { MatchOption result (NoAdjClash nodes.now list.now) (IsLeastClash nodes.now list.now) }
{
    for place in 0..list.len() {
        let this = list[place];
        if is_taken(nodes, this) || is_repeated(list, place) {
            return Some(this);
        }
    }
    None
}

/// The least label, by node and then by number, that is reserved, in the ranges of its node, or that of two links of its
/// node.
pub(crate) fn first_adj_clash(
    alloc: Global,
    nodes: &[NodeLabels],
    adj: &[AdjLabel],
) -> Result<Option<AdjLabel>, AllocError>
    requires { AreOfNodes (length nodes.now) adj.now }
    ensures { IfOk result (λ found. MatchOption found (NoAdjClash nodes.now adj.now) (IsLeastClash nodes.now adj.now)) }
{
    let copy = adj.to_vec(alloc)?;
    let list = sort_labels(copy);
    Ok(first_in_order(nodes, &list))
}
