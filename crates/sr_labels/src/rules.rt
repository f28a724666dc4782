//! The rules on the labels of all nodes together.
ghost use Rattle.std.specs.Prelude.{◌≡◌, ◌-◌, length, IfOk};
ghost use Rattle.sr_model.specs.declared.label.LabelRule.TheVariants.{DuplicateIndex};
ghost use Rattle.sr_model.specs.Rule.{IsFirstBroken};
ghost use Rattle.sr_labels.specs.Rules.{HaveSrgbs, AreOfNodes};
ghost use Rattle.sr_labels.specs.Indices.{entry_at, IsTwin};

use crate::adjacencies::first_adj_clash;
use crate::indices::{NodeIndex, Outside, first_outside, first_twin, least_size, node_indices};
use crate::node::NodeLabels;
use sr_model::{AdjLabel, LabelRule};
use std::alloc::{AllocError, Global};

/// The rule that the entry at this place and the one before it break.
fn duplicate(list: &[NodeIndex], place: usize) -> LabelRule
    requires { IsTwin list.now place }
    ensures { result ≡ DuplicateIndex (entry_at list.now place).index
        (entry_at list.now (place - 1)).node (entry_at list.now place).node }
{
    LabelRule::DuplicateIndex {
        index: list[place].index,
        low: list[place - 1].node,
        high: list[place].node,
    }
}

/// The first rule on labels that is broken, with the least that breaks it, or none where none is broken. Rules are taken
/// in the order of `LabelRule`. Nodes are places in `nodes`.
pub fn first_clash(
    alloc: Global,
    nodes: &[NodeLabels],
    adj: &[AdjLabel],
) -> Result<Option<LabelRule>, AllocError>
    requires { AreOfNodes (length nodes.now) adj.now }
    ensures first { IfOk result (IsFirstBroken nodes.now adj.now) }
    ensures ranges { IfOk result (λ _. HaveSrgbs nodes.now) }
{
    let list = node_indices(alloc, nodes)?;
    let least = least_size(nodes);
    match first_twin(&list) {
        Some(place) => return Ok(Some(duplicate(&list, place))),
        None => {}
    }
    match first_outside(nodes, &list, least) {
        Some(Outside { index, node }) => return Ok(Some(LabelRule::IndexOutside { index, node })),
        None => {}
    }
    match first_adj_clash(alloc, nodes, adj)? {
        Some(AdjLabel { node, label }) => Ok(Some(LabelRule::AdjLabelClash { label, node })),
        None => Ok(None),
    }
}
