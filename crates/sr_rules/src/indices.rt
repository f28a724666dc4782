//! The rules on the indices of node segments, where nodes may have no SRGB.
ghost use Rattle.std.specs.Prelude.{◌≡◌, ◌<◌, ◌-◌, ◌^◌, min, length, map, IfOk};
ghost use Rattle.sr_model.specs.Label.{sizes};
ghost use Rattle.sr_model.specs.Rule.{node_at};
ghost use Rattle.sr_labels.specs.Indices.{IsFirstWithout};
ghost use Rattle.sr_domain.specs.Nodes.{labels_of, nodes_of, ranges_of};
ghost use Rattle.sr_rules.specs.Broken.{IsFinding};
ghost use Rattle.sr_rules.specs.RuleSurvey.{nodes_with};
ghost use Rattle.sr_rules.specs.Indices.{HaveSameIndices, IsLeastTotal, IsLeastFrom, chosen};

use sr_domain::node_sid;
use sr_labels::{NodeLabels, Srgb, first_clash};
use sr_lsdb::Facts;
use sr_model::{DomainRule, LabelRule, Range, SystemId};
use sr_seq::Seq;
use std::alloc::{AllocError, Global};

/// The index of a node, where it announces one.
fn index_of(facts: &Facts, node: SystemId) -> Option<u32>
    ensures { result ≡ (labels_of facts.now node).index }
{
    match node_sid(facts, node) {
        None => None,
        Some(sid) => Some(sid.index),
    }
}

/// What stands for a node where its index alone matters: the index, with an SRGB of one label.
fn index_alone(alloc: Global, index: Option<u32>) -> Result<NodeLabels, AllocError>
    ensures { IfOk result (λ labels. labels.index ≡ index) }
{
    let mut ranges = Vec::new(alloc);
    ranges.push(Range { first: 16, size: 1 })?;
    match Srgb::new(ranges) {
        Ok(srgb) => Ok(NodeLabels::new(srgb, index, false, false, None)),
        Err(_) => unreachable!(),
    }
}

/// What stands for the nodes where their indices alone matter.
fn all_indices(
    alloc: Global,
    facts: &Facts,
    nodes: &[SystemId],
) -> Result<Vec<NodeLabels>, AllocError>
    ensures { IfOk result (λ v. HaveSameIndices v.items (map (labels_of facts.now) nodes.now)) }
{
    let mut out = Vec::with_capacity(alloc, nodes.len())?;
    for node in nodes {
        let labels = index_alone(alloc, index_of(facts, *node))?;
        out.push(labels)?;
    }
    Ok(out)
}

/// The least index that two nodes announce, if there is one. `first_clash` tells it before any other rule on labels,
/// and it looks at indices alone, so that ranges that are no SRGB don't matter.
pub(crate) fn duplicate_index(
    alloc: Global,
    facts: &Facts,
    nodes: &[SystemId],
) -> Result<Option<DomainRule>, AllocError>
    requires { nodes.now ≡ nodes_of facts.now }
    ensures { IfOk result (IsFinding facts.now 2) }
{
    let labels = all_indices(alloc, facts, nodes)?;
    match first_clash(alloc, &labels, &[])? {
        Some(LabelRule::DuplicateIndex { index, low, high }) => {
            Ok(Some(DomainRule::DuplicateIndex {
                index,
                low: nodes[low],
                high: nodes[high],
            }))
        }
        Some(LabelRule::IndexOutside { .. }) => Ok(None),
        Some(LabelRule::AdjLabelClash { .. }) => Ok(None),
        None => Ok(None),
    }
}

/// How many labels the ranges have, as far as 64 bits count them. Ranges that are no SRGB may have any number.
fn total(ranges: &[Range]) -> u64
    ensures { result ≡ min (sizes ranges.now) (2 ^ 64 - 1) }
{
    let mut total: u64 = 0;
    for range in ranges {
        total = total.saturating_add(range.size as u64);
    }
    total
}

/// How many labels the node at this place has.
fn total_at(ranges: &[Seq<Range>], place: usize) -> u64
    requires { place < length ranges.now }
    ensures { result ≡ min (sizes (node_at (nodes_with ranges.now) place).srgb) (2 ^ 64 - 1) }
{
    total(ranges[place].as_slice())
}

/// The number of labels of the node that has fewest.
fn least_total(ranges: &[Seq<Range>]) -> u64
    ensures { IsLeastTotal (nodes_with ranges.now) result }
{
    let mut least = u64::MAX;
    for place in 0..ranges.len() {
        least = least.min(total_at(ranges, place));
    }
    least
}

/// The first node that has no label for the index, which has 32 bits.
fn first_without(ranges: &[Seq<Range>], index: u32) -> Option<usize>
    ensures bits { index < 2 ^ 32 }
    ensures first { IsFirstWithout (nodes_with ranges.now) index result }
{
    for place in 0..ranges.len() {
        if total_at(ranges, place) <= index as u64 {
            return Some(place);
        }
    }
    None
}

/// What was found, or the lesser of it and this index, where there is one and it is at least so much.
fn first_of_both(least: u64, found: Option<u32>, index: Option<u32>) -> Option<u32>
    ensures { result ≡ chosen least found index }
{
    match index {
        None => found,
        Some(index) => {
            if (index as u64) < least {
                return found;
            }
            match found {
                None => Some(index),
                Some(other) => Some(other.min(index)),
            }
        }
    }
}

/// The least announced index that is at least so much.
fn least_index(facts: &Facts, nodes: &[SystemId], least: u64) -> Option<u32>
    ensures { IsLeastFrom (map (labels_of facts.now) nodes.now) least (length nodes.now) result }
{
    let mut found = None;
    for node in nodes {
        found = first_of_both(least, found, index_of(facts, *node));
    }
    found
}

/// The least announced index that lies outside the ranges of some node (RFC 8660, 2.4), if there is one. An index does
/// where it is at least the number of labels of the node that has fewest.
pub(crate) fn index_outside(
    facts: &Facts,
    nodes: &[SystemId],
    ranges: &[Seq<Range>],
) -> Option<DomainRule>
    requires nodes { nodes.now ≡ nodes_of facts.now }
    requires ranges { ranges.now ≡ map (ranges_of facts.now) (nodes_of facts.now) }
    ensures { IsFinding facts.now 3 result }
{
    match least_index(facts, nodes, least_total(ranges)) {
        None => None,
        Some(index) => match first_without(ranges, index) {
            None => None,
            Some(place) => Some(DomainRule::IndexOutside {
                index,
                node: nodes[place],
            }),
        },
    }
}
