//! The labels of an answer.
ghost use Rattle.std.specs.Prelude.{◌≡◌, ◌<◌, ◌∷◌, [], true, reverse, is_some, IfOk, MatchOption};
ghost use Rattle.sr_model.specs.Graph.{node_count, link_count};
ghost use Rattle.sr_model.specs.Label.{labels_at, IsLabel};
ghost use Rattle.sr_model.specs.Case.{IsCase, IsAffected};
ghost use Rattle.sr_model.specs.Repair.{IsCaseAnswer};
ghost use Rattle.sr_model.specs.Forward.{Crossing, IsStack};
ghost use Rattle.sr_model.specs.Audit.{AreLabelsOf};
ghost use Rattle.sr_repair.specs.Delivery.{DeliverWhereListed};
ghost use Rattle.sr_repair.specs.Stack.{CanLabel, HaveLabels, IsSegmentLabel, goes_to, HasNoList, IsStackOf};

use sr_labels::Net;
use sr_model::{Answer, Case, LinkNo, NodeNo, Segment};
use std::alloc::{AllocError, Global};

/// The label of node `end` at node `at` (RFC 8660, 2.4). It is there, since each index lies in the ranges of each node.
pub fn node_label(net: &Net, at: NodeNo, end: NodeNo) -> u32
    requires at { at.0 < node_count net.now.graph }
    requires end { end.0 < node_count net.now.graph }
    requires index { is_some (labels_at net.now end.0).index ≡ true }
    ensures { IsLabel net.now at.0 end.0 result }
{
    match net.labels(end).index() {
        None => unreachable!(),
        Some(index) => match net.labels(at).srgb().label(index) {
            None => unreachable!(),
            Some(label) => label,
        },
    }
}

/// The label of a segment that becomes active at node `at`.
pub fn segment_label(net: &Net, at: NodeNo, segment: Segment) -> u32
    requires at { at.0 < node_count net.now.graph }
    requires label { CanLabel net.now segment }
    ensures { IsSegmentLabel net.now at.0 segment result }
{
    match segment {
        Segment::Node(node) => node_label(net, at, node),
        Segment::Adj(link) => match net.adj(link) {
            None => unreachable!(),
            Some(label) => label,
        },
    }
}

/// The node that a segment leads to.
pub fn segment_end(net: &Net, segment: Segment) -> NodeNo
    requires { CanLabel net.now segment }
    ensures end { result.0 ≡ goes_to net.now segment }
    ensures within { result.0 < node_count net.now.graph }
{
    match segment {
        Segment::Node(node) => node,
        Segment::Adj(link) => net.graph().link(link).to,
    }
}

/// The label that is left when a link into node `at` is crossed under d's node segment, if one is (RFC 8660, 2.10;
/// RFC 8667, 2.1.1).
pub fn label_left(net: &Net, at: NodeNo, d: NodeNo) -> Option<u32>
    requires at { at.0 < node_count net.now.graph }
    requires d { d.0 < node_count net.now.graph }
    requires index { is_some (labels_at net.now d.0).index ≡ true }
    ensures { MatchOption result
        (Crossing net.now d.0 at.0 [] [])
        (λ label. Crossing net.now d.0 at.0 [] (label ∷ [])) }
{
    if at.0 == d.0 {
        if !net.labels(d).keep() {
            return None;
        }
        if net.labels(d).explicit() {
            return Some(0);
        }
    }
    Some(node_label(net, at, d))
}

/// The labels of a list with no segment towards d, the first link of which leads to node `at`.
fn bare_stack(alloc: Global, net: &Net, at: NodeNo, d: NodeNo) -> Result<Vec<u32>, AllocError>
    requires at { at.0 < node_count net.now.graph }
    requires d { d.0 < node_count net.now.graph }
    requires index { is_some (labels_at net.now d.0).index ≡ true }
    ensures { IfOk result (λ labels. Crossing net.now d.0 at.0 [] (reverse labels.items)) }
{
    let mut labels = Vec::new(alloc);
    match label_left(net, at, d) {
        None => Ok(labels),
        Some(label) => {
            labels.push(label)?;
            Ok(labels)
        }
    }
}

/// The labels of a list towards d on its first link, the top last.
fn stack(
    alloc: Global,
    net: &Net,
    first: LinkNo,
    segments: &[Segment],
    d: NodeNo,
) -> Result<Vec<u32>, AllocError>
    requires first { first.0 < link_count net.now.graph }
    requires segments { HaveLabels net.now segments.now }
    requires d { d.0 < node_count net.now.graph }
    requires index { is_some (labels_at net.now d.0).index ≡ true }
    ensures { IfOk result (λ labels. IsStack net.now d.0 first.0 segments.now (reverse labels.items)) }
{
    let mut at = net.graph().link(first).to;
    if segments.is_empty() {
        return bare_stack(alloc, net, at, d);
    }
    let mut labels = Vec::with_capacity(alloc, segments.len())?;
    for segment in segments {
        labels.push(segment_label(net, at, *segment))?;
        at = segment_end(net, *segment);
    }
    labels.push(node_label(net, at, d))?;
    // They were put from the top down.
    labels.reverse();
    Ok(labels)
}

/// The labels of an answer on its first link, the top last; none where the answer isn't a list. Those of a list deliver.
pub fn labels_of(
    alloc: Global,
    net: &Net,
    case: Case,
    destination: NodeNo,
    answer: &Answer,
) -> Result<Vec<u32>, AllocError>
    requires case { IsCase net.now.graph case }
    requires affected { IsAffected net.now case destination.0 }
    requires answer { IsCaseAnswer net.now case destination.0 answer.now }
    ensures labels { IfOk result (λ labels. AreLabelsOf net.now destination.0 answer.now labels.items) }
    ensures delivers { IfOk result (λ labels. DeliverWhereListed net.now case destination.0 answer.now labels.items) }
{
    let _graph = net.graph();
    match answer {
        Answer::Least(list) => stack(alloc, net, list.first, list.segments.list(), destination),
        Answer::NoPath | Answer::NoList | Answer::TooDeep { .. } => Ok(Vec::new(alloc)),
    }
}

/// The labels of an answer on its first link, the top last: they deliver. None exactly where the answer isn't a list.
pub(crate) fn list_labels(
    alloc: Global,
    net: &Net,
    case: Case,
    destination: NodeNo,
    answer: &Answer,
) -> Result<Option<Vec<u32>>, AllocError>
    requires case { IsCase net.now.graph case }
    requires affected { IsAffected net.now case destination.0 }
    requires answer { IsCaseAnswer net.now case destination.0 answer.now }
    ensures { IfOk result
        (λ found. MatchOption found
        (HasNoList net.now case destination.0)
        (λ labels. IsStackOf net.now case destination.0 labels.items)) }
{
    match answer {
        Answer::Least(_) => Ok(Some(labels_of(alloc, net, case, destination, answer)?)),
        Answer::NoPath | Answer::NoList | Answer::TooDeep { .. } => Ok(None),
    }
}
