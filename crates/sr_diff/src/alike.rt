//! Whether two repairs are made in the same way, by names.
ghost use Rattle.std.specs.Prelude.{◌≡◌, ◌↔◌, ◌<◌, IsTrue};
ghost use Rattle.sr_model.specs.Audit.{IsItem};
ghost use Rattle.sr_model.specs.Case.{key_at};
ghost use Rattle.sr_model.specs.Graph.{link_count};
ghost use Rattle.sr_repair.specs.Stack.{CanLabel, HaveLabels};
ghost use Rattle.sr_diff.specs.Named.{segment_name, segment_names, repair_of};
ghost use Rattle.sr_diff.specs.Matched.{IsListOf, IsNamedAlike};

use sr_graph::Graph;
use sr_labels::Net;
use sr_model::{Answer, Item, LinkNo, RepairList, Segment};

/// Whether the links have one key.
fn same_link(old: &Graph, link: LinkNo, new: &Graph, other: LinkNo) -> bool
    requires link { link.0 < link_count old.now }
    requires other { other.0 < link_count new.now }
    ensures { IsTrue result ↔ (key_at old.now link.0 ≡ key_at new.now other.0) }
{
    old.link(link).key == new.link(other).key
}

/// Whether the segments are the same by names.
fn same_segment(old: &Net, segment: Segment, new: &Net, other: Segment) -> bool
    requires segment { CanLabel old.now segment }
    requires other { CanLabel new.now other }
    ensures { IsTrue result ↔ (segment_name old.now.graph segment ≡ segment_name new.now.graph other) }
{
    match segment {
        Segment::Node(node) => match other {
            Segment::Node(there) => old.graph().system(node) == new.graph().system(there),
            Segment::Adj(_) => false,
        },
        Segment::Adj(link) => match other {
            Segment::Node(_) => false,
            Segment::Adj(there) => same_link(old.graph(), link, new.graph(), there),
        },
    }
}

/// Whether the segments are the same by names, one by one.
fn same_segments(old: &Net, segments: &[Segment], new: &Net, others: &[Segment]) -> bool
    requires segments { HaveLabels old.now segments.now }
    requires others { HaveLabels new.now others.now }
    ensures { IsTrue result
        ↔ (segment_names old.now.graph segments.now ≡ segment_names new.now.graph others.now) }
{
    if segments.len() != others.len() {
        return false;
    }
    for k in 0..segments.len() {
        if !same_segment(old, segments[k], new, others[k]) {
            return false;
        }
    }
    true
}

/// Whether the lists have the same first link, segments and cost, by names.
fn same_list(old: &Net, list: &RepairList<'_>, new: &Net, other: &RepairList<'_>) -> bool
    requires list { IsListOf old.now list.now }
    requires other { IsListOf new.now other.now }
    ensures { IsTrue result ↔ IsNamedAlike old.now.graph new.now.graph list.now other.now }
{
    list.cost == other.cost
        && same_link(old.graph(), list.first, new.graph(), other.first)
        && same_segments(old, list.segments.list(), new, other.segments.list())
}

/// Whether the items have the same repair, or neither has one.
pub(crate) fn same_repair(old: &Net, before: &Item<'_>, new: &Net, after: &Item<'_>) -> bool
    requires before { IsItem old.now before.now }
    requires after { IsItem new.now after.now }
    ensures { IsTrue result ↔ (repair_of old.now before.now ≡ repair_of new.now after.now) }
{
    match &before.answer {
        Answer::Least(list) => match &after.answer {
            Answer::Least(other) => {
                before.labels.as_slice() == after.labels.as_slice()
                    && same_list(old, list, new, other)
            }
            Answer::NoPath | Answer::NoList | Answer::TooDeep { .. } => false,
        },
        Answer::NoPath | Answer::NoList | Answer::TooDeep { .. } => match &after.answer {
            Answer::Least(_) => false,
            Answer::NoPath | Answer::NoList | Answer::TooDeep { .. } => true,
        },
    }
}
