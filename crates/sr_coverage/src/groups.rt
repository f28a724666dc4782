//! Items in groups, counted.
ghost use Rattle.std.specs.Prelude.{◌≡◌, ◌<◌, ◌^◌, [], length, IfOk, IsPermutation};
ghost use Rattle.sr_model.specs.Audit.{IsAudit};
ghost use Rattle.sr_model.specs.Case.{IsCase};
ghost use Rattle.sr_insight.specs.Groups.{group_of, group_count, AreGroups};
ghost use Rattle.sr_coverage.specs.Counting.{CanCountMore, with_answer, AreInGroups, AreCounted, AreGroupsInOrder};

use sr_graph::Graph;
use sr_insight::{Group, Grouping};
use sr_labels::Net;
use sr_model::{Answer, Counts, Item, Kind};
use std::alloc::{AllocError, Global};

/// The number of the item's group.
fn group_number(graph: &Graph, grouping: Grouping, item: &Item<'_>) -> u32
    requires { IsCase graph.now item.now.case }
    ensures { result ≡ group_of grouping graph.now item.now }
{
    match grouping {
        Grouping::Kind => match item.case.kind {
            Kind::Link => 0,
            Kind::Node => 1,
            Kind::Risk => 2,
        },
        Grouping::Node => u32::from(graph.edge(item.case.link).from.0),
        Grouping::Link => u32::from(item.case.link.0),
        Grouping::Destination => u32::from(item.dest.0),
    }
}

/// How many groups there are.
fn group_count(graph: &Graph, grouping: Grouping) -> u32
    ensures { result ≡ group_count grouping graph.now }
{
    match grouping {
        Grouping::Kind => 3,
        Grouping::Node => graph.node_count(),
        Grouping::Link => graph.link_count(),
        Grouping::Destination => graph.node_count(),
    }
}

/// All groups in order of number, with nothing counted.
fn empty_groups(alloc: Global, graph: &Graph, grouping: Grouping) -> Result<Vec<Group>, AllocError>
    ensures { IfOk result (λ groups. AreCounted grouping graph.now [] groups.items) }
{
    let count = group_count(graph, grouping);
    let mut groups = Vec::with_capacity(alloc, count as usize)?;
    for number in 0..count {
        groups.push(Group {
            number,
            counts: Counts {
                covered: 0,
                nopath: 0,
                nolist: 0,
                toodeep: 0,
            },
        })?;
    }
    Ok(groups)
}

/// The counts with one answer more.
fn with_answer(counts: Counts, answer: &Answer<'_>) -> Counts
    requires { CanCountMore counts }
    ensures { result ≡ with_answer counts answer.now }
{
    let mut more = counts;
    match answer {
        Answer::Least(_) => more.covered += 1,
        Answer::NoPath => more.nopath += 1,
        Answer::NoList => more.nolist += 1,
        Answer::TooDeep { .. } => more.toodeep += 1,
    }
    more
}

/// Counts the items, each in its group.
fn count_items(graph: &Graph, grouping: Grouping, items: &[Item<'_>], groups: &mut Vec<Group>)
    requires within { AreInGroups grouping graph.now items.now }
    requires few { length items.now < 2 ^ 32 }
    requires empty { AreCounted grouping graph.now [] groups.old.items }
    ensures { AreCounted grouping graph.now items.now groups.new.items }
{
    for item in items {
        let place = group_number(graph, grouping, item) as usize;
        groups[place].counts = with_answer(groups[place].counts, &item.answer);
    }
}

/// The groups in order of coverage and then of number.
fn sorted(mut groups: Vec<Group>) -> Vec<Group>
    ensures same { IsPermutation groups.items result.items }
    ensures order { AreGroupsInOrder result.items }
{
    groups.sort_unstable_by_key(|group| (group.coverage(), group.number));
    groups
}

/// The groups of these items, which are an audit of the net, the least covered first.
pub(crate) fn audit_groups(
    alloc: Global,
    net: &Net,
    grouping: Grouping,
    items: &[Item<'_>],
) -> Result<Vec<Group>, AllocError>
    requires audit { IsAudit net.now items.now }
    requires few { length items.now < 2 ^ 32 }
    ensures { IfOk result (λ groups. AreGroups grouping net.now.graph items.now groups.items) }
{
    let graph = net.graph();
    let mut groups = empty_groups(alloc, graph, grouping)?;
    count_items(graph, grouping, items, &mut groups);
    Ok(sorted(groups))
}
