//! The order of a draft's links, and the reasons to refuse a draft that it shows.
ghost use Rattle.std.specs.Prelude.{IsPermutation, MatchOption};
ghost use Rattle.sr_graph.specs.Draft.{AreSorted, HasZero, IsTwice, IsLeastKey, NoZero, NoneTwice, IsAcceptedDraft, IsRefusal};

use crate::draft::DraftLink;
use crate::fault::GraphFault;
use sr_model::{LinkKey, MOST_LINKS, MOST_NODES, SystemId};
use std::cmp::Ordering;

/// Sorts the links by key.
pub(crate) fn sort(links: &mut [DraftLink])
    ensures same { IsPermutation links.old links.new }
    ensures sorted { AreSorted links.new }
{
    links.sort_unstable_by_key(|link| link.key);
}

/// The first key of a link of metric 0.
fn first_zero(links: &[DraftLink]) -> Option<LinkKey>
    requires { AreSorted links.now }
    ensures { MatchOption result (NoZero links.now) (IsLeastKey (HasZero links.now)) }
{
    for link in links {
        if link.metric == 0 {
            return Some(link.key);
        }
    }
    None
}

/// The first key that two of the links have.
fn first_duplicate(links: &[DraftLink]) -> Option<LinkKey>
    requires { AreSorted links.now }
    ensures { MatchOption result (NoneTwice links.now) (IsLeastKey (IsTwice links.now)) }
{
    for i in 1..links.len() {
        match links[i - 1].key.cmp(&links[i].key) {
            Ordering::Less => {}
            _ => return Some(links[i].key),
        }
    }
    None
}

/// The first reason to refuse these nodes and sorted links.
pub(crate) fn refusal(systems: &[SystemId], links: &[DraftLink]) -> Option<GraphFault>
    requires { AreSorted links.now }
    ensures { MatchOption result (IsAcceptedDraft systems.now links.now) (IsRefusal systems.now links.now) }
{
    if let Some(key) = first_zero(links) {
        return Some(GraphFault::ZeroMetric {
            from: key.from,
            to: key.to,
        });
    }
    if let Some(key) = first_duplicate(links) {
        return Some(GraphFault::DuplicateLink {
            from: key.from,
            to: key.to,
        });
    }
    if systems.len() > MOST_NODES {
        return Some(GraphFault::TooManyNodes {
            count: systems.len() as u64,
        });
    }
    if links.len() > MOST_LINKS {
        return Some(GraphFault::TooManyLinks {
            count: links.len() as u64,
        });
    }
    None
}
