//! The rules on links, and on how many nodes and links there are.
ghost use Rattle.std.specs.Prelude.{◌≡◌, IsPermutation, MatchOption};
ghost use Rattle.std.specs.List.Sorted.{IsSortedByKey};
ghost use Rattle.sr_model.specs.KeyOrder.{key_cmp};
ghost use Rattle.sr_graph.specs.Draft.{IsLeastKey};
ghost use Rattle.sr_domain.specs.Nodes.{nodes_of};
ghost use Rattle.sr_domain.specs.Links.{link_key, links_of};
ghost use Rattle.sr_domain.specs.Rules.{HasZeroMetric, IsKeyRepeated, NoKey};
ghost use Rattle.sr_rules.specs.Broken.{IsFinding};

use sr_domain::FoundLink;
use sr_lsdb::Facts;
use sr_model::{DomainRule, LinkKey, MOST_LINKS, MOST_NODES, SystemId};
use std::cmp::Ordering;

/// The first key of a link of metric 0.
fn first_zero(links: &[FoundLink]) -> Option<LinkKey>
    requires { IsSortedByKey link_key key_cmp links.now }
    ensures { MatchOption result (NoKey (HasZeroMetric links.now)) (IsLeastKey (HasZeroMetric links.now)) }
{
    for link in links {
        if link.metric == 0 {
            return Some(link.key);
        }
    }
    None
}

/// The first key that two of the links have.
fn first_repeated(links: &[FoundLink]) -> Option<LinkKey>
    requires { IsSortedByKey link_key key_cmp links.now }
    ensures { MatchOption result (NoKey (IsKeyRepeated links.now)) (IsLeastKey (IsKeyRepeated links.now)) }
{
    for i in 1..links.len() {
        match links[i - 1].key.cmp(&links[i].key) {
            Ordering::Less => {}
            _ => return Some(links[i].key),
        }
    }
    None
}

/// The least ends of a link of metric 0, if there is one (this project's rule).
pub(crate) fn zero_metric(facts: &Facts, links: &[FoundLink]) -> Option<DomainRule>
    requires same { IsPermutation (links_of facts.now) links.now }
    requires sorted { IsSortedByKey link_key key_cmp links.now }
    ensures { IsFinding facts.now 5 result }
{
    match first_zero(links) {
        None => None,
        Some(key) => Some(DomainRule::ZeroMetric {
            from: key.from,
            to: key.to,
        }),
    }
}

/// The least ends of two links of one key, if there are such (this project's rule).
pub(crate) fn duplicate_link(facts: &Facts, links: &[FoundLink]) -> Option<DomainRule>
    requires same { IsPermutation (links_of facts.now) links.now }
    requires sorted { IsSortedByKey link_key key_cmp links.now }
    ensures { IsFinding facts.now 6 result }
{
    match first_repeated(links) {
        None => None,
        Some(key) => Some(DomainRule::DuplicateLink {
            from: key.from,
            to: key.to,
        }),
    }
}

/// How many nodes there are, if there are more than a net may have (this project's rule).
pub(crate) fn many_nodes(facts: &Facts, nodes: &[SystemId]) -> Option<DomainRule>
    requires { nodes.now ≡ nodes_of facts.now }
    ensures { IsFinding facts.now 7 result }
{
    if nodes.len() > MOST_NODES {
        Some(DomainRule::TooManyNodes {
            count: nodes.len() as u64,
        })
    } else {
        None
    }
}

/// How many links there are, if there are more than a net may have (this project's rule).
pub(crate) fn many_links(facts: &Facts, links: &[FoundLink]) -> Option<DomainRule>
    requires { IsPermutation (links_of facts.now) links.now }
    ensures { IsFinding facts.now 8 result }
{
    if links.len() > MOST_LINKS {
        Some(DomainRule::TooManyLinks {
            count: links.len() as u64,
        })
    } else {
        None
    }
}
