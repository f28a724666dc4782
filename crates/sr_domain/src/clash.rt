//! The rules on the labels of all nodes together.
ghost use Rattle.std.specs.Prelude.{◌≡◌, ◌<◌, length, All, Contains, IfOk, IfErr};
ghost use Rattle.std.specs.List.{filter_map};
ghost use Rattle.std.specs.List.Sorted.{IsStrictlyIncreasing};
ghost use Rattle.sr_labels.specs.Rules.{AreOfNodes, HaveSrgbs};
ghost use Rattle.sr_domain.specs.Links.{place_in, adj_label_by, JoinsNodes};
ghost use Rattle.sr_domain.specs.Rules.{AreKept, IsDomainFault};
ghost use Rattle.sr_domain.specs.Steps.{AreLabelled};
ghost use Rattle.sr_domain.specs.Named.{ArePlacesWithin, Names};

use crate::fault::DomainFault;
use crate::links::FoundLink;
use sr_labels::{NodeLabels, first_clash};
use sr_lsdb::Facts;
use sr_model::{AdjLabel, DomainRule, LabelRule, SystemId};
use std::alloc::{AllocError, Global};

/// The place of a node that there is.
fn place_of(nodes: &[SystemId], node: SystemId) -> usize
    requires ascending { IsStrictlyIncreasing nodes.now }
    requires there { Contains nodes.now node }
    ensures place { result ≡ place_in nodes.now node }
    ensures within { result < length nodes.now }
{
    match nodes.binary_search(&node) {
        Ok(at) => at,
        Err(_) => 0,
    }
}

/// The place of a node that there is. It is sought only where it isn't `near`.
fn place_near(nodes: &[SystemId], near: usize, node: SystemId) -> usize
    requires ascending { IsStrictlyIncreasing nodes.now }
    requires there { Contains nodes.now node }
    ensures place { result ≡ place_in nodes.now node }
    ensures within { result < length nodes.now }
{
    if near < nodes.len() && nodes[near] == node {
        near
    } else {
        place_of(nodes, node)
    }
}

/// The adjacency labels of the links, each with the place of its node.
pub fn adj_labels(
    alloc: Global,
    nodes: &[SystemId],
    links: &[FoundLink],
) -> Result<Vec<AdjLabel>, AllocError>
    requires ascending { IsStrictlyIncreasing nodes.now }
    requires ends { All (JoinsNodes nodes.now) links.now }
    ensures labels { IfOk result (λ v. v.items ≡ filter_map (adj_label_by nodes.now) links.now) }
    ensures nodes { IfOk result (λ v. AreOfNodes (length nodes.now) v.items) }
{
    let mut out = Vec::with_capacity(alloc, links.len())?;
    // A node's announcements stand together, so that most links begin where the link before begins.
    let mut near = 0;
    for link in links {
        match link.label {
            None => {}
            Some(label) => {
                near = place_near(nodes, near, link.key.from);
                out.push(AdjLabel { node: near, label })?;
            }
        }
    }
    Ok(out)
}

/// The rule on labels with the nodes' system ids in place of their places.
fn with_system_ids(nodes: &[SystemId], rule: LabelRule) -> DomainRule
    requires { ArePlacesWithin (length nodes.now) rule }
    ensures { Names nodes.now rule result }
{
    match rule {
        LabelRule::DuplicateIndex { index, low, high } => DomainRule::DuplicateIndex {
            index,
            low: nodes[low],
            high: nodes[high],
        },
        LabelRule::IndexOutside { index, node } => DomainRule::IndexOutside {
            index,
            node: nodes[node],
        },
        LabelRule::AdjLabelClash { label, node } => DomainRule::AdjLabelClash {
            label,
            node: nodes[node],
        },
    }
}

/// Refuses the first broken rule on labels.
pub(crate) fn check_labels(
    alloc: Global,
    facts: &Facts,
    nodes: &[SystemId],
    labels: &[NodeLabels],
    links: &[FoundLink],
) -> Result<(), DomainFault>
    requires { AreLabelled facts.now nodes.now labels.now links.now }
    ensures kept { IfOk result (λ _. AreKept facts.now 5) }
    ensures ranges { IfOk result (λ _. HaveSrgbs labels.now) }
    ensures fault { IfErr result (IsDomainFault facts.now) }
{
    let adj = adj_labels(alloc, nodes, links)?;
    let broken = first_clash(alloc, labels, &adj)?;
    match broken {
        None => Ok(()),
        Some(rule) => Err(DomainFault::Rule(with_system_ids(nodes, rule))),
    }
}
