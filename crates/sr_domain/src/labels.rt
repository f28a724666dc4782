//! What the nodes announce, and the rules on it.
ghost use Rattle.std.specs.Prelude.{◌≡◌, map, IfOk, IfErr};
ghost use Rattle.std.specs.List.Sorted.{IsStrictlyIncreasing};
ghost use Rattle.sr_domain.specs.Nodes.{nodes_of, ranges_of, node_sid_of, imposition_of, labels_with, labels_of as labels_in};
ghost use Rattle.sr_domain.specs.Rules.{AreKept, IsDomainFault};
ghost use Rattle.sr_domain.specs.Steps.{HaveRanges};

use crate::fault::DomainFault;
use crate::nodes::{imposition, node_sid, srgb_of};
use sr_labels::{NodeLabels, Srgb};
use sr_lsdb::Facts;
use sr_model::{DomainRule, Range, SystemId};
use sr_seq::Seq;
use std::alloc::{AllocError, Global};

/// The label ranges of each node. The first node without them is refused.
fn all_ranges(
    alloc: Global,
    facts: &Facts,
    nodes: &[SystemId],
) -> Result<Vec<Seq<Range>>, DomainFault>
    requires nodes { nodes.now ≡ nodes_of facts.now }
    requires ascending { IsStrictlyIncreasing nodes.now }
    ensures ranges { IfOk result (λ v. v.items ≡ map (ranges_of facts.now) nodes.now) }
    ensures kept { IfOk result (λ _. AreKept facts.now 1) }
    ensures fault { IfErr result (IsDomainFault facts.now) }
{
    let mut out = Vec::new(alloc);
    for node in nodes {
        match srgb_of(alloc, facts, *node) {
            Err(fault) => return Err(DomainFault::Memory(fault)),
            Ok(None) => return Err(DomainFault::Rule(DomainRule::NoSrgb { node: *node })),
            Ok(Some(ranges)) => match out.push(Seq::new(ranges)) {
                Ok(()) => {}
                Err(_) => return Err(DomainFault::Memory(AllocError)),
            },
        }
    }
    Ok(out)
}

/// What the node announces, with this SRGB.
fn announced_labels(facts: &Facts, node: SystemId, srgb: Srgb) -> NodeLabels
    ensures { result ≡ labels_with srgb (node_sid_of facts.now node) (imposition_of facts.now node) }
{
    let imposes = imposition(facts, node);
    match node_sid(facts, node) {
        None => NodeLabels::new(srgb, None, false, false, imposes),
        Some(sid) => NodeLabels::new(srgb, Some(sid.index), sid.keep, sid.explicit, imposes),
    }
}

/// What each node announces, by its label ranges. The first node whose ranges are no SRGB is refused.
fn with_ranges(
    alloc: Global,
    facts: &Facts,
    nodes: &[SystemId],
    ranges: Vec<Seq<Range>>,
) -> Result<Vec<NodeLabels>, DomainFault>
    requires { HaveRanges facts.now nodes.now ranges.items }
    ensures labels { IfOk result (λ v. v.items ≡ map (labels_in facts.now) nodes.now) }
    ensures kept { IfOk result (λ _. AreKept facts.now 2) }
    ensures fault { IfErr result (IsDomainFault facts.now) }
{
    let mut out = Vec::new(alloc);
    for ranges in ranges {
        let node = nodes[out.len()];
        match Srgb::new(ranges.into_vec()) {
            Err(_) => return Err(DomainFault::Rule(DomainRule::SrgbBad { node })),
            Ok(srgb) => match out.push(announced_labels(facts, node, srgb)) {
                Ok(()) => {}
                Err(_) => return Err(DomainFault::Memory(AllocError)),
            },
        }
    }
    Ok(out)
}

/// What the nodes announce. The first node without label ranges is refused, then the first whose ranges are no SRGB.
pub(crate) fn node_labels(
    alloc: Global,
    facts: &Facts,
    nodes: &[SystemId],
) -> Result<Vec<NodeLabels>, DomainFault>
    requires nodes { nodes.now ≡ nodes_of facts.now }
    requires ascending { IsStrictlyIncreasing nodes.now }
    ensures labels { IfOk result (λ v. v.items ≡ map (labels_in facts.now) nodes.now) }
    ensures kept { IfOk result (λ _. AreKept facts.now 2) }
    ensures fault { IfErr result (IsDomainFault facts.now) }
{
    let ranges = all_ranges(alloc, facts, nodes)?;
    with_ranges(alloc, facts, nodes, ranges)
}
