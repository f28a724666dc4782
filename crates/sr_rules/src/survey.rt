//! What is at hand of the facts before their rules are tested.
ghost use Rattle.std.specs.Prelude.{◌≡◌, map, IfOk};
ghost use Rattle.sr_lsdb.specs.Facts.{AreInRange};
ghost use Rattle.sr_domain.specs.Nodes.{ranges_of};
ghost use Rattle.sr_rules.specs.RuleSurvey.{AreSurveyed};

use sr_domain::{FoundLink, Gathered, adj_labels, gather_facts, sort_links, srgb_of};
use sr_labels::sort_labels;
use sr_lsdb::Facts;
use sr_model::{AdjLabel, Range, SystemId};
use sr_seq::Seq;
use std::alloc::{AllocError, Global};

/// The present nodes, the label ranges of each, the adjacency labels in order of node and then of label, and the links
/// in order of key.
#[derive(Drop)]
pub(crate) struct RuleSurvey {
    pub nodes: Vec<SystemId>,
    pub ranges: Vec<Seq<Range>>,
    pub adj: Vec<AdjLabel>,
    pub links: Vec<FoundLink>,
}

/// A copy of the label ranges of a node, which may be no SRGB. A node that announces none has none.
fn ranges_of(alloc: Global, facts: &Facts, node: SystemId) -> Result<Vec<Range>, AllocError>
    ensures { IfOk result (λ v. v.items ≡ ranges_of facts.now node) }
{
    match srgb_of(alloc, facts, node)? {
        Some(ranges) => Ok(ranges),
        None => Ok(Vec::new(alloc)),
    }
}

/// The label ranges of each node.
fn all_ranges(
    alloc: Global,
    facts: &Facts,
    nodes: &[SystemId],
) -> Result<Vec<Seq<Range>>, AllocError>
    ensures { IfOk result (λ v. v.items ≡ map (ranges_of facts.now) nodes.now) }
{
    let mut out = Vec::with_capacity(alloc, nodes.len())?;
    for node in nodes {
        let ranges = ranges_of(alloc, facts, *node)?;
        out.push(Seq::new(ranges))?;
    }
    Ok(out)
}

/// What is at hand of the facts.
pub(crate) fn rule_survey(alloc: Global, facts: &Facts) -> Result<RuleSurvey, AllocError>
    requires { AreInRange facts.now }
    ensures { IfOk result (AreSurveyed facts.now) }
{
    let Gathered {
        announced: _,
        two_way: _,
        nodes,
        mut links,
    } = gather_facts(alloc, facts)?;
    let adj = sort_labels(adj_labels(alloc, &nodes, &links)?);
    sort_links(&mut links);
    let ranges = all_ranges(alloc, facts, &nodes)?;
    Ok(RuleSurvey {
        nodes,
        ranges,
        adj,
        links,
    })
}
