//! The rule on adjacency labels, where nodes may have no SRGB.
ghost use Rattle.std.specs.Prelude.{◌<◌, ◌↔◌, length, IsTrue, MatchOption};
ghost use Rattle.sr_model.specs.Rule.{NoAdjClash, IsLeastClash};
ghost use Rattle.sr_laws.specs.Labels.{IsInRanges};
ghost use Rattle.sr_labels.specs.Rules.{AreOfNodes};
ghost use Rattle.sr_labels.specs.Adjacencies.{AreInOrder, IsTakenLabel};
ghost use Rattle.sr_rules.specs.Broken.{IsFinding};
ghost use Rattle.sr_rules.specs.RuleSurvey.{AreSurveyed, nodes_with};

use crate::survey::RuleSurvey;
use sr_labels::{FIRST_FREE, is_repeated};
use sr_lsdb::Facts;
use sr_model::{AdjLabel, DomainRule, Range};
use sr_seq::Seq;

/// Whether the label lies in some of the ranges.
fn is_in(ranges: &[Range], label: u32) -> bool
    ensures { IsTrue result ↔ IsInRanges ranges.now label }
{
    for range in ranges {
        if label >= range.first && label - range.first < range.size {
            return true;
        }
    }
    false
}

/// Whether the label is reserved, or in the ranges of its node.
fn is_taken(ranges: &[Seq<Range>], this: AdjLabel) -> bool
    requires { this.node < length ranges.now }
    ensures { IsTrue result ↔ IsTakenLabel (nodes_with ranges.now) this }
{
    this.label < FIRST_FREE || is_in(ranges[this.node].as_slice(), this.label)
}

/// The first of the labels in order that breaks the rule.
fn first_in_order(ranges: &[Seq<Range>], list: &[AdjLabel]) -> Option<AdjLabel>
    requires nodes { AreOfNodes (length ranges.now) list.now }
    requires order { AreInOrder list.now }
    ensures { MatchOption result (NoAdjClash (nodes_with ranges.now) list.now)
        (IsLeastClash (nodes_with ranges.now) list.now) }
{
    for place in 0..list.len() {
        let this = list[place];
        if is_taken(ranges, this) || is_repeated(list, place) {
            return Some(this);
        }
    }
    None
}

/// The least adjacency label, by node and then by number, that is reserved, in the ranges of its node, or that of two
/// links of its node, if there is one (this project's rule).
pub(crate) fn adj_label_clash(facts: &Facts, survey: &RuleSurvey) -> Option<DomainRule>
    requires { AreSurveyed facts.now survey.now }
    ensures { IsFinding facts.now 4 result }
{
    match first_in_order(&survey.ranges, &survey.adj) {
        None => None,
        Some(AdjLabel { node, label }) => Some(DomainRule::AdjLabelClash {
            label,
            node: survey.nodes[node],
        }),
    }
}
