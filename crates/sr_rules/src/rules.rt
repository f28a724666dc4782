//! All rules of the profile that facts break.
ghost use Rattle.std.specs.Prelude.{◌<◌, IfOk};
ghost use Rattle.sr_lsdb.specs.Facts.{AreInRange};
ghost use Rattle.sr_rules.specs.Broken.{AreBrokenRules, IsFinding};
ghost use Rattle.sr_rules.specs.RuleSurvey.{AreSurveyed};

use crate::adjacencies::adj_label_clash;
use crate::indices::{duplicate_index, index_outside};
use crate::links::{duplicate_link, many_links, many_nodes, zero_metric};
use crate::srgbs::{no_srgb, srgb_bad};
use crate::survey::{RuleSurvey, rule_survey};
use sr_lsdb::Facts;
use sr_model::DomainRule;
use std::alloc::{AllocError, Global};

/// How many rules there are.
const RULES: usize = 9;

/// What breaks the rule that has that many before it, whether or not these are kept.
fn rule_verdict(
    alloc: Global,
    facts: &Facts,
    survey: &RuleSurvey,
    before: usize,
) -> Result<Option<DomainRule>, AllocError>
    requires survey { AreSurveyed facts.now survey.now }
    requires rule { before < 9 }
    ensures { IfOk result (IsFinding facts.now before) }
{
    match before {
        0 => no_srgb(alloc, facts, &survey.nodes),
        1 => srgb_bad(alloc, facts, &survey.nodes),
        2 => duplicate_index(alloc, facts, &survey.nodes),
        3 => Ok(index_outside(facts, &survey.nodes, &survey.ranges)),
        4 => Ok(adj_label_clash(facts, survey)),
        5 => Ok(zero_metric(facts, &survey.links)),
        6 => Ok(duplicate_link(facts, &survey.links)),
        7 => Ok(many_nodes(facts, &survey.nodes)),
        _ => Ok(many_links(facts, &survey.links)),
    }
}

/// All rules of the profile that the facts break, in order, each with the least that breaks it. Fails only out of
/// memory.
pub fn broken_rules(alloc: Global, facts: &Facts) -> Result<Vec<DomainRule>, AllocError>
    requires { AreInRange facts.now }
    ensures { IfOk result (λ rules. AreBrokenRules facts.now rules.items) }
{
    let survey = rule_survey(alloc, facts)?;
    let mut rules = Vec::new(alloc);
    for before in 0..RULES {
        match rule_verdict(alloc, facts, &survey, before)? {
            None => {}
            Some(rule) => rules.push(rule)?,
        }
    }
    Ok(rules)
}
