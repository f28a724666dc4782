//! The pass over a case: what stays from the version before, or else its searches, one for distances and one for lists,
//! where in a link case the first is mostly spared; and the passes over all cases, in threads.
ghost use Rattle.std.specs.Prelude.{◌≡◌, ◌*◌, ◌<◌, ◌≤◌, IfOk, MatchOption, option_map};
ghost use Rattle.sr_model.specs.declared.case.Kind.TheVariants.{Link as LinkKind};
ghost use Rattle.sr_model.specs.declared.link.TheConstants.{MOST_LINKS as MostLinks};
ghost use Rattle.sr_model.specs.Graph.{link_count};
ghost use Rattle.sr_post.specs.Bypass.{node_case};
ghost use Rattle.sr_post.specs.Marks.{IsRowAfter};
ghost use Rattle.std.specs.Arc.{arc_value};
ghost use Rattle.sr_model.specs.Case.{IsCase};
ghost use Rattle.sr_graph.specs.Failed.{FailsAsLink};
ghost use Rattle.sr_spf.specs.Trees.{AreTrees};
ghost use Rattle.sr_post.specs.Post.{IsPost};
ghost use Rattle.sr_encode.specs.Answered.{AreAffected};
ghost use Rattle.sr_repair.specs.Answers.{case_count, cells_told, in_slots, AffectsSome, AreOfLink, IsPassed, AreAllPassed};
ghost use Rattle.sr_repair.specs.Former.{IsSearched};
ghost use Rattle.sr_repair.specs.Solutions.{IsSolution};
ghost use Rattle.sr_repair.specs.KnownCase.{IsKnownCase};

use crate::known_case::KnownCase;
use crate::row::CaseRow;
use crate::setting::Setting;
use crate::solved::Solved;
use sr_encode::lists;
use sr_labels::Net;
use sr_lanes::NodeBits;
use sr_model::{Case, Kind, LinkNo};
use sr_post::{Post, affected_set, post, post_of_link};
use sr_spf::{Searched, Steps, Trees};
use sr_threads::{Share, made_of_each};
use std::alloc::{AllocError, Global};
use std::marker::Brand;
use std::sync::Arc;
use std::sync::ledger::{Blank, Ledger};
use std::thread::Threads;

/// How links are shared among threads, each with its three cases. They differ in cost, and the threads end with the last of
/// them.
const LINKS: Share = Share {
    at_once: 3,
    worth: 6,
};

/// What the pass over a case gives.
#[derive(Drop)]
pub(crate) enum Passed {
    /// Nothing, since the case affects no destination.
    Nothing,
    /// That its answers are those of the link case.
    AsLink,
    /// What is known of it from the version before, since it stays.
    Stays(KnownCase),
    /// What is computed for a link case from the distances that the failure of the link's end leaves, without a search for
    /// distances.
    Told(Arc<Solved>),
    /// What is computed for it, and that one search for distances was counted.
    Listed(Arc<Solved>, Searched),
}

/// What the passes over the cases of a link give.
#[derive(Drop)]
pub(crate) struct LinkPasses {
    pub(crate) link: Passed,
    pub(crate) node: Passed,
    pub(crate) risk: Passed,
}

/// The distances that the case leaves, as they are kept.
fn case_row(
    alloc: Global,
    net: &Net,
    trees: &Trees,
    post: &Post,
    case: Case,
) -> Result<CaseRow, AllocError>
    requires trees { AreTrees net.now.graph trees.now }
    requires case { IsCase net.now.graph case }
    requires post { IsPost net.now case post.now }
    ensures { IfOk result (λ row. row ≡ post.now.cells) }
{
    let source = net.graph().edge(case.link).from;
    CaseRow::new(alloc, trees.held_cells(source)?, post.cells())
}

/// What is computed for the case, whose affected destinations these are, from what it leaves.
fn solved_by(
    alloc: Global,
    net: &Net,
    trees: &Trees,
    post: &Post,
    case: Case,
    wanted: NodeBits,
) -> Result<Arc<Solved>, AllocError>
    requires trees { AreTrees net.now.graph trees.now }
    requires case { IsCase net.now.graph case }
    requires post { IsPost net.now case post.now }
    requires wanted { AreAffected net.now case wanted }
    ensures { IfOk result (λ made. IsSolution net.now case (arc_value made)) }
{
    let listed = lists(alloc, net, trees, post, case, wanted)?;
    let cells = case_row(alloc, net, trees, post, case)?;
    Solved::new(alloc, cells, listed)
}

/// What is computed for the case, whose affected destinations these are, counted from nothing: by one search for
/// distances.
fn solved_from<L: Ledger>(
    alloc: Global,
    net: &Net,
    trees: &Trees,
    case: Case,
    wanted: NodeBits,
    blank: Blank,
) -> Result<(Arc<Solved>, Searched), AllocError>
    requires blank { (blank.name ≡ L.name) × (blank.parts ≡ L.parts) × (0 < L.parts) }
    requires trees { AreTrees net.now.graph trees.now }
    requires case { IsCase net.now.graph case }
    requires wanted { AreAffected net.now case wanted }
    ensures { IfOk result (λ made. IsSolution net.now case (arc_value made.0)) }
{
    let mut steps = Steps::<L>::new(blank);
    let post = post(alloc, net, trees, case, &mut steps)?;
    let solved = solved_by(alloc, net, trees, &post, case, wanted)?;
    Ok((solved, steps.give_up()))
}

/// What is computed for the case, whose affected destinations these are, by searches.
fn searched(
    alloc: Global,
    net: &Net,
    trees: &Trees,
    case: Case,
    wanted: NodeBits,
) -> Result<(Arc<Solved>, Searched), AllocError>
    requires trees { AreTrees net.now.graph trees.now }
    requires case { IsCase net.now.graph case }
    requires wanted { AreAffected net.now case wanted }
    ensures { IfOk result (λ made. IsSolution net.now case (arc_value made.0)) }
{
    solved_from::<Brand>(alloc, net, trees, case, wanted, Blank::new(1))
}

/// The destinations that the case affects, if there are any. In many domains half of the cases affect none.
fn some_affected(setting: &Setting<'_>, case: Case) -> Option<NodeBits>
    requires { IsCase setting.now.net.graph case }
    ensures { MatchOption result
        (AffectsSome setting.now.net case → ⊥)
        (λ wanted. AffectsSome setting.now.net case × AreAffected setting.now.net case wanted) }
{
    let _graph = setting.net.graph();
    let wanted = affected_set(setting.net, setting.trees, case);
    match wanted.first() {
        None => None,
        Some(_) => Some(wanted),
    }
}

/// What the pass over the case gives, which doesn't stay where it affects some destination.
fn listed(alloc: Global, setting: &Setting<'_>, case: Case) -> Result<Passed, AllocError>
    requires case { IsCase setting.now.net.graph case }
    requires searched { IsSearched setting.now.former setting.now.net case }
    ensures { IfOk result (IsPassed setting.now.former setting.now.net case) }
{
    let Some(wanted) = some_affected(setting, case) else {
        return Ok(Passed::Nothing);
    };
    let (solved, searched) = searched(alloc, setting.net, setting.trees, case, wanted)?;
    Ok(Passed::Listed(solved, searched))
}

/// What is told of the link case, which doesn't stay where it affects some destination, from the distances that the failure
/// of the link's end leaves.
fn told(
    alloc: Global,
    setting: &Setting<'_>,
    case: Case,
    around: &[u64],
) -> Result<Passed, AllocError>
    requires case { IsCase setting.now.net.graph case × (case.kind ≡ LinkKind) }
    requires around { IsRowAfter setting.now.net.graph (node_case case) around.now }
    ensures { IfOk result (IsPassed setting.now.former setting.now.net case) }
{
    let Some(wanted) = some_affected(setting, case) else {
        return Ok(Passed::Nothing);
    };
    let net = setting.net;
    let post = post_of_link(alloc, net, setting.trees, case, around)?;
    let solved = solved_by(alloc, net, setting.trees, &post, case, wanted)?;
    Ok(Passed::Told(solved))
}

/// The distances that the failure of the link's end leaves, if the pass over that case, which is given, tells them.
fn around(alloc: Global, node: &Passed) -> Result<Option<Vec<u64>>, AllocError>
    ensures { IfOk result (λ cells. option_map (λ v. v.items) cells ≡ cells_told node.now) }
{
    match node {
        Passed::Nothing => Ok(None),
        Passed::AsLink => Ok(None),
        Passed::Stays(known) => Ok(Some(known.solved.cells(alloc)?)),
        Passed::Told(solved) => Ok(Some(solved.cells(alloc)?)),
        Passed::Listed(solved, _) => Ok(Some(solved.cells(alloc)?)),
    }
}

/// What is known of the case from the version before, if there is one from which the case stays.
fn kept_known(
    alloc: Global,
    setting: &Setting<'_>,
    case: Case,
) -> Result<Option<KnownCase>, AllocError>
    requires case { IsCase setting.now.net.graph case }
    requires own { FailsAsLink setting.now.net.graph case → ⊥ }
    ensures { IfOk result (λ found. MatchOption found
        (IsSearched setting.now.former setting.now.net case)
        (IsKnownCase setting.now.net case)) }
{
    match &setting.former {
        None => Ok(None),
        Some(former) => former.known(alloc, case),
    }
}

/// What the pass over the case gives.
fn pass(alloc: Global, setting: &Setting<'_>, case: Case) -> Result<Passed, AllocError>
    requires case { IsCase setting.now.net.graph case }
    ensures { IfOk result (IsPassed setting.now.former setting.now.net case) }
{
    // Most SRLG cases do, since few links share a group.
    if setting.net.graph().fails_as_link(case) {
        return Ok(Passed::AsLink);
    }
    match kept_known(alloc, setting, case)? {
        Some(known) => Ok(Passed::Stays(known)),
        None => listed(alloc, setting, case),
    }
}

/// What the pass over the link case gives, after that over the node case of the same link.
fn pass_link(
    alloc: Global,
    setting: &Setting<'_>,
    case: Case,
    node: &Passed,
) -> Result<Passed, AllocError>
    requires case { IsCase setting.now.net.graph case × (case.kind ≡ LinkKind) }
    requires node { IsPassed setting.now.former setting.now.net (node_case case) node.now }
    ensures { IfOk result (IsPassed setting.now.former setting.now.net case) }
{
    match kept_known(alloc, setting, case)? {
        Some(kept) => Ok(Passed::Stays(kept)),
        None => match around(alloc, node)? {
            None => listed(alloc, setting, case),
            Some(cells) => told(alloc, setting, case, &cells),
        },
    }
}

/// What the passes over the cases of the link give.
fn pass_all(alloc: Global, setting: &Setting<'_>, link: LinkNo) -> Result<LinkPasses, AllocError>
    requires { link.0 < link_count setting.now.net.graph }
    ensures { IfOk result (AreOfLink setting.now.former setting.now.net link.0) }
{
    let kind = Kind::Node;
    let node = pass(alloc, setting, Case { kind, link })?;
    let kind = Kind::Link;
    let own = pass_link(alloc, setting, Case { kind, link }, &node)?;
    let kind = Kind::Risk;
    let risk = pass(alloc, setting, Case { kind, link })?;
    Ok(LinkPasses {
        link: own,
        node,
        risk,
    })
}

/// What was given for the cases of each link, in order of slot.
fn in_slots(alloc: Global, all: Vec<LinkPasses>) -> Result<Vec<Passed>, AllocError>
    ensures { IfOk result (λ passed. passed.items ≡ in_slots all.items) }
{
    let mut passed = Vec::with_capacity(alloc, 3 * all.len())?;
    for one in all {
        let LinkPasses { link, node, risk } = one;
        passed.push(link)?;
        passed.push(node)?;
        passed.push(risk)?;
    }
    Ok(passed)
}

/// What the pass over each case gives, in order of slot. The links are split among threads where there are any.
pub(crate) fn all_passed(
    rt: &(impl Threads + Sync),
    alloc: Global,
    setting: &Setting<'_>,
) -> Result<Vec<Passed>, AllocError>
    ensures { IfOk result (λ passed.
        AreAllPassed setting.now.former setting.now.net (case_count setting.now.net.graph) passed.items) }
{
    let passed = |link: u32| -> Result<LinkPasses, AllocError>
        requires few { link_count setting.now.net.graph ≤ MostLinks }
        requires link { link < link_count setting.now.net.graph }
        ensures { IfOk result (AreOfLink setting.entry.now.former setting.entry.now.net link) }
    { pass_all(alloc, setting, LinkNo(link as u16)) };
    let all = made_of_each(rt, alloc, setting.net.graph().link_count(), LINKS, &passed)?;
    in_slots(alloc, all)
}
