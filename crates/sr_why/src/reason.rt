//! Why a case has no repair for a destination.
ghost use Rattle.std.specs.Prelude.{ℕ, ◌+◌, ◌<◌, ◌≤◌, IfOk, MatchOption};
ghost use Rattle.sr_model.specs.declared.repair.Answer.TheVariants.{NoPath as NoPathLeft, NoList as NoListSound, TooDeep as ListTooDeep};
ghost use Rattle.sr_model.specs.Case.{IsAffected, IsCase};
ghost use Rattle.sr_model.specs.Graph.{node_count};
ghost use Rattle.sr_model.specs.Repair.{IsCaseAnswer};
ghost use Rattle.sr_why.specs.Reasons.{IsReason};

use crate::labelled::labelled_net;
use crate::listed::least_list;
use crate::reached::reached_count;
use crate::whole::{WholeList, whole_list};
use sr_model::{Answer, Case, NodeNo};
use sr_post::post;
use sr_repair::Version;
use sr_spf::Steps;
use std::alloc::{AllocError, Global};
use std::sync::ledger::Ledger;

/// Why a case has no repair for a destination, or that it has one.
#[derive(Debug, Drop)]
pub enum Cause {
    /// There is a repair.
    Covered,
    /// The failure leaves no way to the destination; that many other nodes but the source are still reached.
    NoPath { reached: u32 },
    /// A way is left, but no list is sound. This one would be the least if each node had an index and each link a label.
    NoList(WholeList),
    /// The least list has more segments than the node may push.
    TooDeep(WholeList),
}

/// What is told where no walk is left: how many nodes are still reached.
fn without_path<L: Ledger>(
    alloc: Global,
    version: &Version,
    case: Case,
    destination: NodeNo,
    steps: &mut Steps<L>,
) -> Result<Cause, AllocError>
    requires case { IsCase version.now.net.graph case }
    requires answer { IsCaseAnswer version.now.net case destination.0 NoPathLeft }
    ensures reason { IfOk result (IsReason version.now.net case destination.0) }
    ensures searches { (steps.old ≤ steps.new) × (steps.new ≤ steps.old + 1) }
{
    let net = version.net();
    let left = post(alloc, net, version.trees(), case, steps)?;
    let source = net.graph().edge(case.link).from;
    Ok(Cause::NoPath {
        reached: reached_count(left.cells(), source),
    })
}

/// What is told where no list is sound: the list that would be the least if no index and no label were lacking.
fn without_list<L: Ledger>(
    alloc: Global,
    version: &Version,
    case: Case,
    destination: NodeNo,
    steps: &mut Steps<L>,
) -> Result<Cause, AllocError>
    requires case { IsCase version.now.net.graph case }
    requires destination { destination.0 < node_count version.now.net.graph }
    requires answer { IsAffected version.now.net case destination.0
        × IsCaseAnswer version.now.net case destination.0 NoListSound }
    ensures reason { IfOk result (IsReason version.now.net case destination.0) }
    ensures searches { (steps.old ≤ steps.new) × (steps.new ≤ steps.old + 1) }
{
    let trees = version.trees();
    let left = post(alloc, version.net(), trees, case, steps)?;
    let labelled = labelled_net(alloc, version.net())?;
    let list = least_list(alloc, &labelled, trees, &left, case, destination)?;
    Ok(Cause::NoList(list))
}

/// What is told where the least list is too deep: that list, which the version keeps.
fn too_deep(
    alloc: Global,
    version: &Version,
    case: Case,
    destination: NodeNo,
) -> Result<Cause, AllocError>
    requires case { IsCase version.now.net.graph case }
    requires destination { destination.0 < node_count version.now.net.graph }
    requires answer { IsAffected version.now.net case destination.0
        × ((k : ℕ) × IsCaseAnswer version.now.net case destination.0 (ListTooDeep k)) }
    ensures { IfOk result (IsReason version.now.net case destination.0) }
{
    let listed = version.listed(case, destination).unwrap();
    let list = whole_list(alloc, listed)?;
    Ok(Cause::TooDeep(list))
}

/// The reason of the answer. A search is counted where there is no path and where there is no list.
fn reason_of<L: Ledger>(
    alloc: Global,
    version: &Version,
    case: Case,
    destination: NodeNo,
    answer: Answer<'_>,
    steps: &mut Steps<L>,
) -> Result<Cause, AllocError>
    requires case { IsCase version.now.net.graph case }
    requires destination { destination.0 < node_count version.now.net.graph }
    requires answer { IsAffected version.now.net case destination.0
        × IsCaseAnswer version.now.net case destination.0 answer }
    ensures reason { IfOk result (IsReason version.now.net case destination.0) }
    ensures searches { (steps.old ≤ steps.new) × (steps.new ≤ steps.old + 1) }
{
    match answer {
        Answer::Least(_) => Ok(Cause::Covered),
        Answer::NoPath => without_path(alloc, version, case, destination, steps),
        Answer::NoList => without_list(alloc, version, case, destination, steps),
        Answer::TooDeep { .. } => too_deep(alloc, version, case, destination),
    }
}

/// Why the case has no repair for the destination, or that it has one (this project's rule). None exactly where the
/// destination isn't affected. At most one search is counted.
pub fn why<L: Ledger>(
    alloc: Global,
    version: &Version,
    case: Case,
    destination: NodeNo,
    steps: &mut Steps<L>,
) -> Result<Option<Cause>, AllocError>
    requires case { IsCase version.now.net.graph case }
    requires destination { destination.0 < node_count version.now.net.graph }
    ensures reason { IfOk result (λ found. MatchOption found
        (IsAffected version.now.net case destination.0 → ⊥)
        (λ reason. IsAffected version.now.net case destination.0
        × IsReason version.now.net case destination.0 reason)) }
    ensures most { steps.new ≤ steps.old + 1 }
    ensures least { steps.old ≤ steps.new }
{
    match version.repair(case, destination) {
        Some(answer) => Ok(Some(reason_of(alloc, version, case, destination, answer, steps)?)),
        None => Ok(None),
    }
}
