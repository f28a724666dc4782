//! The nodes, links and failures that a line names.
ghost use Rattle.std.specs.Prelude.{◌≡◌, None, Some, MatchOption, MatchResult};
ghost use Rattle.sr_model.specs.Case.{IsAffected, IsCase};
ghost use Rattle.sr_model.specs.Repair.{IsCaseAnswer};
ghost use Rattle.sr_run.specs.Names.{NamesNode, IsLinkOf, IsNamedNode, NoLinkOf, ends_named, missing_link};
ghost use Rattle.sr_run.specs.Handlers.{AreEnds, IsAffectedOf, IsAnnounced, IsFailureOf, IsNamedLink, LacksAffected, LacksAnnounced, LacksEnd, LacksFailure, LacksLink};

use sr_model::{Answer, Case, LinkKey, LinkNo, NodeNo, SystemId};
use sr_print::Refusal;
use sr_repair::Version;
use sr_script::{EndNames, LinkName, RepairName};

/// The node of this system id, or the refusal that names it.
pub(crate) fn find_node(version: &Version, system: SystemId) -> Result<NodeNo, Refusal>
    ensures { MatchResult result
        (λ node. IsNamedNode version.now.net.graph system node.0)
        (λ reason. (NamesNode version.now.net.graph system → ⊥) × (reason ≡ Refusal.NoNode system)) }
{
    match version.net().graph().node(system) {
        Some(node) => Ok(node),
        None => Err(Refusal::NoNode { node: system }),
    }
}

/// The two nodes that a line names.
#[derive(Clone, Copy, Debug)]
pub(crate) struct EndNodes {
    pub(crate) from: NodeNo,
    pub(crate) to: NodeNo,
}

/// The two nodes of these names, or the refusal that names the first that is missing.
pub(crate) fn find_ends(version: &Version, ends: &EndNames) -> Result<EndNodes, Refusal>
    ensures { MatchResult result
        (λ nodes. AreEnds version.now.net ends.now nodes.from.0 nodes.to.0)
        (LacksEnd version.now.net ends.now) }
{
    let from = match find_node(version, ends.from) {
        Ok(from) => from,
        Err(reason) => return Err(reason),
    };
    match find_node(version, ends.to) {
        Ok(to) => Ok(EndNodes { from, to }),
        Err(reason) => Err(reason),
    }
}

/// The ends of a link's name.
fn ends_named(link: &LinkName) -> EndNames
    ensures { result ≡ ends_named link.now }
{
    EndNames {
        from: link.from,
        to: link.to,
    }
}

/// The refusal of a link that isn't there.
fn missing_link(link: &LinkName) -> Refusal
    ensures { result ≡ missing_link link.now }
{
    Refusal::NoLink {
        from: link.from,
        to: link.to,
        n: link.n,
    }
}

/// The key of the announced link of this name, or the refusal that names what is missing: one of its ends, or the link.
pub(crate) fn find_announced(version: &Version, link: &LinkName) -> Result<LinkKey, Refusal>
    ensures { MatchResult result
        (IsAnnounced version.now.net link.now)
        (LacksAnnounced version.now.net link.now) }
{
    match find_ends(version, &ends_named(link)) {
        Ok(_nodes) => {}
        Err(reason) => return Err(reason),
    }
    match version.net().named(link.from, link.to, u64::from(link.n)) {
        Some(key) => Ok(key),
        None => Err(missing_link(link)),
    }
}

/// The link of the net whose key has this name. None exactly where there is none.
fn link_of(version: &Version, link: &LinkName) -> Option<LinkNo>
    ensures { MatchOption result
        (NoLinkOf version.now.net link.now)
        (IsLinkOf version.now.net link.now) }
{
    match version.net().named(link.from, link.to, u64::from(link.n)) {
        Some(key) => version.net().graph().find(&key),
        None => None,
    }
}

/// The link of the net of this name, or the refusal that names what is missing: one of its ends, or the link.
pub(crate) fn find_link(version: &Version, link: &LinkName) -> Result<LinkNo, Refusal>
    ensures { MatchResult result
        (IsNamedLink version.now.net link.now)
        (LacksLink version.now.net link.now) }
{
    match find_ends(version, &ends_named(link)) {
        Ok(_nodes) => {}
        Err(reason) => return Err(reason),
    }
    match link_of(version, link) {
        Some(found) => Ok(found),
        None => Err(missing_link(link)),
    }
}

/// What fails, and the destination that a line asks of.
#[derive(Clone, Copy, Debug)]
pub(crate) struct Failure {
    pub(crate) case: Case,
    pub(crate) destination: NodeNo,
}

/// The failure and the destination of these names, or the refusal that names what is missing: one of the nodes, or the
/// link.
pub(crate) fn find_failure(version: &Version, repair: &RepairName) -> Result<Failure, Refusal>
    ensures { MatchResult result
        (λ failure. IsFailureOf version.now.net repair.now failure.case failure.destination.0)
        (LacksFailure version.now.net repair.now) }
{
    match find_ends(version, &ends_named(&repair.link)) {
        Ok(_nodes) => {}
        Err(reason) => return Err(reason),
    }
    let destination = match find_node(version, repair.dest) {
        Ok(destination) => destination,
        Err(reason) => return Err(reason),
    };
    match link_of(version, &repair.link) {
        Some(link) => Ok(Failure {
            case: Case {
                kind: repair.kind,
                link,
            },
            destination,
        }),
        None => Err(missing_link(&repair.link)),
    }
}

/// The failure and the destination of these names, where it has an index and the failure affects it, or the refusal that
/// names what is missing.
pub(crate) fn find_affected(version: &Version, repair: &RepairName) -> Result<Failure, Refusal>
    ensures { MatchResult result
        (λ failure. IsAffectedOf version.now.net repair.now failure.case failure.destination.0)
        (LacksAffected version.now.net repair.now) }
{
    let failure = match find_failure(version, repair) {
        Ok(failure) => failure,
        Err(reason) => return Err(reason),
    };
    if version.net().labels(failure.destination).index().is_none() {
        return Err(Refusal::NoDestination { node: repair.dest });
    }
    match version.repair(failure.case, failure.destination) {
        Some(_answer) => Ok(failure),
        None => Err(Refusal::NotAffected { node: repair.dest }),
    }
}

/// The answer of a case for a destination that it affects.
pub(crate) fn answer_of(version: &Version, failure: Failure) -> Answer<'_>
    requires case { IsCase version.now.net.graph failure.case }
    requires affected { IsAffected version.now.net failure.case failure.destination.0 }
    ensures { IsCaseAnswer version.now.net failure.case failure.destination.0 result }
{
    match version.repair(failure.case, failure.destination) {
        Some(answer) => answer,
        None => unreachable!(),
    }
}
