//! Questions about failures in the last version: `spaces` and `repair`.
ghost use Rattle.std.specs.Prelude.{◌<◌, IfOk};
ghost use Rattle.sr_model.specs.Graph.{node_count};
ghost use Rattle.sr_model.specs.Case.{IsCase};
ghost use Rattle.sr_run.specs.Session.{TellsOf};
ghost use Rattle.sr_run.specs.Failures.{AreCaseSpaces, TellsRepair, TellsSpaces};
ghost use Rattle.sr_run.specs.Handlers.{Carries};

use crate::kept::{KeptVersion, last_version};
use crate::names::{Failure, answer_of, find_affected, find_failure};
use crate::stop::{Stop, found};
use sr_print::{put_repair, put_spaces};
use sr_repair::{Version, labels_of};
use sr_script::RepairName;
use sr_spaces::{NodeSet, extended_p, p_row, q_set};
use std::alloc::{AllocError, Global};

/// P and extended P of the source of a case, and Q of a destination.
#[derive(Drop)]
struct SpaceSets {
    p: NodeSet,
    extended: NodeSet,
    q: NodeSet,
}

/// The spaces of the case and the destination.
fn space_sets(alloc: Global, version: &Version, failure: Failure) -> Result<SpaceSets, AllocError>
    requires case { IsCase version.now.net.graph failure.case }
    requires destination { failure.destination.0 < node_count version.now.net.graph }
    ensures { IfOk result (λ sets.
        AreCaseSpaces version.now.net.graph failure.case failure.destination.0 sets.p sets.extended sets.q) }
{
    let graph = version.net().graph();
    let trees = version.trees();
    let failed = graph.failed(alloc, failure.case)?;
    let source = graph.link(failure.case.link).from;
    Ok(SpaceSets {
        p: p_row(alloc, graph, trees, source, &failed)?,
        extended: extended_p(alloc, graph, trees, source, &failed)?,
        q: q_set(alloc, graph, trees, failure.destination, &failed)?,
    })
}

/// `spaces KIND A B n D`: appends P and extended P of the source of the failure, and Q of the destination.
pub(crate) fn spaces(
    alloc: Global,
    current: &KeptVersion,
    repair: &RepairName,
    out: &mut Vec<u8>,
) -> Result<(), Stop>
    ensures { Carries (TellsOf (TellsSpaces repair.now) current.now) out.old.items out.new.items result }
{
    let version = found!(last_version(current));
    let failure = found!(find_failure(version, repair));
    let sets = space_sets(alloc, version, failure)?;
    put_spaces(version.net(), &sets.p, &sets.extended, &sets.q, out)?;
    Ok(())
}

/// `repair KIND A B n D`: appends the answer of the failure for the destination, with the labels of its stack.
pub(crate) fn repair(
    alloc: Global,
    current: &KeptVersion,
    repair: &RepairName,
    out: &mut Vec<u8>,
) -> Result<(), Stop>
    ensures { Carries (TellsOf (TellsRepair repair.now) current.now) out.old.items out.new.items result }
{
    let version = found!(last_version(current));
    let failure = found!(find_affected(version, repair));
    let Failure { case, destination } = failure;
    let answer = answer_of(version, failure);
    let labels = labels_of(alloc, version.net(), case, destination, &answer)?;
    put_repair(version.net(), case, destination, &answer, &labels, out)?;
    Ok(())
}
