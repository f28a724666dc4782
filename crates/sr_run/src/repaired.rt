//! The walk of a repaired packet in the last version: `walk KIND A B n D K`.
ghost use Rattle.std.specs.Prelude.{◌≡◌, false, reverse, IfOk, IfSome, MatchOption};
ghost use Rattle.sr_model.specs.declared.repair.Answer.TheVariants.{Least};
ghost use Rattle.sr_model.specs.Audit.{is_least};
ghost use Rattle.sr_model.specs.Forward.{IsStack};
ghost use Rattle.sr_print.specs.Links.{AreLinks};
ghost use Rattle.sr_run.specs.Session.{TellsOf};
ghost use Rattle.sr_run.specs.Failures.{IsAnswerOf, IsRepairWalked, TellsRepairWalk};
ghost use Rattle.sr_run.specs.Handlers.{Carries};

use crate::kept::{KeptVersion, last_version};
use crate::names::{Failure, answer_of, find_affected};
use crate::stop::{Stop, found};
use sr_forward::walk;
use sr_model::{Answer, LinkNo, RepairList};
use sr_print::{put_walk, put_walk_uncovered};
use sr_repair::{Version, labels_of};
use sr_script::RepairName;
use std::alloc::{AllocError, Global};

/// The links that the packet of a repair crosses: the first link, and then those that it crosses
/// under its labels by the choice number, the failed links being closed. The top of the labels is
/// the last.
fn walk_list(
    alloc: Global,
    version: &Version,
    failure: Failure,
    list: &RepairList,
    labels: Vec<u32>,
    choice: u32,
) -> Result<Vec<LinkNo>, AllocError>
    requires answer { IsAnswerOf version.now.net failure.case failure.destination.0 (Least list.now) }
    requires stack { IsStack version.now.net failure.destination.0
        list.now.first.0 list.now.segments (reverse labels.items) }
    ensures walked { IfOk result (λ links.
        IsRepairWalked version.now.net failure.case failure.destination.0 choice links.items) }
    ensures links { IfOk result (λ links. AreLinks version.now.net.graph links.items) }
{
    let net = version.net();
    let failed = net.graph().failed(alloc, failure.case)?;
    let start = net.graph().link(list.first).to;
    let walk = walk(alloc, net, &version.fib(), &failed, start, labels, choice)?;
    let mut links = walk.links;
    links.insert(0, list.first)?;
    Ok(links)
}

/// The links that the packet of the answer's repair crosses. None exactly where the answer isn't a
/// list.
fn walk_answer(
    alloc: Global,
    version: &Version,
    failure: Failure,
    answer: &Answer,
    choice: u32,
) -> Result<Option<Vec<LinkNo>>, AllocError>
    requires { IsAnswerOf version.now.net failure.case failure.destination.0 answer.now }
    ensures walked { IfOk result (λ found. MatchOption found
        (is_least answer.now ≡ false)
        (λ links. IsRepairWalked version.now.net failure.case failure.destination.0 choice links.items)) }
    ensures links { IfOk result (λ found. IfSome found (λ links.
        AreLinks version.now.net.graph links.items)) }
{
    match answer {
        Answer::Least(list) => {
            let Failure { case, destination } = failure;
            let labels = labels_of(alloc, version.net(), case, destination, answer)?;
            Ok(Some(walk_list(alloc, version, failure, list, labels, choice)?))
        }
        Answer::NoPath | Answer::NoList | Answer::TooDeep { .. } => Ok(None),
    }
}

/// `walk KIND A B n D K`: appends the walk of the repaired packet by choice number K, or why there is no repair.
pub(crate) fn walk_repair(
    alloc: Global,
    current: &KeptVersion,
    repair: &RepairName,
    choice: u32,
    out: &mut Vec<u8>,
) -> Result<(), Stop>
    ensures { Carries (TellsOf (TellsRepairWalk repair.now choice) current.now) out.old.items out.new.items result }
{
    let version = found!(last_version(current));
    let failure = found!(find_affected(version, repair));
    let answer = answer_of(version, failure);
    let source = version.net().graph().link(failure.case.link).from;
    match walk_answer(alloc, version, failure, &answer, choice)? {
        Some(links) => Ok(put_walk(version.net(), source, Some(&links), out)?),
        None => Ok(put_walk_uncovered(&answer, out)?),
    }
}
