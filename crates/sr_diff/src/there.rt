//! The repair of another version under the same name.
ghost use Rattle.std.specs.Prelude.{IfOk, MatchOption};
ghost use Rattle.sr_model.specs.Audit.{IsItem};
ghost use Rattle.sr_model.specs.Case.{IsCase, IsAffected};
ghost use Rattle.sr_model.specs.Repair.{IsCaseAnswer};
ghost use Rattle.sr_repair.specs.Stack.{HasNoList};
ghost use Rattle.sr_diff.specs.Diff.{IsUnrepaired};
ghost use Rattle.sr_diff.specs.Named.{item_name};
ghost use Rattle.sr_diff.specs.Matched.{IsListFor, IsListNamed};

use crate::purpose::{Purpose, purpose_there};
use sr_labels::Net;
use sr_model::{Answer, Item};
use sr_repair::{Version, labels_of};
use sr_seq::Seq;
use std::alloc::{AllocError, Global};

/// The item that stands for the answer, where that is a list.
fn item_for<'a>(
    alloc: Global,
    net: &Net,
    purpose: Purpose,
    answer: Answer<'a>,
) -> Result<Option<Item<'a>>, AllocError>
    requires case { IsCase net.now.graph purpose.case }
    requires affected { IsAffected net.now purpose.case purpose.dest.0 }
    requires answer { IsCaseAnswer net.now purpose.case purpose.dest.0 answer }
    ensures { IfOk result (λ found. MatchOption found
        (HasNoList net.now purpose.case purpose.dest.0)
        (IsListFor net.now purpose.case purpose.dest.0)) }
{
    let Purpose { case, dest } = purpose;
    match &answer {
        Answer::Least(_) => {}
        Answer::NoPath | Answer::NoList | Answer::TooDeep { .. } => return Ok(None),
    }
    let labels = labels_of(alloc, net, case, dest, &answer)?;
    Ok(Some(Item {
        case,
        dest,
        answer,
        labels: Seq::new(labels),
    }))
}

/// The item of the version for this case and destination, where its answer is a list.
fn repair_at<'a>(
    alloc: Global,
    version: &'a Version,
    purpose: Purpose,
) -> Result<Option<Item<'a>>, AllocError>
    requires { IsCase version.now.net.graph purpose.case }
    ensures { IfOk result (λ found. MatchOption found
        (HasNoList version.now.net purpose.case purpose.dest.0)
        (IsListFor version.now.net purpose.case purpose.dest.0)) }
{
    match version.repair(purpose.case, purpose.dest) {
        None => Ok(None),
        Some(answer) => item_for(alloc, version.net(), purpose, answer),
    }
}

/// The other version's item under the name of this one, where its answer is a list. None exactly where the other
/// version has no repair under that name.
pub(crate) fn repair_there<'a>(
    alloc: Global,
    net: &Net,
    item: &Item<'_>,
    other: &'a Version,
) -> Result<Option<Item<'a>>, AllocError>
    requires { IsItem net.now item.now }
    ensures { IfOk result (λ found. MatchOption found
        (IsUnrepaired other.now.net (item_name net.now item.now))
        (IsListNamed other.now.net (item_name net.now item.now))) }
{
    match purpose_there(net.graph(), item.case, item.dest, other.net().graph()) {
        None => Ok(None),
        Some(purpose) => repair_at(alloc, other, purpose),
    }
}
