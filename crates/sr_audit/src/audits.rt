//! The audit of a version, its cases split among threads.
ghost use Rattle.std.specs.Prelude.{◌≡◌, ◌<◌, ◌≤◌, ◌^◌, length, IfOk, flat_map, vec_items};
ghost use Rattle.std.specs.List.{AllZip};
ghost use Rattle.sr_model.specs.Audit.{IsAudit};
ghost use Rattle.sr_model.specs.Case.{IsCase, IsAffected};
ghost use Rattle.sr_model.specs.Repair.{IsCaseAnswer};
ghost use Rattle.sr_encode.specs.Answered.{AreAnswers};
ghost use Rattle.sr_repair.specs.Answers.{case_count};
ghost use Rattle.sr_repair.specs.Items.{IsItemFor};
ghost use Rattle.sr_audit.specs.Audited.{Audited};
ghost use Rattle.sr_audit.specs.Cases.{IsCaseAudit, IsAuditAt, AreAuditsAt};

use crate::report::Report;
use sr_encode::{CaseAnswers, NodeAnswer};
use sr_labels::Net;
use sr_model::{Case, Item};
use sr_repair::{Version, case_at, case_count, labels_of};
use sr_seq::Seq;
use sr_threads::{Share, made_of_each};
use std::alloc::{AllocError, Global};
use std::thread::Threads;

/// How cases are shared among threads: a thread costs more than a few of them.
const CASES: Share = Share {
    at_once: 8,
    worth: 16,
};

/// The item that stands for an answer of the case.
fn item_of<'a>(
    alloc: Global,
    net: &Net,
    case: Case,
    found: NodeAnswer<'a>,
) -> Result<Item<'a>, AllocError>
    requires case { IsCase net.now.graph case }
    requires affected { IsAffected net.now case found.destination.0 }
    requires answer { IsCaseAnswer net.now case found.destination.0 found.answer }
    ensures { IfOk result (IsItemFor net.now case found.entry) }
{
    let NodeAnswer {
        destination,
        answer,
    } = found;
    let labels = labels_of(alloc, net, case, destination, &answer)?;
    Ok(Item {
        case,
        dest: destination,
        answer,
        labels: Seq::new(labels),
    })
}

/// The items that stand for these answers of the case, in their order.
fn items_of<'a>(
    alloc: Global,
    net: &Net,
    case: Case,
    answers: &CaseAnswers<'a>,
) -> Result<Vec<Item<'a>>, AllocError>
    requires case { IsCase net.now.graph case }
    requires answers { AreAnswers net.now case answers.now }
    ensures { IfOk result (λ items. AllZip (IsItemFor net.now case) answers.now items.items) }
{
    let mut items = Vec::with_capacity(alloc, answers.count())?;
    for place in 0..answers.count() {
        let item = item_of(alloc, net, case, answers.at(place))?;
        items.push(item)?;
    }
    Ok(items)
}

/// The items of the case, destinations ascending.
fn case_items<'a>(
    alloc: Global,
    version: &'a Version,
    case: Case,
) -> Result<Vec<Item<'a>>, AllocError>
    requires { IsCase version.now.net.graph case }
    ensures audit { IfOk result (λ items. IsCaseAudit version.now.net case items.items) }
    ensures few { IfOk result (λ items. length items.items ≤ 256) }
{
    items_of(alloc, version.net(), case, &version.answers(case))
}

/// The items of the case at this place.
fn items_at<'a>(
    alloc: Global,
    version: &'a Version,
    place: u32,
) -> Result<Vec<Item<'a>>, AllocError>
    requires { place < case_count version.now.net.graph }
    ensures { IfOk result (λ items. IsAuditAt version.now.net place items.items) }
{
    let case = case_at(version.net().graph(), place);
    case_items(alloc, version, case)
}

/// The items of each case, in order of the cases' places.
fn all_items<'a>(
    rt: &(impl Threads + Sync),
    alloc: Global,
    version: &'a Version,
    count: u32,
) -> Result<Vec<Vec<Item<'a>>>, AllocError>
    requires count { count ≡ case_count version.now.net.graph }
    requires few { count ≤ 6144 }
    ensures audits { IfOk result (λ lists. AreAuditsAt version.now.net 0 count lists.items) }
    ensures few { IfOk result (λ lists. length (flat_map vec_items lists.items) < 2 ^ 32) }
{
    let items = |place: u32| -> Result<Vec<Item>, AllocError>
        requires { place < case_count version.now.net.graph }
        ensures { IfOk result (λ items. IsAuditAt version.entry.now.net place items.items) }
    { items_at(alloc, version, place) };
    made_of_each(rt, alloc, count, CASES, &items)
}

/// How many items the lists have.
fn item_count(lists: &[Vec<Item<'_>>]) -> usize
    requires { length (flat_map vec_items lists.now) < 2 ^ 32 }
    ensures { result ≡ length (flat_map vec_items lists.now) }
{
    let mut count = 0;
    for list in lists {
        count += list.len();
    }
    count
}

/// The items of all lists, in order.
fn joined<'a>(alloc: Global, lists: Vec<Vec<Item<'a>>>) -> Result<Vec<Item<'a>>, AllocError>
    requires { length (flat_map vec_items lists.items) < 2 ^ 32 }
    ensures { IfOk result (λ items. items.items ≡ flat_map vec_items lists.entry.items) }
{
    let mut items = Vec::with_capacity(alloc, item_count(&lists))?;
    for list in lists {
        items.extend(list)?;
    }
    Ok(items)
}

/// The audit of the version: each case and each destination that it affects once, in order, with its answer and the
/// labels on the first link. The cases are split among threads where there are any; the report is the same without.
pub fn audit<'a>(
    rt: &(impl Threads + Sync),
    alloc: Global,
    version: &'a Version,
) -> Result<Report<'a>, AllocError>
    ensures version { IfOk result (λ (report : Audited). report.version ≡ version.now.number) }
    ensures audit { IfOk result (λ (report : Audited). IsAudit version.now.net report.items) }
    ensures few { IfOk result (λ (report : Audited). length report.items < 2 ^ 32) }
{
    let count = case_count(version.net().graph());
    let lists = all_items(rt, alloc, version, count)?;
    let items = joined(alloc, lists)?;
    Ok(Report::new(version.number(), items))
}
