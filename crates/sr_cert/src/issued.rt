//! The certificate of a repair.
ghost use Rattle.std.specs.Prelude.{◌≤◌, ◌+◌, ◌<◌, reverse, IfOk, MatchOption};
ghost use Rattle.sr_model.specs.declared.repair.Answer.TheVariants.{Least};
ghost use Rattle.sr_model.specs.Graph.{node_count};
ghost use Rattle.sr_model.specs.Case.{IsCase, IsAffected};
ghost use Rattle.sr_model.specs.Repair.{IsCaseAnswer};
ghost use Rattle.sr_model.specs.Forward.{IsStack};
ghost use Rattle.sr_repair.specs.Stack.{HasNoList};
ghost use Rattle.sr_cert.specs.Certified.{IsCertificateOf};

use crate::certificate::Certificate;
use crate::taken::certificate_rows;
use sr_model::{Answer, Case, NodeNo, RepairList};
use sr_repair::{Version, labels_of};
use sr_seq::Seq;
use sr_spf::Steps;
use std::alloc::{AllocError, Global};
use std::sync::ledger::Ledger;

/// The certificate of the list, which is the answer of the case for the destination, with its labels.
fn certificate_of<L: Ledger>(
    alloc: Global,
    version: &Version,
    case: Case,
    destination: NodeNo,
    list: RepairList<'_>,
    labels: Seq<u32>,
    steps: &mut Steps<L>,
) -> Result<Certificate, AllocError>
    requires within { IsCase version.now.net.graph case × (destination.0 < node_count version.now.net.graph) }
    requires answer { IsAffected version.now.net case destination.0
        × IsCaseAnswer version.now.net case destination.0 (Least list) }
    requires labels { IsStack version.now.net destination.0 list.first.0 list.segments (reverse labels) }
    ensures certificate { IfOk result (IsCertificateOf version.now.net case destination.0) }
    ensures searches { (steps.old ≤ steps.new) × (steps.new ≤ steps.old + 1) }
{
    let segments = list.segments.list();
    let rows = certificate_rows(
        alloc,
        version,
        case,
        list.first,
        segments,
        destination,
        steps,
    )?;
    Ok(Certificate {
        case,
        dest: destination,
        first: list.first,
        segments: Seq::new(Vec::from_slice(alloc, segments)?),
        rows,
        labels,
    })
}

/// The certificate of the answer of the case for the destination. None exactly where it isn't a list.
fn certificate_for<L: Ledger>(
    alloc: Global,
    version: &Version,
    case: Case,
    destination: NodeNo,
    answer: Answer<'_>,
    steps: &mut Steps<L>,
) -> Result<Option<Certificate>, AllocError>
    requires within { IsCase version.now.net.graph case × (destination.0 < node_count version.now.net.graph) }
    requires affected { IsAffected version.now.net case destination.0 }
    requires answer { IsCaseAnswer version.now.net case destination.0 answer }
    ensures certificate { IfOk result (λ found. MatchOption found
        (HasNoList version.now.net case destination.0)
        (IsCertificateOf version.now.net case destination.0)) }
    ensures searches { (steps.old ≤ steps.new) × (steps.new ≤ steps.old + 1) }
{
    let labels = Seq::new(labels_of(alloc, version.net(), case, destination, &answer)?);
    match answer {
        Answer::Least(list) => Ok(Some(certificate_of(
            alloc,
            version,
            case,
            destination,
            list,
            labels,
            steps,
        )?)),
        Answer::NoPath | Answer::NoList | Answer::TooDeep { .. } => Ok(None),
    }
}

/// The certificate of the repair of the case for the destination: it is accepted. None exactly where the destination isn't
/// affected, or its answer isn't a list. At most one search is counted (this project's rule).
pub fn certify<L: Ledger>(
    alloc: Global,
    version: &Version,
    case: Case,
    destination: NodeNo,
    steps: &mut Steps<L>,
) -> Result<Option<Certificate>, AllocError>
    requires case { IsCase version.now.net.graph case }
    requires destination { destination.0 < node_count version.now.net.graph }
    ensures certificate { IfOk result (λ found. MatchOption found
        (HasNoList version.now.net case destination.0)
        (IsCertificateOf version.now.net case destination.0)) }
    ensures most { steps.new ≤ steps.old + 1 }
    ensures least { steps.old ≤ steps.new }
{
    match version.repair(case, destination) {
        Some(answer) => certificate_for(alloc, version, case, destination, answer, steps),
        None => Ok(None),
    }
}
