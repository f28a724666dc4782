//! Certificates of repairs in the last version: `prove`, which asks for one, and the `proof` lines, which write one.
ghost use Rattle.std.specs.Prelude.{◌≡◌, reverse, Some, IfOk};
ghost use Rattle.sr_cert.specs.declared.draft.CertLine.TheVariants.{AdjSegment, Via};
ghost use Rattle.sr_cert.specs.Draft.{IsDraftWithin};
ghost use Rattle.sr_run.specs.Session.{TellsOf};
ghost use Rattle.sr_run.specs.State.{IsDraftOf};
ghost use Rattle.sr_run.specs.Certificates.{DecidesDraft, DraftsOf, IsDecided, KeepsLine, KeepsLink, KeepsNode, KeepsRow, OpensDraft, TellsProof};
ghost use Rattle.sr_run.specs.Handlers.{Carries, CountsQuestion, MayGrowBy};

use crate::kept::{KeptVersion, last_version};
use crate::names::{answer_of, find_affected, find_failure, find_link, find_node};
use crate::session::DomainSession;
use crate::stop::{Stop, found};
use sr_cert::{CertDraft, CertLine, Clause, MOST_LINES, Verdict, certify, verdict};
use sr_labels::Net;
use sr_model::SystemId;
use sr_print::{Refusal, put_certificate, put_proof, put_unproved, put_verdict};
use sr_script::{LinkName, RepairName};
use sr_seq::Seq;
use sr_spf::Steps;
use std::alloc::{AllocError, Global};
use std::sync::ledger::Ledger;

/// `prove KIND A B n D`: appends the certificate of the failure's answer for the destination, or why there is none. At most
/// one search is counted, and none where the line is refused.
pub(crate) fn prove<L: Ledger>(
    alloc: Global,
    current: &KeptVersion,
    repair: &RepairName,
    steps: &mut Steps<L>,
    out: &mut Vec<u8>,
) -> Result<(), Stop>
    ensures told { Carries (TellsOf (TellsProof repair.now) current.now) out.old.items out.new.items result }
    ensures searches { CountsQuestion steps.old steps.new result }
{
    let version = found!(last_version(current));
    let failure = found!(find_affected(version, repair));
    match certify(alloc, version, failure.case, failure.destination, steps)? {
        Some(certificate) => Ok(put_certificate(version.net(), &certificate, out)?),
        None => Ok(put_unproved(&answer_of(version, failure), out)?),
    }
}

/// `proof open KIND A B n D`: begins a certificate, and appends that one line is kept.
fn open_draft(
    alloc: Global,
    current: &KeptVersion,
    draft: &mut Option<CertDraft>,
    repair: &RepairName,
    out: &mut Vec<u8>,
) -> Result<(), Stop>
    requires within { IsDraftOf current.now draft.old }
    ensures told { Carries (λ told. DraftsOf (OpensDraft repair.now) current.now draft.old told draft.new)
        out.old.items out.new.items result }
    ensures within { IsDraftOf current.now draft.new }
{
    let version = found!(last_version(current));
    let failure = found!(find_failure(version, repair));
    put_proof(1, out)?;
    *draft = Some(CertDraft::open(alloc, failure.case, failure.destination));
    Ok(())
}

/// Keeps one more line of a certificate, and appends how many are kept.
fn keep_in(draft: &mut CertDraft, line: CertLine, out: &mut Vec<u8>) -> Result<(), Stop>
    ensures told { Carries (λ told. KeepsLine line (Some draft.old) told (Some draft.new))
        out.old.items out.new.items result }
    ensures kept { MayGrowBy (Some draft.old) line (Some draft.new) }
{
    let kept = draft.kept();
    if kept >= MOST_LINES {
        return Err(Stop::Refused(Refusal::ProofFull));
    }
    put_proof(kept + 1, out)?;
    Ok(draft.keep(line)?)
}

/// Keeps one more line of the open certificate, where one is open, and appends how many are kept.
fn keep(draft: &mut Option<CertDraft>, line: CertLine, out: &mut Vec<u8>) -> Result<(), Stop>
    ensures told { Carries (λ told. KeepsLine line draft.old told draft.new) out.old.items out.new.items result }
    ensures kept { MayGrowBy draft.old line draft.new }
{
    match draft.take() {
        None => Err(Stop::Refused(Refusal::NoProof)),
        Some(mut open) => {
            let told = keep_in(&mut open, line, out);
            *draft = Some(open);
            told
        }
    }
}

/// `proof via A B n`: keeps the link on which the packet leaves.
fn keep_via(
    current: &KeptVersion,
    draft: &mut Option<CertDraft>,
    name: &LinkName,
    out: &mut Vec<u8>,
) -> Result<(), Stop>
    requires within { IsDraftOf current.now draft.old }
    ensures told { Carries (λ told. DraftsOf (KeepsLink Via name.now) current.now draft.old told draft.new)
        out.old.items out.new.items result }
    ensures within { IsDraftOf current.now draft.new }
{
    let version = found!(last_version(current));
    let link = found!(find_link(version, name));
    keep(draft, CertLine::Via(link), out)
}

/// `proof adj A B n`: keeps an adjacency segment.
fn keep_adj(
    current: &KeptVersion,
    draft: &mut Option<CertDraft>,
    name: &LinkName,
    out: &mut Vec<u8>,
) -> Result<(), Stop>
    requires within { IsDraftOf current.now draft.old }
    ensures told { Carries (λ told. DraftsOf (KeepsLink AdjSegment name.now) current.now draft.old told draft.new)
        out.old.items out.new.items result }
    ensures within { IsDraftOf current.now draft.new }
{
    let version = found!(last_version(current));
    let link = found!(find_link(version, name));
    keep(draft, CertLine::AdjSegment(link), out)
}

/// `proof node A`: keeps a node segment.
fn keep_node(
    current: &KeptVersion,
    draft: &mut Option<CertDraft>,
    system: SystemId,
    out: &mut Vec<u8>,
) -> Result<(), Stop>
    requires within { IsDraftOf current.now draft.old }
    ensures told { Carries (λ told. DraftsOf (KeepsNode system) current.now draft.old told draft.new)
        out.old.items out.new.items result }
    ensures within { IsDraftOf current.now draft.new }
{
    let version = found!(last_version(current));
    let node = found!(find_node(version, system));
    keep(draft, CertLine::NodeSegment(node), out)
}

/// `proof row V V ..`: keeps a row of distances.
fn keep_row(
    current: &KeptVersion,
    draft: &mut Option<CertDraft>,
    cells: Seq<u64>,
    out: &mut Vec<u8>,
) -> Result<(), Stop>
    requires within { IsDraftOf current.now draft.old }
    ensures told { Carries (λ told. DraftsOf (KeepsRow cells) current.now draft.old told draft.new)
        out.old.items out.new.items result }
    ensures within { IsDraftOf current.now draft.new }
{
    let _version = found!(last_version(current));
    keep(draft, CertLine::Row(cells), out)
}

/// The labels, which are given from the top down, with the top last.
fn top_last(labels: Seq<u32>) -> Seq<u32>
    ensures { result ≡ reverse labels }
{
    let mut items = labels.into_vec();
    items.reverse();
    Seq::new(items)
}

/// The verdict on the certificate that the draft and these labels, from the top down, write.
fn verdict_on(
    alloc: Global,
    net: &Net,
    draft: CertDraft,
    labels: Seq<u32>,
) -> Result<Verdict, AllocError>
    requires { IsDraftWithin net.now draft }
    ensures { IfOk result (IsDecided net.now draft labels) }
{
    match draft.finish(alloc, top_last(labels))? {
        Some(certificate) => verdict(alloc, net, &certificate),
        None => Ok(Verdict::Rejected(Clause::Rows)),
    }
}

/// `proof done X X ..`: appends the verdict on the open certificate with these labels, from the top down. None is open
/// then.
fn decide(
    alloc: Global,
    current: &KeptVersion,
    draft: &mut Option<CertDraft>,
    labels: Seq<u32>,
    out: &mut Vec<u8>,
) -> Result<(), Stop>
    requires within { IsDraftOf current.now draft.old }
    ensures told { Carries (λ told. DraftsOf (DecidesDraft labels) current.now draft.old told draft.new)
        out.old.items out.new.items result }
    ensures within { IsDraftOf current.now draft.new }
{
    let version = found!(last_version(current));
    match draft.take() {
        None => Err(Stop::Refused(Refusal::NoProof)),
        Some(open) => {
            let decided = verdict_on(alloc, version.net(), open, labels)?;
            Ok(put_verdict(decided, out)?)
        }
    }
}

impl DomainSession {
    ghost use Rattle.sr_script.specs.declared.command.Command.TheVariants.{ProofAdj, ProofDone, ProofNode, ProofOpen, ProofRow, ProofVia};
    ghost use Rattle.sr_run.specs.Handlers.{CarriesOut};

    /// `proof open KIND A B n D`
    pub(crate) fn proof_open(&mut self, repair: &RepairName, out: &mut Vec<u8>) -> Result<(), Stop>
        ensures told { CarriesOut (ProofOpen repair.now) self.old self.new out.old.items out.new.items result }
        ensures current { self.new.current ≡ self.old.current }
    {
        open_draft(self.alloc, &self.current, &mut self.draft, repair, out)
    }

    /// `proof via A B n`
    pub(crate) fn proof_via(&mut self, link: &LinkName, out: &mut Vec<u8>) -> Result<(), Stop>
        ensures told { CarriesOut (ProofVia link.now) self.old self.new out.old.items out.new.items result }
        ensures current { self.new.current ≡ self.old.current }
    {
        keep_via(&self.current, &mut self.draft, link, out)
    }

    /// `proof adj A B n`
    pub(crate) fn proof_adj(&mut self, link: &LinkName, out: &mut Vec<u8>) -> Result<(), Stop>
        ensures told { CarriesOut (ProofAdj link.now) self.old self.new out.old.items out.new.items result }
        ensures current { self.new.current ≡ self.old.current }
    {
        keep_adj(&self.current, &mut self.draft, link, out)
    }

    /// `proof node A`
    pub(crate) fn proof_node(&mut self, system: SystemId, out: &mut Vec<u8>) -> Result<(), Stop>
        ensures told { CarriesOut (ProofNode system) self.old self.new out.old.items out.new.items result }
        ensures current { self.new.current ≡ self.old.current }
    {
        keep_node(&self.current, &mut self.draft, system, out)
    }

    /// `proof row V V ..`
    pub(crate) fn proof_row(&mut self, cells: Seq<u64>, out: &mut Vec<u8>) -> Result<(), Stop>
        ensures told { CarriesOut (ProofRow cells) self.old self.new out.old.items out.new.items result }
        ensures current { self.new.current ≡ self.old.current }
    {
        keep_row(&self.current, &mut self.draft, cells, out)
    }

    /// `proof done X X ..`
    pub(crate) fn proof_done(&mut self, labels: Seq<u32>, out: &mut Vec<u8>) -> Result<(), Stop>
        ensures told { CarriesOut (ProofDone labels) self.old self.new out.old.items out.new.items result }
        ensures current { self.new.current ≡ self.old.current }
    {
        decide(self.alloc, &self.current, &mut self.draft, labels, out)
    }
}
