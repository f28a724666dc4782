//! Questions about a version, and about the facts of which it has the net.
ghost use Rattle.std.specs.Prelude.{IfSome};
ghost use Rattle.sr_lsdb.specs.Facts.{AreInRange};
ghost use Rattle.sr_domain.specs.Net.{IsNetOf};
ghost use Rattle.sr_run.specs.Asked.{TellsQuestion};
ghost use Rattle.sr_run.specs.Session.{TellsOf};
ghost use Rattle.sr_run.specs.Handlers.{Carries, CarriesOut, IsAsked, IsTextQuestion};

use crate::account::{links, nodes};
use crate::adjacencies::{adjbackup, adjrepair};
use crate::audits::audit_counts;
use crate::differences::tell_diff;
use crate::distances::{dist, next};
use crate::failures::{repair, spaces};
use crate::forwarding::{label, walk_packet};
use crate::insight::{audit_by, audit_labels, fails_node, repair_case};
use crate::kept::KeptVersion;
use crate::loaded::load;
use crate::repaired::walk_repair;
use crate::session::DomainSession;
use crate::stop::Stop;
use sr_base::Runtime;
use sr_lsdb::Facts;
use sr_script::Command;
use std::alloc::Global;

/// Puts a question to the version, where there is one, and appends the answer. The version has the net of the facts, and
/// `previous` is the one before it. The answers to `audit full` and `aside` are written elsewhere.
pub(crate) fn ask(
    rt: &impl Runtime,
    alloc: Global,
    facts: &Facts,
    previous: &KeptVersion,
    current: &KeptVersion,
    question: Command,
    out: &mut Vec<u8>,
) -> Result<(), Stop>
    requires asked { IsAsked question }
    requires question { IsTextQuestion question }
    requires range { AreInRange facts.now }
    requires net { IfSome current.now (λ version. IsNetOf facts.now version.net) }
    ensures { Carries (TellsOf (TellsQuestion question facts.now previous.now) current.now)
        out.old.items out.new.items result }
{
    match question {
        Command::Dist { ends } => dist(current, &ends, out),
        Command::Next { ends } => next(current, &ends, out),
        Command::Label { node, label: top } => label(current, node, top, out),
        Command::Spaces { repair: name } => spaces(alloc, current, &name, out),
        Command::Repair { repair: name } => repair(alloc, current, &name, out),
        Command::RepairCase { kind, link } => repair_case(alloc, current, kind, &link, out),
        Command::FailsNode { node } => fails_node(alloc, current, node, out),
        Command::AdjRepair { link } => adjrepair(alloc, facts, current, &link, out),
        Command::AdjBackup { link } => adjbackup(alloc, facts, current, &link, out),
        Command::Walk { ends, choice } => walk_packet(alloc, current, &ends, choice, out),
        Command::WalkRepair {
            repair: name,
            choice,
        } => { walk_repair(alloc, current, &name, choice, out) }
        Command::Load { workers, each } => load(rt, alloc, current, workers, each, out),
        Command::Audit => audit_counts(current, out),
        Command::AuditBy { grouping } => audit_by(rt, alloc, current, grouping, out),
        Command::AuditLabels => audit_labels(rt, alloc, current, out),
        Command::Nodes => nodes(current, out),
        Command::Links => links(alloc, facts, current, out),
        Command::Diff { version } => tell_diff(rt, alloc, previous, current, version, out),
        _ => unreachable!(),
    }
}

impl DomainSession {
    /// Puts a question to the last version, and appends the answer. The answers to `audit full` and `aside` are written
    /// elsewhere.
    pub(crate) fn ask_last(
        &self,
        rt: &impl Runtime,
        question: Command,
        out: &mut Vec<u8>,
    ) -> Result<(), Stop>
        requires asked { IsAsked question }
        requires question { IsTextQuestion question }
        ensures { CarriesOut question self.now self.now out.old.items out.new.items result }
    {
        ask(
            rt,
            self.alloc,
            self.editor.accepted(),
            &self.previous,
            &self.current,
            question,
            out,
        )
    }
}
