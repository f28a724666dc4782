//! `try`: a question is put to the version that a commit would publish.
ghost use Rattle.std.specs.Prelude.{MatchResult};
ghost use Rattle.sr_script.specs.Says.{is_question};
ghost use Rattle.std.specs.Prelude.{◌≡◌, true};
ghost use Rattle.sr_run.specs.Handlers.{IsAsked, MakesTried, TriedAs, TriesNone};

use crate::account::begin_asides;
use crate::kept::{KeptVersion, last_number};
use crate::questions::ask;
use crate::session::DomainSession;
use crate::stop::Stop;
use sr_base::Runtime;
use sr_model::MOST_VERSION;
use sr_print::Refusal;
use sr_script::Command;
use sr_spf::Steps;
use std::sync::ledger::Ledger;

/// How a question that is tried is answered.
#[derive(Drop)]
pub(crate) enum Tried {
    /// By what was appended.
    Text,
    /// By the audit of this version, which is written case by case.
    Audit(KeptVersion),
    /// By what of the tentative facts isn't used: so much, which is written LSP by LSP.
    Asides(u64),
}

impl DomainSession {
    /// The version that a commit would publish, or why none would be, for which nothing is searched.
    fn tried_version<L: Ledger>(
        &self,
        rt: &impl Runtime,
        steps: &mut Steps<L>,
    ) -> Result<KeptVersion, Stop>
        ensures { MatchResult result
            (MakesTried self.now steps.old steps.new)
            (TriesNone self.now steps.old steps.new) }
    {
        if last_number(&self.current) >= MOST_VERSION {
            return Err(Stop::Refused(Refusal::VersionsFull));
        }
        match self.make_version(rt, steps)? {
            Ok(version) => Ok(KeptVersion::new(self.alloc, version)?),
            Err(rule) => Err(Stop::Refused(Refusal::Rule(rule))),
        }
    }

    /// `try QUESTION`: puts the question to the version that a commit would publish, and appends the answer; of `audit full`
    /// and `aside` nothing is appended. The staged edits stay as they are.
    pub(crate) fn try_question<L: Ledger>(
        &self,
        rt: &impl Runtime,
        steps: &mut Steps<L>,
        question: Command,
        out: &mut Vec<u8>,
    ) -> Result<Tried, Stop>
        requires asked { IsAsked question }
        requires question { is_question question ≡ true }
        ensures { TriedAs question self.now steps.old steps.new out.old.items out.new.items result }
    {
        let tried = match self.tried_version(rt, steps) {
            Ok(tried) => tried,
            Err(stop) => return Err(stop),
        };
        let facts = self.editor.tentative();
        match question {
            Command::AuditFull => Ok(Tried::Audit(tried)),
            Command::Aside => match begin_asides(self.alloc, facts, &tried) {
                Ok(count) => Ok(Tried::Asides(count)),
                Err(stop) => Err(stop),
            },
            other => match ask(rt, self.alloc, facts, &self.current, &tried, other, out) {
                Ok(()) => Ok(Tried::Text),
                Err(stop) => Err(stop),
            },
        }
    }
}
