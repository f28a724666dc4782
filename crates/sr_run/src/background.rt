//! A script's session: the domain's session, the work that runs beside it, and the counter of searches. `hold`, `watch`,
//! `join`, `commit`, `prove`, `why` and `try`.
ghost use Rattle.std.specs.Prelude.{◌≡◌, ◌<◌, ◌≤◌, ◌++◌, ℕ, true, IfSome, MatchResult, OnOk};
ghost use Rattle.std.specs.Arc.{arc_value};
ghost use Rattle.sr_engine.specs.Replies.{AtEnd, Gives, ToHead};
ghost use Rattle.sr_engine.specs.Written.{written};
ghost use Rattle.sr_print.specs.Told.{spelled};
ghost use Rattle.sr_print.specs.Told.Told.{Joined};
ghost use Rattle.sr_print.specs.Work.{report_lines};
ghost use Rattle.sr_model.specs.declared.limits.TheConstants.{MOST_ROUNDS, MOST_WATCHERS};
ghost use Rattle.sr_work.specs.Works.{MayFollow};
ghost use Rattle.sr_run.specs.Background.{BeginsHold, BeginsWatch};
ghost use Rattle.sr_run.specs.Edits.{Commits};
ghost use Rattle.sr_run.specs.Certificates.{TellsProof};
ghost use Rattle.sr_run.specs.Reasons.{TellsReason};
ghost use Rattle.sr_run.specs.Session.{AsksSearching};
ghost use Rattle.sr_run.specs.State.{is_running, session_before};
ghost use Rattle.sr_script.specs.Says.{is_question};
ghost use Rattle.sr_run.specs.Tries.{Tries};
ghost use Rattle.sr_run.specs.Handlers.{Carries, GivesCommand, GivesTold, IsAsked, IsPublished, MayBegin, MayNotBegin, PutsJoined, RefusesLine, SessionAnswers, SessionEnds, SessionReplies, SessionTells};

use crate::account::put_account;
use crate::audits::put_audit;
use crate::certificates::prove;
use crate::kept::{KeptVersion, has_audit};
use crate::reasons::reason;
use crate::session::{DomainSession, Reply, accepted, refusal_of_fault, replied, write_refusal};
use crate::stop::Stop;
use crate::tries::Tried;
use sr_base::{Runtime, Sink, SinkFault};
use sr_engine::Answers;
use sr_model::RoundReport;
use sr_print::{Refusal, put_hold, put_joined, put_report, put_watch};
use sr_repair::Version;
use sr_script::{Command, Line, LineFault, RepairName, read_line};
use sr_spf::Steps;
use sr_store::Usage;
use sr_watch::Gate;
use sr_work::Work;
use std::alloc::{AllocError, Global};
use std::marker::Model;
use std::mem::replace;
use std::sync::Arc;
use std::sync::ledger::Ledger;

/// A session between two lines of a script: the domain's session, the work that runs beside it, the usage of the work's
/// stores, and the counter of searches. Contracts see these alone.
pub(crate) struct ScriptSession<G: Gate, L: Ledger> {
    domain: DomainSession,
    work: Work,
    usage: Usage,
    steps: Steps<L>,
    /// What each round of a watch passes.
    gate: Arc<G>,
    /// The memory in which the answer to a line is put together.
    text: Vec<u8>,
}

impl<G: Gate, L: Ledger> Model for ScriptSession<G, L> {
    ghost use Rattle.sr_run.specs.State.{Session, IsKeptWork};

    ghost Value = { Session };

    ghost view = { λ s.
        record { state = s.domain; work = s.work; usage = s.usage; searches = s.steps } };

    ghost invariant = { λ s. IsKeptWork s.domain s.work };
}

/// Appends the reports, one line each.
fn put_reports(reports: &[RoundReport], out: &mut Vec<u8>) -> Result<(), AllocError>
    ensures { OnOk result (out.new.items ≡ out.old.items ++ report_lines reports.now) }
{
    for report in reports {
        put_report(report, out)?;
    }
    Ok(())
}

/// Appends the reports, and how many there are. Fails only out of memory: no list in memory is so long that its length
/// doesn't fit.
fn put_all_joined(reports: &[RoundReport], out: &mut Vec<u8>) -> Result<(), AllocError>
    ensures { OnOk result ((number : ℕ) →
        out.new.items ≡ out.old.items ++ spelled number (Joined reports.now)) }
{
    let count = match u32::try_from(reports.len()) {
        Ok(count) => count,
        Err(_) => return Err(AllocError),
    };
    put_reports(reports, out)?;
    put_joined(count, out)
}

/// Publishes the last version to the work, where there is one and a watch runs. Fails only out of memory, and then the
/// work is given up.
fn publish_last(
    rt: &impl Runtime,
    current: &KeptVersion,
    work: &mut Work,
    usage: &mut Usage,
) -> Result<(), AllocError>
    requires { IfSome current.now (MayFollow work.old) }
    ensures { MatchResult result
        (λ _. IsPublished current.now work.old usage.old work.new usage.new)
        (λ _. work.new ≡ Work.Idle) }
{
    let published = match current.share() {
        Ok(Some(version)) => work.publish(rt, version, usage),
        Ok(None) => Ok(()),
        Err(wanting) => Err(wanting),
    };
    match published {
        Ok(()) => Ok(()),
        Err(wanting) => {
            replace(work, Work::Idle).give_up(rt);
            Err(wanting)
        }
    }
}

impl<G: Gate, L: Ledger> ScriptSession<G, L> {
    /// A session before its first line. Each round of a watch will pass this gate, the stores will be counted in this
    /// usage, and the searches by this counter.
    pub(crate) fn new(
        alloc: Global,
        gate: Arc<G>,
        usage: Usage,
        steps: Steps<L>,
    ) -> ScriptSession<G, L>
        ensures { result ≡ session_before usage steps }
    {
        ScriptSession {
            domain: DomainSession::new(alloc),
            work: Work::Idle,
            usage,
            steps,
            gate,
            text: Vec::new(alloc),
        }
    }

    /// The version on which work may begin, or why it may not.
    fn may_begin(&self) -> Result<Arc<Version>, Stop>
        ensures { MatchResult result
            (λ version. MayBegin self.now (arc_value version))
            (MayNotBegin self.now) }
    {
        match self.domain.current().share() {
            Ok(Some(version)) => match &self.work {
                Work::Idle => {
                    has_audit(&version);
                    Ok(version)
                }
                Work::Holds(_) | Work::Watches(_) => Err(Stop::Refused(Refusal::WatchRunning)),
            },
            Ok(None) => Err(Stop::Refused(Refusal::NoVersion)),
            Err(wanting) => Err(Stop::Memory(wanting)),
        }
    }

    /// `hold`: begins a hold of the last version.
    fn hold<R: Runtime + 'static>(&mut self, rt: &R, out: &mut Vec<u8>) -> Result<(), Stop>
        ensures { Carries (SessionTells BeginsHold self.old self.new)
            out.old.items out.new.items result }
    {
        let version = match self.may_begin() {
            Ok(version) => version,
            Err(stop) => return Err(stop),
        };
        put_hold(version.number(), out)?;
        let work = Work::hold(rt, self.domain.alloc(), &version)?;
        replace(&mut self.work, work).give_up(rt);
        Ok(())
    }

    /// `watch T R`: begins a watch on the last version.
    fn watch<R: Runtime + 'static>(
        &mut self,
        rt: &R,
        watchers: u32,
        rounds: u32,
        out: &mut Vec<u8>,
    ) -> Result<(), Stop>
    where
        G: 'static,
        requires few { (0 < watchers) × (watchers ≤ MOST_WATCHERS) × (rounds ≤ MOST_ROUNDS) }
        ensures { Carries (SessionTells (BeginsWatch watchers rounds) self.old self.new)
            out.old.items out.new.items result }
    {
        let version = match self.may_begin() {
            Ok(version) => version,
            Err(stop) => return Err(stop),
        };
        put_watch(watchers, rounds, version.number(), out)?;
        let work = Work::watch(
            rt,
            self.domain.alloc(),
            &self.gate,
            &version,
            watchers,
            rounds,
            &mut self.usage,
        )?;
        replace(&mut self.work, work).give_up(rt);
        Ok(())
    }

    /// `join`: joins what runs, and appends its reports. Fails only out of memory.
    fn join<R: Runtime + 'static>(&mut self, rt: &R, out: &mut Vec<u8>) -> Result<(), AllocError>
        ensures { OnOk result (PutsJoined self.old self.new out.old.items out.new.items) }
    {
        let work = replace(&mut self.work, Work::Idle);
        let reports = work.join(rt, self.domain.alloc(), &mut self.usage)?;
        put_all_joined(&reports, out)
    }

    /// `commit`: commits, and publishes the version to a watch that runs.
    fn commit(&mut self, rt: &impl Runtime, out: &mut Vec<u8>) -> Result<(), Stop>
        ensures { Carries (SessionTells Commits self.old self.new)
            out.old.items out.new.items result }
    {
        match self.domain.commit(rt, &mut self.steps, out) {
            Ok(()) => {}
            Err(stop) => return Err(stop),
        }
        match publish_last(rt, self.domain.current(), &mut self.work, &mut self.usage) {
            Ok(()) => Ok(()),
            Err(wanting) => Err(Stop::Memory(wanting)),
        }
    }

    /// `prove KIND A B n D`: appends the certificate, or why there is none.
    fn prove(&mut self, repair: &RepairName, out: &mut Vec<u8>) -> Result<(), Stop>
        ensures { Carries (SessionTells (AsksSearching (TellsProof repair.now)) self.old self.new)
            out.old.items out.new.items result }
    {
        prove(
            self.domain.alloc(),
            self.domain.current(),
            repair,
            &mut self.steps,
            out,
        )
    }

    /// `why KIND A B n D`: appends why there is no repair, or that there is one.
    fn why(&mut self, repair: &RepairName, out: &mut Vec<u8>) -> Result<(), Stop>
        ensures { Carries (SessionTells (AsksSearching (TellsReason repair.now)) self.old self.new)
            out.old.items out.new.items result }
    {
        reason(
            self.domain.alloc(),
            self.domain.current(),
            repair,
            &mut self.steps,
            out,
        )
    }

    /// Carries a command out, and appends the answer; of `audit full` and `aside` nothing is appended.
    fn tell<R: Runtime + 'static>(
        &mut self,
        rt: &R,
        command: Command,
        out: &mut Vec<u8>,
    ) -> Result<Reply, Stop>
    where
        G: 'static,
        requires { IsAsked command }
        ensures { SessionReplies command self.old self.new out.old.items out.new.items result }
    {
        match command {
            Command::Hold => replied(self.hold(rt, out)),
            Command::Watch { watchers, rounds } => replied(self.watch(rt, watchers, rounds, out)),
            Command::Join => match self.join(rt, out) {
                Ok(()) => Ok(Reply::Text),
                Err(wanting) => Err(Stop::Memory(wanting)),
            },
            Command::Commit => replied(self.commit(rt, out)),
            Command::Prove { repair } => replied(self.prove(&repair, out)),
            Command::Why { repair } => replied(self.why(&repair, out)),
            other => self.domain.tell(rt, other, out),
        }
    }

    /// Carries a command out, and writes the answer. Was it refused?
    fn carry_out<R: Runtime + 'static, K: Sink>(
        &mut self,
        rt: &R,
        number: u32,
        command: Command,
        text: &mut Vec<u8>,
        out: &mut Answers,
        sink: &mut K,
    ) -> Result<bool, SinkFault>
    where
        G: 'static,
        requires { IsAsked command }
        ensures { Gives (GivesCommand command number self.old)
            (written (K.held sink.old) (K.faults sink.old) out.old)
            (written (K.held sink.new) (K.faults sink.new) out.new) result self.new }
    {
        text.clear();
        match self.tell(rt, command, text) {
            Ok(Reply::Text) => accepted(out.put(sink, text)),
            Ok(Reply::Audit) => accepted(put_audit(
                self.domain.alloc(),
                self.domain.current(),
                text,
                out,
                sink,
            )),
            Ok(Reply::Asides(count)) => accepted(put_account(
                self.domain.alloc(),
                self.domain.accepted_facts(),
                count,
                text,
                out,
                sink,
            )),
            Err(Stop::Refused(reason)) => write_refusal(number, &reason, text, out, sink),
            Err(Stop::Memory(error)) => Err(SinkFault::Memory(error)),
        }
    }

    /// Puts a question to the version that a commit would publish, and writes the answer. Was it refused?
    fn try_out<R: Runtime + 'static, K: Sink>(
        &mut self,
        rt: &R,
        number: u32,
        question: Command,
        text: &mut Vec<u8>,
        out: &mut Answers,
        sink: &mut K,
    ) -> Result<bool, SinkFault>
        requires asked { IsAsked question }
        requires question { is_question question ≡ true }
        ensures { Gives (GivesTold (Tries question) number self.old)
            (written (K.held sink.old) (K.faults sink.old) out.old)
            (written (K.held sink.new) (K.faults sink.new) out.new) result self.new }
    {
        text.clear();
        let tried = self
            .domain
            .try_question(rt, &mut self.steps, question, text);
        match tried {
            Ok(Tried::Text) => accepted(out.put(sink, text)),
            Ok(Tried::Audit(version)) => accepted(put_audit(
                self.domain.alloc(),
                &version,
                text,
                out,
                sink,
            )),
            Ok(Tried::Asides(count)) => accepted(put_account(
                self.domain.alloc(),
                self.domain.tentative_facts(),
                count,
                text,
                out,
                sink,
            )),
            Err(Stop::Refused(reason)) => write_refusal(number, &reason, text, out, sink),
            Err(Stop::Memory(error)) => Err(SinkFault::Memory(error)),
        }
    }

    /// Refuses a line that says no command.
    fn refuse<K: Sink>(
        &mut self,
        number: u32,
        fault: &LineFault,
        text: &mut Vec<u8>,
        out: &mut Answers,
        sink: &mut K,
    ) -> Result<bool, SinkFault>
        ensures { Gives (RefusesLine fault.now number self.old)
            (written (K.held sink.old) (K.faults sink.old) out.old)
            (written (K.held sink.new) (K.faults sink.new) out.new) result self.new }
    {
        match refusal_of_fault(fault) {
            Some(reason) => write_refusal(number, &reason, text, out, sink),
            None => Err(SinkFault::Memory(AllocError)),
        }
    }

    /// Answers the line of this number, by its head, with the answer put together in this memory.
    fn answer_in<R: Runtime + 'static, K: Sink>(
        &mut self,
        rt: &R,
        number: u32,
        line: &[u8],
        text: &mut Vec<u8>,
        out: &mut Answers,
        sink: &mut K,
    ) -> Result<bool, SinkFault>
    where
        G: 'static,
        ensures { Gives (ToHead SessionAnswers self.old number line.now)
            (written (K.held sink.old) (K.faults sink.old) out.old)
            (written (K.held sink.new) (K.faults sink.new) out.new) result self.new }
    {
        match read_line(self.domain.alloc(), line) {
            Ok(Line::Nothing) => Ok(false),
            Ok(Line::Word(command)) => self.carry_out(rt, number, command, text, out, sink),
            Ok(Line::Try(question)) => self.try_out(rt, number, question, text, out, sink),
            Err(fault) => self.refuse(number, &fault, text, out, sink),
        }
    }

    /// Answers the line of this number, by its head: at most its first 140,001 bytes. Was it refused?
    pub(crate) fn answer<R: Runtime + 'static, K: Sink>(
        &mut self,
        rt: &R,
        number: u32,
        line: &[u8],
        out: &mut Answers,
        sink: &mut K,
    ) -> Result<bool, SinkFault>
    where
        G: 'static,
        ensures { Gives (ToHead SessionAnswers self.old number line.now)
            (written (K.held sink.old) (K.faults sink.old) out.old)
            (written (K.held sink.new) (K.faults sink.new) out.new) result self.new }
    {
        let mut text = replace(&mut self.text, Vec::new(self.domain.alloc()));
        let answered = self.answer_in(rt, number, line, &mut text, out, sink);
        self.text = text;
        answered
    }

    /// Does work run?
    fn works(&self) -> bool
        ensures { result ≡ is_running self.now.work }
    {
        match &self.work {
            Work::Idle => false,
            Work::Holds(_) | Work::Watches(_) => true,
        }
    }

    /// Ends the script: where work runs it is joined, and its reports are written as a `join` line would have it.
    pub(crate) fn finish<R: Runtime + 'static, K: Sink>(
        &mut self,
        rt: &R,
        out: &mut Answers,
        sink: &mut K,
    ) -> Result<bool, SinkFault>
        ensures { Gives (AtEnd SessionEnds self.old)
            (written (K.held sink.old) (K.faults sink.old) out.old)
            (written (K.held sink.new) (K.faults sink.new) out.new) result self.new }
    {
        if !self.works() {
            return Ok(false);
        }
        let mut text = Vec::new(self.domain.alloc());
        match self.join(rt, &mut text) {
            Ok(()) => accepted(out.put(sink, &text)),
            Err(error) => Err(SinkFault::Memory(error)),
        }
    }

    /// Joins work that still runs, gives up what it found, and gives the usage and the counter back.
    pub(crate) fn end(self, rt: &impl Runtime) -> (Usage, Steps<L>)
        ensures usage { result.0 ≡ self.usage }
        ensures searches { result.1 ≡ self.searches }
    {
        let ScriptSession {
            domain: _domain,
            work,
            usage,
            steps,
            gate: _gate,
            text: _text,
        } = self;
        work.give_up(rt);
        (usage, steps)
    }
}
