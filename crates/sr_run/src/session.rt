//! The session: the facts that a script edits, the versions of the last two commits, and the certificate that is open.
ghost use Rattle.std.specs.Prelude.{◌≡◌, MatchOption};
ghost use Rattle.sr_script.specs.LineSays.{IsMemory};
ghost use Rattle.sr_engine.specs.Written.{written};
ghost use Rattle.sr_run.specs.Session.{IsRefusedAs, version_links, version_nodes};
ghost use Rattle.sr_run.specs.Handlers.{IsNoRefusal, IsReply, WritesRefusal};

use crate::account::begin_asides;
use crate::audits::begin_audit;
use crate::edits::LinkEdit;
use crate::kept::{KeptVersion, last_number, last_version};
use crate::stop::Stop;
use sr_base::{Runtime, Sink, SinkFault};
use sr_cert::CertDraft;
use sr_engine::Answers;
use sr_lsdb::{Editor, Facts};
use sr_print::{Refusal, put_refused, put_show};
use sr_script::{Command, LineFault};
use std::alloc::Global;
use std::marker::Model;

/// The facts that a script edits, the version of the last accepted commit, that of the one before, and the certificate
/// that is open, where one is. Contracts see these alone.
#[derive(Drop)]
pub(crate) struct DomainSession {
    pub(crate) alloc: Global,
    pub(crate) editor: Editor,
    pub(crate) current: KeptVersion,
    pub(crate) previous: KeptVersion,
    pub(crate) draft: Option<CertDraft>,
}

/// How a command is answered.
#[derive(Debug, Drop, Clone, Copy)]
pub(crate) enum Reply {
    /// By what was appended.
    Text,
    /// By the audit of the last version, which is written case by case.
    Audit,
    /// By what of the accepted facts isn't used: so much, which is written LSP by LSP.
    Asides(u64),
}

impl Model for DomainSession {
    ghost use Rattle.sr_run.specs.State.{State, IsKeptState};

    ghost Value = { State };

    ghost view = { λ s.
        record { editing = s.editor; current = s.current; previous = s.previous; draft = s.draft } };

    ghost invariant = { λ s.
        IsKeptState (record { editing = s.editor; current = s.current; previous = s.previous; draft = s.draft }) };
}

/// Writes the refusal of the line of this number.
pub(crate) fn write_refusal<K: Sink>(
    number: u32,
    reason: &Refusal,
    text: &mut Vec<u8>,
    out: &mut Answers,
    sink: &mut K,
) -> Result<bool, SinkFault>
    ensures { WritesRefusal number reason.now
        (written (K.held sink.old) (K.faults sink.old) out.old)
        (written (K.held sink.new) (K.faults sink.new) out.new) result }
{
    text.clear();
    match put_refused(number, reason, text) {
        Ok(()) => match out.put(sink, text) {
            Ok(()) => Ok(true),
            Err(fault) => Err(fault),
        },
        Err(error) => Err(SinkFault::Memory(error)),
    }
}

/// The refusal of a line that says no command. None exactly where memory ran out.
pub(crate) fn refusal_of_fault(fault: &LineFault) -> Option<Refusal>
    ensures { MatchOption result (IsMemory fault.now) (IsRefusedAs fault.now) }
{
    match fault {
        LineFault::TooLong => Some(Refusal::LineTooLong),
        LineFault::UnknownWord => Some(Refusal::UnknownWord),
        LineFault::BadForm => Some(Refusal::BadForm),
        LineFault::BadHex => Some(Refusal::BadHex),
        LineFault::Memory(_) => None,
    }
}

/// That a line whose answer was written was not refused, or the fault.
pub(crate) fn accepted(written: Result<(), SinkFault>) -> Result<bool, SinkFault>
    ensures { IsNoRefusal written result }
{
    match written {
        Ok(()) => Ok(false),
        Err(fault) => Err(fault),
    }
}

/// How a command is answered whose answer was appended, or why there is none.
pub(crate) fn replied(told: Result<(), Stop>) -> Result<Reply, Stop>
    ensures { IsReply told result }
{
    match told {
        Ok(()) => Ok(Reply::Text),
        Err(stop) => Err(stop),
    }
}

/// How many nodes and links a net has.
#[derive(Clone, Copy, Debug)]
struct NetSize {
    nodes: u32,
    links: u32,
}

/// How many nodes and links the net of the last version has: none before the first.
fn size_of(current: &KeptVersion) -> NetSize
    ensures nodes { result.nodes ≡ version_nodes current.now }
    ensures links { result.links ≡ version_links current.now }
{
    match last_version(current) {
        Ok(version) => NetSize {
            nodes: version.net().graph().node_count(),
            links: version.net().graph().link_count(),
        },
        Err(_) => NetSize { nodes: 0, links: 0 },
    }
}

impl DomainSession {
    ghost use Rattle.sr_script.specs.declared.command.Command.TheVariants.{Show};
    ghost use Rattle.sr_run.specs.Domain.{opening_domain};
    ghost use Rattle.sr_run.specs.State.{state_of};
    ghost use Rattle.sr_run.specs.Handlers.{CarriesOut, IsAsked, IsOfDomain, IsOfText, IsUncertified, RepliesTo};

    /// A session before its first line.
    pub(crate) fn new(alloc: Global) -> DomainSession
        ensures { result ≡ state_of opening_domain }
    {
        DomainSession {
            alloc,
            editor: Editor::new(alloc),
            current: KeptVersion::none(),
            previous: KeptVersion::none(),
            draft: None,
        }
    }

    /// The allocator.
    pub(crate) fn alloc(&self) -> Global {
        self.alloc
    }

    /// The accepted facts.
    pub(crate) fn accepted_facts(&self) -> &Facts
        ensures { result.now ≡ self.now.editing.accepted }
    {
        self.editor.accepted()
    }

    /// The facts that the staged edits make of the accepted ones.
    pub(crate) fn tentative_facts(&self) -> &Facts
        ensures { result.now ≡ self.now.editing.tentative }
    {
        self.editor.tentative()
    }

    /// The last version, where there is one.
    pub(crate) fn current(&self) -> &KeptVersion
        ensures { result.now ≡ self.now.current }
    {
        &self.current
    }

    /// `show`: appends the last version, the accepted depth, and how many edits are staged.
    fn show(&self, out: &mut Vec<u8>) -> Result<(), Stop>
        ensures { CarriesOut Show self.now self.now out.old.items out.new.items result }
    {
        let size = size_of(&self.current);
        let depth = self.editor.accepted().depth;
        let staged = self.editor.staged();
        put_show(
            last_number(&self.current),
            size.nodes,
            size.links,
            depth,
            staged,
            out,
        )?;
        Ok(())
    }

    /// Carries out an edit, `drop`, `show` or `check`, or puts a question to the last version.
    fn tell_plain(
        &mut self,
        rt: &impl Runtime,
        command: Command,
        out: &mut Vec<u8>,
    ) -> Result<(), Stop>
        requires asked { IsAsked command }
        requires plain { IsUncertified command }
        ensures told { CarriesOut command self.old self.new out.old.items out.new.items result }
        ensures current { self.new.current ≡ self.old.current }
    {
        match command {
            Command::Lsp { octets } => self.lsp(octets.as_slice(), out),
            Command::Cost { link, metric } => self.edit_link(&link, LinkEdit::Cost(metric), out),
            Command::Down { link } => self.edit_link(&link, LinkEdit::Down, out),
            Command::Up { link } => self.edit_link(&link, LinkEdit::Up, out),
            Command::Depth { depth } => self.depth(depth, out),
            Command::DropStaged => self.drop_staged(out),
            Command::Show => self.show(out),
            Command::Check => self.check(out),
            other => self.ask_last(rt, other, out),
        }
    }

    /// Carries out a command that leaves background work alone, searches for no distances, and whose answer is appended.
    fn tell_text(
        &mut self,
        rt: &impl Runtime,
        command: Command,
        out: &mut Vec<u8>,
    ) -> Result<(), Stop>
        requires asked { IsAsked command }
        requires text { IsOfText command }
        ensures told { CarriesOut command self.old self.new out.old.items out.new.items result }
        ensures current { self.new.current ≡ self.old.current }
    {
        match command {
            Command::ProofOpen { repair: name } => self.proof_open(&name, out),
            Command::ProofVia { link } => self.proof_via(&link, out),
            Command::ProofNode { node } => self.proof_node(node, out),
            Command::ProofAdj { link } => self.proof_adj(&link, out),
            Command::ProofRow { cells } => self.proof_row(cells, out),
            Command::ProofDone { labels } => self.proof_done(labels, out),
            other => self.tell_plain(rt, other, out),
        }
    }

    /// Carries out a command that leaves background work alone and searches for no distances, and appends the answer; of
    /// `audit full` and `aside` nothing is appended.
    pub(crate) fn tell(
        &mut self,
        rt: &impl Runtime,
        command: Command,
        out: &mut Vec<u8>,
    ) -> Result<Reply, Stop>
        requires asked { IsAsked command }
        requires domain { IsOfDomain command }
        ensures told { RepliesTo command self.old self.new out.old.items out.new.items result }
        ensures current { self.new.current ≡ self.old.current }
    {
        match command {
            Command::AuditFull => begin_audit(&self.current),
            Command::Aside => {
                match begin_asides(self.alloc, self.editor.accepted(), &self.current) {
                    Ok(count) => Ok(Reply::Asides(count)),
                    Err(stop) => Err(stop),
                }
            }
            other => replied(self.tell_text(rt, other, out)),
        }
    }
}
