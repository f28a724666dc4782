//! `commit`: the tentative facts become the accepted ones, and their net the next version.
ghost use Rattle.std.specs.Prelude.{◌≡◌, ◌+◌, ◌<◌, ◌++◌, IfOk, IfSome, MatchResult, OnErr, OnOk};
ghost use Rattle.sr_model.specs.Graph.{node_count, link_count};
ghost use Rattle.sr_domain.specs.Rules.{IsFirstBrokenRule};
ghost use Rattle.sr_print.specs.Printed.{version_line};
ghost use Rattle.sr_repair.specs.Version.{version_of};
ghost use Rattle.sr_run.specs.Domain.{number_of};
ghost use Rattle.sr_run.specs.State.{IsKeptState, IsNextVersion, with_next_version};
ghost use Rattle.sr_run.specs.Searches.{CountsCommitWork};
ghost use Rattle.sr_run.specs.Handlers.{CommitsVersion, CountsCommit, CountsMaking};

use crate::kept::{KeptVersion, last_number, last_version};
use crate::session::DomainSession;
use crate::stop::Stop;
use sr_base::Runtime;
use sr_domain::{DomainFault, net_of};
use sr_labels::Net;
use sr_model::{DomainRule, MOST_VERSION};
use sr_print::{Refusal, put_version};
use sr_repair::Version;
use sr_spf::Steps;
use std::alloc::{AllocError, Global};
use std::mem::replace;
use std::sync::ledger::Ledger;

/// The version of this net after the last one. The searches are counted whether it is made or memory runs out.
fn version_after<L: Ledger>(
    rt: &impl Runtime,
    alloc: Global,
    current: &KeptVersion,
    net: Net,
    steps: &mut Steps<L>,
) -> Result<Version, AllocError>
    requires { number_of current.now < MOST_VERSION }
    ensures version { IfOk result (λ version. version ≡ version_of (number_of current.now + 1) net) }
    ensures searches { CountsCommitWork current.now net steps.old steps.new }
{
    match last_version(current) {
        Ok(version) => version.next(rt, alloc, net, steps),
        Err(_) => Version::opening(rt, alloc, net, steps),
    }
}

impl DomainSession {
    /// The last version renewed, where the tentative facts say no more than the accepted ones did: its net is theirs too,
    /// but for the depth. None where they do, or nothing was committed yet. Fails only out of memory.
    fn renewed_version(&self) -> Result<Option<Version>, AllocError>
        requires { number_of self.now.current < MOST_VERSION }
        ensures { IfOk result (λ found. IfSome found (IsNextVersion self.now)) }
    {
        if !self.editor.says_the_same() {
            return Ok(None);
        }
        match last_version(&self.current) {
            Ok(version) => match version.renewed(self.editor.tentative().depth) {
                Ok(next) => Ok(Some(next)),
                Err(wanting) => Err(wanting),
            },
            Err(_) => Ok(None),
        }
    }

    /// Makes the version of the tentative facts, or answers the first rule that they break, for which nothing is searched.
    fn next_version<L: Ledger>(
        &self,
        rt: &impl Runtime,
        steps: &mut Steps<L>,
    ) -> Result<Result<Version, DomainRule>, AllocError>
        requires { number_of self.now.current < MOST_VERSION }
        ensures made { IfOk result (λ made. MatchResult made
            (IsNextVersion self.now)
            (IsFirstBrokenRule self.now.editing.tentative)) }
        ensures searches { CountsMaking self.now.current steps.old steps.new result }
    {
        let net = match net_of(self.alloc, self.editor.tentative()) {
            Ok(net) => net,
            Err(DomainFault::Rule(rule)) => return Ok(Err(rule)),
            Err(DomainFault::Memory(wanting)) => return Err(wanting),
        };
        match version_after(rt, self.alloc, &self.current, net, steps) {
            Ok(version) => Ok(Ok(version)),
            Err(wanting) => Err(wanting),
        }
    }

    /// The version of the tentative facts, or the first rule that they break. Where they say the same as the accepted
    /// ones, as where PDUs were flooded anew, no net is made and nothing is searched.
    pub(crate) fn make_version<L: Ledger>(
        &self,
        rt: &impl Runtime,
        steps: &mut Steps<L>,
    ) -> Result<Result<Version, DomainRule>, AllocError>
        requires { number_of self.now.current < MOST_VERSION }
        ensures made { IfOk result (λ made. MatchResult made
            (IsNextVersion self.now)
            (IsFirstBrokenRule self.now.editing.tentative)) }
        ensures searches { CountsMaking self.now.current steps.old steps.new result }
    {
        match self.renewed_version() {
            Ok(Some(version)) => Ok(Ok(version)),
            Ok(None) => self.next_version(rt, steps),
            Err(wanting) => Err(wanting),
        }
    }

    /// Appends the number, nodes and links of a version, and accepts the tentative facts with it.
    fn accept(&mut self, version: Version, out: &mut Vec<u8>) -> Result<(), AllocError>
        requires { IsKeptState (with_next_version self.old version) }
        ensures said { OnOk result (out.new.items ≡ out.old.items ++
            version_line version.number (node_count version.net.graph) (link_count version.net.graph)) }
        ensures accepted { OnOk result (self.new ≡ with_next_version self.old version) }
        ensures kept { OnErr result (self.new ≡ self.old) }
    {
        let graph = version.net().graph();
        put_version(
            version.number(),
            graph.node_count(),
            graph.link_count(),
            out,
        )?;
        let current = KeptVersion::new(self.alloc, version)?;
        self.editor.accept();
        self.previous = replace(&mut self.current, current);
        // A certificate speaks of the version before.
        self.draft = None;
        Ok(())
    }

    /// `commit`: accepts the tentative facts with their net as the next version, or drops the staged edits and answers
    /// the first rule that they break.
    pub(crate) fn commit<L: Ledger>(
        &mut self,
        rt: &impl Runtime,
        steps: &mut Steps<L>,
        out: &mut Vec<u8>,
    ) -> Result<(), Stop>
        ensures version { CommitsVersion self.old self.new out.old.items out.new.items result }
        ensures searches { CountsCommit self.old self.new steps.old steps.new result }
    {
        if last_number(&self.current) >= MOST_VERSION {
            return Err(Stop::Refused(Refusal::VersionsFull));
        }
        match self.make_version(rt, steps)? {
            Ok(version) => Ok(self.accept(version, out)?),
            Err(rule) => {
                let _dropped = self.editor.drop_staged();
                Err(Stop::Refused(Refusal::Rule(rule)))
            }
        }
    }
}
