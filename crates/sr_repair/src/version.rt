//! A version: the net of an accepted commit, with what is computed of it.
ghost use Rattle.std.specs.Prelude.{◌≡◌, ℕ, ◌+◌, ◌*◌, ◌<◌, ◌≤◌, IfOk, MatchOption};
ghost use Rattle.sr_model.specs.Case.{IsCase, IsAffected};
ghost use Rattle.sr_model.specs.declared.limits.TheConstants.{MOST_DEPTH, MOST_VERSION};
ghost use Rattle.sr_model.specs.Graph.{node_count, link_count};
ghost use Rattle.sr_model.specs.Repair.{IsCaseAnswer};
ghost use Rattle.sr_model.specs.Rule.{IsNet};
ghost use Rattle.sr_labels.specs.Depth.{with_depth};
ghost use Rattle.sr_spf.specs.Trees.{AreTrees};
ghost use Rattle.sr_fib.specs.Tables.{IsFib};
ghost use Rattle.sr_encode.specs.Answered.{AreAnswers};
ghost use Rattle.sr_repair.specs.Answers.{IsAnswered};
ghost use Rattle.sr_laws.specs.Listed.{IsCaseListed};
ghost use Rattle.sr_repair.specs.Version.{version_of};
ghost use Rattle.sr_repair.specs.Stack.{HasNoList, IsStackOf};
ghost use Rattle.sr_repair.specs.Work.{IsWithinWork};

use crate::computed::Computed;
use crate::stack::list_labels;
use sr_base::Numbered;
use sr_encode::CaseAnswers;
use sr_fib::Fib;
use sr_labels::Net;
use sr_model::{Answer, Case, NodeNo};
use sr_spf::{Steps, Trees};
use std::alloc::{AllocError, Global};
use std::marker::Model;
use std::sync::ledger::Ledger;
use std::thread::Threads;

/// The net of an accepted commit, with its number, its trees, its label tables and the answers of all cases. Contracts
/// see it as number and net: the rest is determined by these. Versions whose nets differ in depth alone share all but
/// that and their numbers.
#[derive(Drop)]
pub struct Version {
    number: u32,
    computed: Computed,
}

impl Model for Version {
    ghost use Rattle.sr_repair.specs.Version.{NumberedNet, version_of};

    ghost Value = { NumberedNet };

    ghost view = { λ v. version_of v.number v.computed };
}

impl Numbered for Version {
    ghost number_of = { λ v. v.number };

    fn number(&self) -> u32 {
        self.number
    }
}

impl Version {
    /// The first version, of this net. At most one search is counted for each node, and one for each case. The cases are
    /// split among threads where there are any.
    pub fn opening<L: Ledger>(
        rt: &(impl Threads + Sync),
        alloc: Global,
        net: Net,
        steps: &mut Steps<L>,
    ) -> Result<Version, AllocError>
        ensures version { IfOk result (λ v. v ≡ version_of 1 net) }
        ensures most { steps.new ≤ steps.old + node_count net.graph + 3 * link_count net.graph }
        ensures least { steps.old ≤ steps.new }
    {
        let computed = Computed::of(rt, alloc, net, steps)?;
        Ok(Version {
            number: 1,
            computed,
        })
    }

    /// The version after this one, of this net: the same as `opening` gives, but for the number. What stays from this
    /// version's net is taken over: at most one search is counted for each node whose tree doesn't stay, and one for each
    /// case that isn't an old case that is steady (this project's rule). Where the same is listed in both nets, all is
    /// shared, and none is counted.
    pub fn next<L: Ledger>(
        &self,
        rt: &(impl Threads + Sync),
        alloc: Global,
        net: Net,
        steps: &mut Steps<L>,
    ) -> Result<Version, AllocError>
        requires { self.now.number < MOST_VERSION }
        ensures version { IfOk result (λ v. v ≡ version_of (self.now.number + 1) net) }
        ensures searches { (w : ℕ) × (steps.new ≡ steps.old + w) × IsWithinWork self.now.net net w }
    {
        let computed = self.computed.next(rt, alloc, net, steps)?;
        Ok(Version {
            number: self.number + 1,
            computed,
        })
    }

    /// The version after this one, of the same net with this depth, counted in segments, at most 12: nothing is computed,
    /// and all but the number and the depth is shared. Fails only out of memory.
    pub fn renewed(&self, depth: u8) -> Result<Version, AllocError>
        requires number { self.now.number < MOST_VERSION }
        requires depth { depth ≤ MOST_DEPTH }
        ensures { IfOk result (λ v. v ≡ version_of (self.now.number + 1) (with_depth depth self.now.net)) }
    {
        let computed = self.computed.with_depth(depth)?;
        Ok(Version {
            number: self.number + 1,
            computed,
        })
    }

    /// The number, counted from 1.
    pub fn number(&self) -> u32
        ensures { result ≡ self.now.number }
    {
        self.number
    }

    /// The net.
    pub fn net(&self) -> &Net
        ensures value { result.now ≡ self.now.net }
        ensures net { IsNet self.now.net }
    {
        self.computed.net()
    }

    /// The distances and next hops of the net.
    pub fn trees(&self) -> &Trees
        ensures { AreTrees self.now.net.graph result.now }
    {
        self.computed.trees()
    }

    /// The label tables of the net.
    pub fn fib(&self) -> Fib<'_>
        ensures { IsFib self.now.net result }
    {
        self.computed.fib()
    }

    /// The answers of the case for the destinations that it affects, ascending.
    pub fn answers(&self, case: Case) -> CaseAnswers<'_>
        requires case { IsCase self.now.net.graph case }
        ensures { AreAnswers self.now.net case result }
    {
        self.computed.answers(case)
    }

    /// A law with nothing to run: each case has its answers.
    pub fn is_answered(&self)
        ensures { IsAnswered self.now.net }
    {
        self.computed.is_answered();
    }

    /// The answer of the case for the destination (this project's rule). None exactly where the destination isn't
    /// affected.
    pub fn repair(&self, case: Case, destination: NodeNo) -> Option<Answer<'_>>
        requires case { IsCase self.now.net.graph case }
        ensures { MatchOption result
            (IsAffected self.now.net case destination.0 → ⊥)
            (λ answer. IsAffected self.now.net case destination.0
            × IsCaseAnswer self.now.net case destination.0 answer) }
    {
        self.answers(case).answer_for(destination)
    }

    /// What is listed in the case for the destination, however deep: the least list also where it is too deep (this project's
    /// rule). None exactly where the destination isn't affected.
    pub fn listed(&self, case: Case, destination: NodeNo) -> Option<Answer<'_>>
        requires case { IsCase self.now.net.graph case }
        ensures { MatchOption result
            (IsAffected self.now.net case destination.0 → ⊥)
            (λ answer. IsAffected self.now.net case destination.0
            × IsCaseListed self.now.net case destination.0 answer) }
    {
        self.computed
            .lists(case)
            .listed(self.net(), case, destination)
    }

    /// The labels on the first link of the repair, the top last: they deliver, whichever equal-cost links the other nodes
    /// take. None exactly where the destination isn't affected, or its answer isn't a list.
    pub fn stack_of(
        &self,
        alloc: Global,
        case: Case,
        destination: NodeNo,
    ) -> Result<Option<Vec<u32>>, AllocError>
        requires case { IsCase self.now.net.graph case }
        ensures { IfOk result
            (λ found. MatchOption found
            (HasNoList self.now.net case destination.0)
            (λ labels. IsStackOf self.now.net case destination.0 labels.items)) }
    {
        let net = self.net();
        match self.repair(case, destination) {
            Some(answer) => list_labels(alloc, net, case, destination, &answer),
            None => Ok(None),
        }
    }
}
