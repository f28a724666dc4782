//! What is computed of a net: all of a version but its number.
ghost use Rattle.std.specs.Prelude.{◌≡◌, ℕ, ◌+◌, ◌*◌, ◌≤◌, true, IfOk};
ghost use Rattle.sr_model.specs.Case.{IsCase};
ghost use Rattle.sr_model.specs.declared.limits.TheConstants.{MOST_DEPTH};
ghost use Rattle.sr_model.specs.Graph.{node_count, link_count};
ghost use Rattle.sr_model.specs.Rule.{IsNet};
ghost use Rattle.sr_labels.specs.Depth.{with_depth};
ghost use Rattle.sr_spf.specs.Trees.{AreTrees};
ghost use Rattle.sr_fib.specs.Tables.{AreSids, IsFib};
ghost use Rattle.sr_encode.specs.Answered.{AreAnswers};
ghost use Rattle.sr_encode.specs.Placed.{ArePlacedLists};
ghost use Rattle.sr_delta.specs.Changes.{AreChanges};
ghost use Rattle.sr_laws.specs.Listed.{HaveSameLists};
ghost use Rattle.sr_repair.specs.Answers.{AreAllFound, IsAnswered, IsFound, case_count};
ghost use Rattle.sr_repair.specs.Work.{IsWithinWork};

use crate::answers::{Found, found_of, lists_of};
use crate::former::Former;
use crate::made::{Made, made_of};
use crate::setting::Setting;
use sr_delta::{Changes, changes, moved_distances, renewal};
use sr_encode::{CaseAnswers, CaseLists};
use sr_fib::{Fib, Sids};
use sr_labels::Net;
use sr_model::Case;
use sr_post::tails;
use sr_spf::{Steps, Trees};
use std::alloc::{AllocError, Global};
use std::marker::Model;
use std::sync::Arc;
use std::sync::ledger::Ledger;
use std::thread::Threads;

/// What nets share that differ at most in what no list depends on: the distances and next hops, the nodes and links by
/// their labels, and the records of all cases.
#[derive(Drop)]
struct SharedWork {
    trees: Trees,
    sids: Sids,
    found: Vec<Found>,
    /// What is listed in a case that affects no destination.
    none: CaseLists,
}

/// A net with its trees, its nodes and links by their labels, and the records of all cases. Contracts see it as the net:
/// the rest is determined by that.
#[derive(Drop)]
pub(crate) struct Computed {
    net: Net,
    shared: Arc<SharedWork>,
}

impl Model for Computed {
    ghost use Rattle.std.specs.Prelude.{◌≡◌, ℕ, []};
    ghost use Rattle.sr_encode.specs.Placed.{listed_from};
    ghost use Rattle.std.specs.Arc.{arc_value};
    ghost use Rattle.sr_model.specs.Label.{Net};
    ghost use Rattle.sr_spf.specs.Trees.{AreTrees};
    ghost use Rattle.sr_fib.specs.Tables.{AreSids};
    ghost use Rattle.sr_repair.specs.Answers.{AreAllFound, case_count};

    ghost Value = { Net };

    ghost view = { λ c. c.net };

    ghost invariant = { λ c. AreTrees c.net.graph (arc_value c.shared).trees
        × AreSids c.net (arc_value c.shared).sids
        × AreAllFound c.net (case_count c.net.graph) (arc_value c.shared).found.items
        × ((start : ℕ) → listed_from start (arc_value c.shared).none ≡ []) };
}

impl Computed {
    /// This net with these trees, and what was made of both.
    fn made(alloc: Global, net: Net, trees: Trees, made: Made) -> Result<Computed, AllocError>
        requires trees { AreTrees net.graph trees }
        requires sids { AreSids net made.sids }
        requires found { AreAllFound net (case_count net.graph) made.found.items }
        ensures { IfOk result (λ c. c ≡ net) }
    {
        let Made { sids, found } = made;
        let none = CaseLists::none(alloc);
        let work = SharedWork {
            trees,
            sids,
            found,
            none,
        };
        let shared = Arc::new(alloc, work)?;
        Ok(Computed { net, shared })
    }

    /// All that is computed of this net. At most one search is counted for each node, and one for each case. The cases
    /// are split among threads where there are any.
    pub(crate) fn of<L: Ledger>(
        rt: &(impl Threads + Sync),
        alloc: Global,
        net: Net,
        steps: &mut Steps<L>,
    ) -> Result<Computed, AllocError>
        ensures net { IfOk result (λ c. c ≡ net) }
        ensures most { steps.new ≤ steps.old + node_count net.graph + 3 * link_count net.graph }
        ensures least { steps.old ≤ steps.new }
    {
        let trees = Trees::build(rt, alloc, net.graph(), steps)?;
        let made = made_of(rt, alloc, &Setting::first(&net, &trees), steps)?;
        Computed::made(alloc, net, trees, made)
    }

    /// The distances and next hops of the net.
    pub(crate) fn trees(&self) -> &Trees
        ensures { AreTrees self.now.graph result.now }
    {
        &self.shared.trees
    }

    /// All that is computed of this net, which has the nodes of the net before, though not the same is listed. What stays
    /// from there is taken over.
    fn over<L: Ledger>(
        &self,
        rt: &(impl Threads + Sync),
        alloc: Global,
        net: Net,
        changes: &Changes,
        steps: &mut Steps<L>,
    ) -> Result<Computed, AllocError>
        requires changes { AreChanges self.now net changes.now }
        requires same { changes.now.same ≡ true }
        requires lists { HaveSameLists self.now net → ⊥ }
        ensures net { IfOk result (λ c. c ≡ net) }
        ensures searches { (w : ℕ) × (steps.new ≡ steps.old + w) × IsWithinWork self.now net w }
    {
        let tails = tails(alloc, self.net.graph())?;
        let old = self.trees();
        let renewal = renewal(alloc, net.graph(), changes, old)?;
        let trees = old.renew(rt, alloc, net.graph(), &renewal, changes.partners(), steps)?;
        let farther = moved_distances(alloc, old, &trees)?;
        let former = Former::new(
            self,
            &net,
            changes,
            &renewal.stays,
            &trees,
            &farther,
            &tails,
        );
        let setting = Setting::after(&net, &trees, former);
        let made = made_of(rt, alloc, &setting, steps)?;
        Computed::made(alloc, net, trees, made)
    }

    /// All that is computed of this net, in which the same is listed: it shares what was computed before.
    fn relabelled(&self, net: Net) -> Result<Computed, AllocError>
        requires { HaveSameLists self.now net }
        ensures { IfOk result (λ c. c ≡ net) }
    {
        let shared = Arc::try_clone(&self.shared)?;
        Ok(Computed { net, shared })
    }

    /// All that is computed of this net, with another depth, counted in segments, at most 12: it shares all.
    pub(crate) fn with_depth(&self, depth: u8) -> Result<Computed, AllocError>
        requires { depth ≤ MOST_DEPTH }
        ensures { IfOk result (λ c. c ≡ with_depth depth self.now) }
    {
        let net = self.net.with_depth(depth)?;
        self.relabelled(net)
    }

    /// All that is computed of the net after this one. Where the same is listed, all is shared, and no search is counted.
    /// What stays is taken over: at most one search is counted for each node whose tree doesn't stay, and one for each
    /// case that isn't an old case that is steady.
    pub(crate) fn next<L: Ledger>(
        &self,
        rt: &(impl Threads + Sync),
        alloc: Global,
        net: Net,
        steps: &mut Steps<L>,
    ) -> Result<Computed, AllocError>
        ensures net { IfOk result (λ c. c ≡ net) }
        ensures searches { (w : ℕ) × (steps.new ≡ steps.old + w) × IsWithinWork self.now net w }
    {
        if self.net.has_same_lists(&net) {
            return self.relabelled(net);
        }
        let changes = changes(alloc, &self.net, &net)?;
        if changes.same_nodes() {
            return self.over(rt, alloc, net, &changes, steps);
        }
        Computed::of(rt, alloc, net, steps)
    }

    /// The net.
    pub(crate) fn net(&self) -> &Net
        ensures value { result.now ≡ self.now }
        ensures net { IsNet self.now }
    {
        let _graph = self.net.graph();
        &self.net
    }

    /// The label tables of the net.
    pub(crate) fn fib(&self) -> Fib<'_>
        ensures { IsFib self.now result }
    {
        Fib::new(&self.net, &self.shared.trees, &self.shared.sids)
    }

    /// What is listed in the case for the destinations that it affects, ascending.
    pub(crate) fn lists(&self, case: Case) -> &CaseLists
        requires case { IsCase self.now.graph case }
        ensures { ArePlacedLists self.now case result.now }
    {
        let shared = &self.shared;
        lists_of(&self.net, &shared.found, &shared.none, case)
    }

    /// The answers of the case for the destinations that it affects, ascending.
    pub(crate) fn answers(&self, case: Case) -> CaseAnswers<'_>
        requires case { IsCase self.now.graph case }
        ensures { AreAnswers self.now case result }
    {
        self.lists(case).answers(&self.net, case)
    }

    /// The record of the case.
    pub(crate) fn found(&self, case: Case) -> &Found
        requires { IsCase self.now.graph case }
        ensures { IsFound self.now case result.now }
    {
        found_of(&self.net, &self.shared.found, case)
    }

    /// A law with nothing to run: each case has its answers.
    pub(crate) fn is_answered(&self)
        ensures { IsAnswered self.now }
    {
        let _graph = self.net.graph();
    }
}
