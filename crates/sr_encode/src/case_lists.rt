//! What is listed in a case, however deep.
ghost use Rattle.std.specs.Prelude.{◌≡◌, ◌↔◌, ◌<◌, ◌≤◌, ℕ, [], List, length, All, IfOk, IsTrue, MatchOption};
ghost use Rattle.sr_model.specs.declared.repair.Segment.{Segment};
ghost use Rattle.sr_model.specs.Case.{IsCase, IsAffected, source_of};
ghost use Rattle.sr_graph.specs.Ranges.{HoldsLinks};
ghost use Rattle.sr_laws.specs.Listed.{IsCaseListed};
ghost use Rattle.sr_encode.specs.declared.answers.NodeAnswer.{NodeAnswer as Entry};
ghost use Rattle.sr_encode.specs.declared.kept.Kept.{Kept};
ghost use Rattle.sr_encode.specs.Answered.{AreAnswers, AscendByNode, NoAnswer, answer_at, counts_in, destination_at, node_answer_at};
ghost use Rattle.sr_encode.specs.Codes.{AreCodes};
ghost use Rattle.sr_encode.specs.Kept.{AreKeptWithin, entries};
ghost use Rattle.sr_encode.specs.Limited.{limited_entries, limited_entry};
ghost use Rattle.sr_encode.specs.Placed.{listed_from, ArePlacedLists, HasLinkNumber, HaveLinkNumbers, AreNotBefore};
ghost use Rattle.sr_encode.specs.Renumbered.{moved_entries};

use crate::answers::{CaseAnswers, NodeAnswer};
use crate::codes::Codes;
use crate::kept::{Kept, Outcome, limited_answer, listed_answer};
use crate::limit::{are_let_through, limit_at};
use crate::renumbered::{
    Renumbering, copied_answers, keep_numbers, keep_places, moved_outcomes, moved_segments,
};
use sr_graph::Graph;
use sr_labels::Net;
use sr_model::{Answer, Case, Counts, LinkNo, NodeNo, Segment};
use std::alloc::{AllocError, Global};
use std::marker::Model;

/// For how many destinations there is a list, no path and no list, whatever the segments and the first links.
fn counted(outcomes: &[Outcome], list: &[Kept]) -> Counts
    requires few { length list.now ≤ 256 }
    requires outcomes { All (λ (k : Kept). k.outcome < length outcomes.now) list.now }
    ensures { (segments : List Segment) (start : ℕ) →
        result ≡ counts_in (entries segments outcomes.now list.now start) }
{
    let mut counts = Counts {
        covered: 0,
        nopath: 0,
        nolist: 0,
        toodeep: 0,
    };
    for kept in list {
        match outcomes[kept.outcome as usize] {
            Outcome::Least { .. } => counts.covered += 1,
            Outcome::NoPath => counts.nopath += 1,
            Outcome::NoList => counts.nolist += 1,
        }
    }
    counts
}

/// The link at which those of the source of the case begin.
fn start_of(graph: &Graph, case: Case) -> LinkNo
    requires { IsCase graph.now case }
    ensures { (end : ℕ) × HoldsLinks graph.now (source_of graph.now case) result.0 end }
{
    let source = graph.edge(case.link).from;
    LinkNo(graph.links_from(source).first)
}

/// What is listed for the affected destinations of a case, in order of destination: the least list, however many segments
/// it has, or why there is none. How deep a list may be is decided when an answer is read, so a change of that leaves what
/// is listed. A first link is told by its place among the links of the source, so links that come and go elsewhere leave it
/// too. Contracts see a listing, which is a list of answers, none of them too deep, once it is known at which number the
/// links of the source begin.
#[derive(Debug, Drop)]
pub struct CaseLists {
    kept: Vec<Kept>,
    /// What destinations share.
    outcomes: Vec<Outcome>,
    /// The segments of the lists, one list after the other.
    segments: Vec<Segment>,
    /// For how many destinations there is each, so that an audit needn't count them again.
    counts: Counts,
}

impl Model for CaseLists {
    ghost use Rattle.std.specs.Prelude.{◌≡◌, ◌≤◌, ℕ, length};
    ghost use Rattle.sr_encode.specs.Answered.{AscendByNode, counts_in};
    ghost use Rattle.sr_encode.specs.Kept.{AreKeptWithin, entries};
    ghost use Rattle.sr_encode.specs.Placed.{Listing};

    ghost Value = { Listing };

    ghost view = { λ a. record { segments = a.segments.items; outcomes = a.outcomes.items; kept = a.kept.items } };

    ghost invariant = { λ a. AreKeptWithin a.segments.items a.outcomes.items a.kept.items
        × ((start : ℕ) → AscendByNode (entries a.segments.items a.outcomes.items a.kept.items start))
        × ((start : ℕ) → a.counts ≡ counts_in (entries a.segments.items a.outcomes.items a.kept.items start))
        × (length a.kept.items ≤ 256) };
}

impl CaseLists {
    /// What is listed so, in order of destination. There is at most one entry for each node.
    pub(crate) fn new(kept: Vec<Kept>, outcomes: Vec<Outcome>, segments: Vec<Segment>) -> CaseLists
        requires within { AreKeptWithin segments.items outcomes.items kept.items }
        requires ascending { (start : ℕ) → AscendByNode (entries segments.items outcomes.items kept.items start) }
        requires few { length kept.items ≤ 256 }
        ensures { result ≡ record { segments = segments.items; outcomes = outcomes.items; kept = kept.items } }
    {
        let counts = counted(&outcomes, &kept);
        CaseLists {
            kept,
            outcomes,
            segments,
            counts,
        }
    }

    /// What is listed in a case that affects no destination.
    pub fn none(alloc: Global) -> CaseLists
        ensures { (start : ℕ) → listed_from start result ≡ [] }
    {
        CaseLists::new(Vec::new(alloc), Vec::new(alloc), Vec::new(alloc))
    }

    /// Whether the same is listed so where links have these numbers. It is so unless a link of the source has another place
    /// or an adjacency segment another number.
    pub fn keeps_numbers(&self, numbers: &Renumbering<'_>) -> bool
        requires numbers { HaveLinkNumbers (listed_from numbers.now.before.0 self.now) }
        ensures { IsTrue result → listed_from numbers.now.after.0 self.now
            ≡ moved_entries numbers.now.links.now (listed_from numbers.now.before.0 self.now) }
    {
        keep_places(&self.outcomes, numbers) && keep_numbers(&self.segments, numbers.links)
    }

    /// The same where links have these numbers: each link that the list has a number for gets it.
    pub fn renumbered(
        &self,
        alloc: Global,
        numbers: &Renumbering<'_>,
    ) -> Result<CaseLists, AllocError>
        requires numbers { HaveLinkNumbers (listed_from numbers.now.before.0 self.now) }
        requires begin { AreNotBefore numbers.now.after.0
            (moved_entries numbers.now.links.now (listed_from numbers.now.before.0 self.now)) }
        ensures { IfOk result (λ moved. listed_from numbers.now.after.0 moved
            ≡ moved_entries numbers.now.links.now (listed_from numbers.now.before.0 self.now)) }
    {
        Ok(CaseLists {
            kept: copied_answers(alloc, &self.kept)?,
            outcomes: moved_outcomes(alloc, &self.outcomes, numbers)?,
            segments: moved_segments(alloc, &self.segments, numbers.links)?,
            counts: self.counts,
        })
    }

    /// The answers of the case, whose lists these are: a list is too deep where the source doesn't let it through (RFC 8491,
    /// 5; this project's rule).
    pub fn answers(&self, net: &Net, case: Case) -> CaseAnswers<'_>
        requires case { IsCase net.now.graph case }
        requires lists { ArePlacedLists net.now case self.now }
        ensures { AreAnswers net.now case result }
    {
        let graph = net.graph();
        let source = graph.edge(case.link).from;
        CaseAnswers::new(self, start_of(graph, case), limit_at(net, source))
    }

    /// How many destinations there are.
    pub(crate) fn count(&self) -> usize
        ensures count { (start : ℕ) → result ≡ length (listed_from start self.now) }
        ensures few { result ≤ 256 }
    {
        self.kept.len()
    }

    /// The answer at this place, in order of destination, where the links of the source begin at this one, and lists of fewer
    /// segments than the limit are let through.
    pub(crate) fn limited_at(&self, start: LinkNo, place: usize, limit: u16) -> NodeAnswer<'_>
        requires place { place < length (listed_from start.0 self.now) }
        requires number { HasLinkNumber (answer_at (listed_from start.0 self.now) place) }
        ensures { result ≡ limited_entry limit (node_answer_at (listed_from start.0 self.now) place) }
    {
        let kept = self.kept[place];
        let outcome = self.outcomes[kept.outcome as usize];
        NodeAnswer {
            destination: kept.destination,
            answer: limited_answer(start, outcome, kept.cost, &self.segments, limit),
        }
    }

    /// The codes of what is listed, in its order. Two destinations with one code differ at most in their costs.
    pub(crate) fn codes(&self) -> Codes<'_>
        ensures { (start : ℕ) → AreCodes (listed_from start self.now) result }
    {
        Codes::new(&self.kept)
    }

    /// For how many destinations there is a list, no path and no list. None is too deep.
    pub(crate) fn counts(&self) -> Counts
        ensures counts { (start : ℕ) → result ≡ counts_in (listed_from start self.now) }
        ensures flat { result.toodeep ≡ 0 }
    {
        self.counts
    }

    /// Whether each list has fewer segments than the limit: then the answers are what is listed.
    pub(crate) fn are_let_through(&self, limit: u16) -> bool
        ensures { (start : ℕ) →
            IsTrue result ↔ (limited_entries limit (listed_from start self.now) ≡ listed_from start self.now) }
    {
        are_let_through(&self.outcomes, limit)
    }

    /// The place of the destination. None exactly where it isn't there.
    pub(crate) fn place_of(&self, destination: NodeNo) -> Option<usize>
        ensures { (start : ℕ) → MatchOption result
            (NoAnswer (listed_from start self.now) destination.0)
            (λ place. (place < length (listed_from start self.now))
            × (destination_at (listed_from start self.now) place ≡ destination.0)) }
    {
        match self
            .kept
            .binary_search_by_key(&destination.0, |kept| kept.destination.0)
        {
            Ok(place) => Some(place),
            Err(_) => None,
        }
    }

    /// What is listed at this place, in order of destination, where the links of the source begin at this one.
    fn listed_at(&self, start: LinkNo, place: usize) -> Answer<'_>
        requires place { place < length (listed_from start.0 self.now) }
        requires number { HasLinkNumber (answer_at (listed_from start.0 self.now) place) }
        ensures { result ≡ answer_at (listed_from start.0 self.now) place }
    {
        let kept = self.kept[place];
        let outcome = self.outcomes[kept.outcome as usize];
        listed_answer(start, outcome, kept.cost, &self.segments)
    }

    /// What is listed for the destination in the case, whose lists these are, however deep. None exactly where the case doesn't
    /// affect it.
    pub fn listed(&self, net: &Net, case: Case, destination: NodeNo) -> Option<Answer<'_>>
        requires case { IsCase net.now.graph case }
        requires lists { ArePlacedLists net.now case self.now }
        ensures { MatchOption result
            (IsAffected net.now case destination.0 → ⊥)
            (λ answer. IsAffected net.now case destination.0 × IsCaseListed net.now case destination.0 answer) }
    {
        let start = start_of(net.graph(), case);
        match self.place_of(destination) {
            Some(place) => Some(self.listed_at(start, place)),
            None => None,
        }
    }
}
