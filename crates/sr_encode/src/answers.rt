//! The answers of a case, and how they are found by destination.
ghost use Rattle.std.specs.Prelude.{◌≡◌, ◌<◌, ◌≤◌, length, count_by, MatchOption};
ghost use Rattle.sr_model.specs.Audit.{is_too_deep};
ghost use Rattle.sr_encode.specs.declared.answers.NodeAnswer.{NodeAnswer as Entry};
ghost use Rattle.sr_encode.specs.Answered.{HasAnswer, NoAnswer, answer_at, counts_in, node_answer_at};
ghost use Rattle.sr_encode.specs.Codes.{AreCodes};
ghost use Rattle.sr_encode.specs.Limited.{limited_entries};
ghost use Rattle.sr_encode.specs.Placed.{listed_from, HaveLinkNumbers};

use crate::case_lists::CaseLists;
use crate::codes::Codes;
use sr_model::{Answer, Counts, LinkNo, NodeNo};
use std::marker::Model;

/// The answer for a destination.
#[derive(Debug, Drop)]
pub struct NodeAnswer<'a> {
    pub destination: NodeNo,
    pub answer: Answer<'a>,
}

/// The answers of a case, in order of destination: what is listed, of which the source lets through the lists that have
/// fewer segments than a limit. Contracts see them as their list.
#[derive(Debug, Drop)]
pub struct CaseAnswers<'a> {
    lists: &'a CaseLists,
    /// The link at which those of the source begin.
    start: LinkNo,
    limit: u16,
}

impl<'a> Model for CaseAnswers<'a> {
    ghost use Rattle.std.specs.Prelude.{List};
    ghost use Rattle.sr_encode.specs.declared.answers.NodeAnswer.{NodeAnswer as Entry};
    ghost use Rattle.sr_encode.specs.Limited.{limited_entries};
    ghost use Rattle.sr_encode.specs.Placed.{listed_from, HaveLinkNumbers};

    ghost Value = { List Entry };

    ghost view = { λ a. limited_entries a.limit (listed_from a.start.0 a.lists.now) };

    ghost invariant = { λ a. HaveLinkNumbers (listed_from a.start.0 a.lists.now) };
}

impl<'a> CaseAnswers<'a> {
    /// The answers where these are listed, the links of the source begin at this one, and lists of fewer segments than the
    /// limit are let through.
    pub(crate) fn new(lists: &'a CaseLists, start: LinkNo, limit: u16) -> CaseAnswers<'a>
        requires { HaveLinkNumbers (listed_from start.0 lists.now) }
        ensures { result ≡ limited_entries limit (listed_from start.0 lists.now) }
    {
        CaseAnswers {
            lists,
            start,
            limit,
        }
    }

    /// How many answers there are.
    pub fn count(&self) -> usize
        ensures count { result ≡ length self.now }
        ensures few { result ≤ 256 }
    {
        self.lists.count()
    }

    /// The answer at this place, in order of destination.
    pub fn at(&self, place: usize) -> NodeAnswer<'a>
        requires { place < length self.now }
        ensures { result ≡ node_answer_at self.now place }
    {
        self.lists.limited_at(self.start, place, self.limit)
    }

    /// The codes of the answers, in their order. Two answers with one code differ at most in their costs.
    pub fn codes(&self) -> Codes<'a>
        ensures { AreCodes self.now result }
    {
        self.lists.codes()
    }

    /// Whether the answer at this place is too deep.
    fn is_deep_at(&self, place: usize) -> bool
        requires { place < length self.now }
        ensures { result ≡ is_too_deep (answer_at self.now place) }
    {
        match self.at(place).answer {
            Answer::TooDeep { .. } => true,
            Answer::Least(_) | Answer::NoPath | Answer::NoList => false,
        }
    }

    /// How many of the answers are too deep.
    fn deep_count(&self) -> u32
        ensures { result ≡ count_by (λ (e : Entry). is_too_deep e.answer) self.now }
    {
        let mut count = 0;
        for place in 0..self.count() {
            if self.is_deep_at(place) {
                count += 1;
            }
        }
        count
    }

    /// How many of the answers are lists, no path, no list and too deep.
    pub fn counts(&self) -> Counts
        ensures { result ≡ counts_in self.now }
    {
        let listed = self.lists.counts();
        // Mostly no list is too deep.
        if self.lists.are_let_through(self.limit) {
            return listed;
        }
        let toodeep = self.deep_count();
        Counts {
            covered: listed.covered - toodeep,
            nopath: listed.nopath,
            nolist: listed.nolist,
            toodeep,
        }
    }

    /// The answer for the destination. None exactly where there is none for it.
    pub fn answer_for(&self, destination: NodeNo) -> Option<Answer<'a>>
        ensures { MatchOption result (NoAnswer self.now destination.0) (HasAnswer self.now destination.0) }
    {
        match self.lists.place_of(destination) {
            Some(place) => Some(self.at(place).answer),
            None => None,
        }
    }
}
