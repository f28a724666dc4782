//! Sets of links.
ghost use Rattle.std.specs.Prelude.{◌≡◌, ℕ, ◌<◌, ◌≤◌, true, false, [], length, replicate, slice_set, IfOk, OnOk};
ghost use Rattle.sr_model.specs.Graph.{has};
ghost use Rattle.sr_graph.specs.Members.{number_at, IsInList, IsInRange, AreMembers, IsWidened};

use crate::ranges::LinkRange;
use sr_model::LinkNo;
use std::alloc::{AllocError, Global};
use std::marker::Model;

/// A set of links of a graph. Contracts see it as a list of tests, one for each link number; past the list's end no link
/// is in the set.
#[derive(Debug, Drop)]
pub struct LinkSet {
    tests: Vec<bool>,
    links: Vec<LinkNo>,
}

impl Model for LinkSet {
    ghost use Rattle.std.specs.Prelude.{List, Bool};
    ghost use Rattle.sr_graph.specs.Members.{AreMembers};

    ghost Value = { List Bool };

    ghost view = { λ a. a.tests.items };

    ghost invariant = { λ a. AreMembers a.tests.items a.links.items };
}

impl LinkSet {
    /// The empty set.
    pub(crate) fn empty(alloc: Global) -> LinkSet
        ensures { result ≡ [] }
    {
        LinkSet {
            tests: Vec::new(alloc),
            links: Vec::new(alloc),
        }
    }

    /// The empty set of links of a graph that has `link_count` links, with room for `room` of them.
    pub(crate) fn with_room(
        alloc: Global,
        link_count: usize,
        room: usize,
    ) -> Result<LinkSet, AllocError>
        ensures { IfOk result (λ set. set ≡ replicate link_count false) }
    {
        let tests = vec![in alloc; false; link_count]?;
        let links = Vec::with_capacity(alloc, room)?;
        Ok(LinkSet { tests, links })
    }

    /// Adds the link. A link is listed once, however often it is added.
    pub(crate) fn add(&mut self, link: LinkNo) -> Result<(), AllocError>
        requires { link.0 < length self.old }
        ensures { OnOk result (self.new ≡ slice_set self.old link.0 true) }
    {
        if self.has(link) {
            return Ok(());
        }
        self.links.push(link)?;
        self.tests[link.0 as usize] = true;
        Ok(())
    }

    /// Adds the links of the range.
    pub(crate) fn add_range(&mut self, range: LinkRange) -> Result<(), AllocError>
        requires { range.end ≤ length self.old }
        ensures { OnOk result (IsWidened self.old (IsInRange range.first range.end) self.new) }
    {
        for link in range.first..range.end {
            self.add(LinkNo(link))?;
        }
        Ok(())
    }

    /// Adds the listed links.
    pub(crate) fn add_listed(&mut self, links: &[LinkNo]) -> Result<(), AllocError>
        requires { (i : ℕ) → i < length links.now → number_at links.now i < length self.old }
        ensures { OnOk result (IsWidened self.old (IsInList links.now) self.new) }
    {
        for link in links {
            self.add(*link)?;
        }
        Ok(())
    }

    /// The links in the set, each once. Their order is not promised.
    pub fn links(&self) -> &[LinkNo]
        ensures { AreMembers self.now result.now }
    {
        &self.links
    }

    /// Whether the link is in the set.
    pub fn has(&self, link: LinkNo) -> bool
        ensures { result ≡ has self.now link.0 }
    {
        let place = link.0 as usize;
        place < self.tests.len() && self.tests[place]
    }
}
