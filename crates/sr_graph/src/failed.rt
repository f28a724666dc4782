//! The links that fail in a case.
ghost use Rattle.std.specs.Prelude.{◌≡◌, ◌↔◌, ℕ, ◌<◌, ◌≤◌, true, length, IsTrue, IfOk, OnOk};
ghost use Rattle.sr_model.specs.declared.case.Kind.TheVariants.{Link as LinkKind, Node as NodeKind, Risk as RiskKind};
ghost use Rattle.sr_model.specs.Key.{IsSamePair};
ghost use Rattle.sr_model.specs.Graph.{link_count};
ghost use Rattle.sr_model.specs.Case.{IsCase, IsFailedSet, ShareGroup};
ghost use Rattle.sr_graph.specs.Failed.{AddsNothing, FailsAsLink};
ghost use Rattle.sr_graph.specs.Members.{number_at, IsInList, IsInRange, IsWidened};

use crate::graph::Graph;
use crate::link_set::LinkSet;
use crate::ranges::LinkRange;
use sr_model::{Case, Kind, LinkKey, LinkNo};
use std::alloc::{AllocError, Global};

/// Whether the names are those of one link or of two opposite links.
fn is_pair(one: &LinkKey, other: &LinkKey) -> bool
    ensures { (result ≡ true) ↔ IsSamePair one.now other.now }
{
    *one == *other || *one == other.mirrored()
}

impl Graph {
    /// Adds the links of the range that share a group with the protected link.
    fn add_sharing_in_range(
        &self,
        set: &mut LinkSet,
        protected: LinkNo,
        range: LinkRange,
    ) -> Result<(), AllocError>
        requires long { length set.old ≡ link_count self.now }
        requires within { range.end ≤ link_count self.now }
        requires protected { protected.0 < link_count self.now }
        ensures { OnOk result (IsWidened set.old
            (λ l. IsInRange range.first range.end l × ShareGroup self.now l protected.0) set.new) }
    {
        for link in range.first..range.end {
            if self.shares(LinkNo(link), protected) {
                set.add(LinkNo(link))?;
            }
        }
        Ok(())
    }

    /// Adds those of the listed links that share a group with the protected link.
    fn add_sharing_listed(
        &self,
        set: &mut LinkSet,
        protected: LinkNo,
        links: &[LinkNo],
    ) -> Result<(), AllocError>
        requires long { length set.old ≡ link_count self.now }
        requires within { (i : ℕ) → i < length links.now → number_at links.now i < link_count self.now }
        requires protected { protected.0 < link_count self.now }
        ensures { OnOk result (IsWidened set.old
            (λ l. IsInList links.now l × ShareGroup self.now l protected.0) set.new) }
    {
        for link in links {
            if self.shares(*link, protected) {
                set.add(*link)?;
            }
        }
        Ok(())
    }

    /// The links of the protected pair.
    fn failed_with_link(&self, alloc: Global, protected: LinkNo) -> Result<LinkSet, AllocError>
        requires { protected.0 < link_count self.now }
        ensures { IfOk result (IsFailedSet self.now (record { kind = LinkKind; link = protected })) }
    {
        let opposite = self.find(&self.link(protected).key.mirrored());
        let mut set = LinkSet::with_room(alloc, self.link_count() as usize, 2)?;
        set.add(protected)?;
        if let Some(link) = opposite {
            set.add(link)?;
        }
        Ok(set)
    }

    /// The links that begin or end where the protected link ends.
    fn failed_with_node(&self, alloc: Global, protected: LinkNo) -> Result<LinkSet, AllocError>
        requires { protected.0 < link_count self.now }
        ensures { IfOk result (IsFailedSet self.now (record { kind = NodeKind; link = protected })) }
    {
        let node = self.edge(protected).to;
        let beginning = self.links_from(node);
        let ending = self.links_to(node);
        let room = ending.len() + (beginning.end - beginning.first) as usize;
        let mut set = LinkSet::with_room(alloc, self.link_count() as usize, room)?;
        set.add_range(beginning)?;
        set.add_listed(ending)?;
        Ok(set)
    }

    /// The links of the protected pair, and those with an end where the protected link begins that share a group with it.
    fn failed_with_risk(&self, alloc: Global, protected: LinkNo) -> Result<LinkSet, AllocError>
        requires { protected.0 < link_count self.now }
        ensures { IfOk result (IsFailedSet self.now (record { kind = RiskKind; link = protected })) }
    {
        let mut set = self.failed_with_link(alloc, protected)?;
        // Most links have no group.
        if !self.groups(protected).is_empty() {
            let node = self.edge(protected).from;
            self.add_sharing_in_range(&mut set, protected, self.links_from(node))?;
            self.add_sharing_listed(&mut set, protected, self.links_to(node))?;
        }
        Ok(set)
    }

    /// The links that fail in the case (this project's rule). In a link case they are the links of the protected
    /// pair; in a node case the links that begin or end at its end; in an SRLG case the links of the protected pair and
    /// of each pair with an end at its beginning that shares a group with it. Its memory is a test for each link of the
    /// graph, and a number for each link that fails.
    pub fn failed(&self, alloc: Global, case: Case) -> Result<LinkSet, AllocError>
        requires { IsCase self.now case }
        ensures { IfOk result (IsFailedSet self.now case) }
    {
        match case.kind {
            Kind::Link => self.failed_with_link(alloc, case.link),
            Kind::Node => self.failed_with_node(alloc, case.link),
            Kind::Risk => self.failed_with_risk(alloc, case.link),
        }
    }

    /// Whether the risk adds nothing at the link: it shares no group with the protected link, or is of its pair.
    fn adds_nothing(&self, protected: LinkNo, link: LinkNo) -> bool
        requires protected { protected.0 < link_count self.now }
        requires link { link.0 < link_count self.now }
        ensures { (result ≡ true) ↔ AddsNothing self.now protected.0 link.0 }
    {
        !self.shares(link, protected) || is_pair(&self.link(link).key, &self.link(protected).key)
    }

    /// Whether the risk adds nothing at the links of the range.
    fn adds_nothing_in_range(&self, protected: LinkNo, range: LinkRange) -> bool
        requires protected { protected.0 < link_count self.now }
        requires within { range.end ≤ link_count self.now }
        ensures { (result ≡ true) ↔ ((l : ℕ) → IsInRange range.first range.end l → AddsNothing self.now protected.0 l) }
    {
        for link in range.first..range.end {
            if !self.adds_nothing(protected, LinkNo(link)) {
                return false;
            }
        }
        true
    }

    /// Whether the risk adds nothing at the listed links.
    fn adds_nothing_listed(&self, protected: LinkNo, links: &[LinkNo]) -> bool
        requires protected { protected.0 < link_count self.now }
        requires within { (i : ℕ) → i < length links.now → number_at links.now i < link_count self.now }
        ensures { (result ≡ true) ↔ ((l : ℕ) → IsInList links.now l → AddsNothing self.now protected.0 l) }
    {
        for link in links {
            if !self.adds_nothing(protected, *link) {
                return false;
            }
        }
        true
    }

    /// Whether this is an SRLG case in which just the links fail that fail in the link case of the same protected link.
    pub fn fails_as_link(&self, case: Case) -> bool
        requires { IsCase self.now case }
        ensures { IsTrue result ↔ FailsAsLink self.now case }
    {
        if case.kind != Kind::Risk {
            return false;
        }
        if self.groups(case.link).is_empty() {
            return true;
        }
        let node = self.edge(case.link).from;
        self.adds_nothing_in_range(case.link, self.links_from(node))
            && self.adds_nothing_listed(case.link, self.links_to(node))
    }
}
