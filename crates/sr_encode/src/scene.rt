//! The scene of a search: what a failure leaves of a net.
ghost use Rattle.std.specs.Prelude.{◌≡◌, ◌<◌, ◌↔◌, ℕ, false, true, slice_index, IsTrue, MatchOption};
ghost use Rattle.sr_model.specs.declared.link.TheConstants.{FAR as Far};
ghost use Rattle.sr_lanes.specs.Bits.{is_in};
ghost use Rattle.sr_model.specs.declared.link.NodeNo.{NodeNo as Number};
ghost use Rattle.sr_model.specs.declared.repair.Segment.TheVariants.{Node, Adj};
ghost use Rattle.sr_model.specs.Graph.{node_count, link_count, tail, is_overloaded};
ghost use Rattle.sr_model.specs.Space.{InP};
ghost use Rattle.sr_model.specs.Walk.{IsRow};
ghost use Rattle.sr_encode.specs.Aftermath.{IsAftermath, IsPivot, AddUpFrom, AddsUp, AllAddUp, AreInside};
ghost use Rattle.sr_encode.specs.Search.{StepsTo, StepsNowhere, BeginsAt, BeginsNowhere};
ghost use Rattle.sr_encode.specs.Serve.{EndsAt};

use sr_graph::Graph;
use sr_labels::Net;
use sr_lanes::{NodeBits, finite, tight_among};
use sr_model::{LinkNo, NodeNo};
use sr_spaces::Spaces;
use std::marker::Model;

/// A net, the spaces of it where links fail, a source, and the distances from the source without those links.
#[derive(Drop)]
pub(crate) struct Scene<'a> {
    net: &'a Net,
    spaces: &'a Spaces<'a>,
    cells: &'a [u64],
    source: NodeNo,
    /// The node at which the failed links lie. Where the distances by a waypoint add up, it alone tells P of the waypoint.
    pivot: NodeNo,
}

impl<'a> Model for Scene<'a> {
    ghost use Rattle.std.specs.Prelude.{◌≡◌};
    ghost use Rattle.sr_encode.specs.Aftermath.{Aftermath, IsAftermath, IsPivot};

    ghost Value = { Aftermath };

    ghost view = { λ a. record { net = a.net.now; failed = a.spaces.now.failed; source = a.source.0; post = a.cells.now } };

    ghost invariant = { λ a. (a.spaces.now.graph ≡ a.net.now.graph) × IsAftermath (record { net = a.net.now; failed = a.spaces.now.failed; source = a.source.0; post = a.cells.now }) × IsPivot a.net.now.graph a.spaces.now.failed a.source.0 a.pivot.0 };
}

impl<'a> Scene<'a> {
    /// The scene of these: `cells` has the distances from the source where the links of `spaces` fail, and those lie at the
    /// pivot.
    pub(crate) fn new(
        net: &'a Net,
        spaces: &'a Spaces<'a>,
        cells: &'a [u64],
        source: NodeNo,
        pivot: NodeNo,
    ) -> Scene<'a>
        requires same { spaces.now.graph ≡ net.now.graph }
        requires source { source.0 < node_count net.now.graph }
        requires cells { IsRow net.now.graph spaces.now.failed source.0 cells.now }
        requires pivot { IsPivot net.now.graph spaces.now.failed source.0 pivot.0 }
        ensures { result ≡ record { net = net.now; failed = spaces.now.failed; source = source.0; post = cells.now } }
    {
        let _graph = net.graph();
        Scene {
            net,
            spaces,
            cells,
            source,
            pivot,
        }
    }

    /// The graph.
    pub(crate) fn graph(&self) -> &Graph
        ensures value { result.now ≡ self.now.net.graph }
        ensures after { IsAftermath self.now }
    {
        self.net.graph()
    }

    /// The source.
    pub(crate) fn source(&self) -> NodeNo
        ensures value { result.0 ≡ self.now.source }
        ensures after { IsAftermath self.now }
    {
        self.source
    }

    /// Those of the nodes to which a walk without the failed links leads from the source.
    pub(crate) fn reached(&self, among: NodeBits) -> NodeBits
        requires { AreInside self.now among }
        ensures { (v : ℕ) → IsTrue (is_in result v) ↔ ((is_in among v ≡ true) × (slice_index self.now.post v < Far)) }
    {
        let _graph = self.graph();
        among.and(finite(self.cells))
    }

    /// Those of the nodes at whose distances from the source the distances by w add up.
    fn fits(&self, w: NodeNo, among: NodeBits) -> NodeBits
        requires w { w.0 < node_count self.now.net.graph }
        requires among { AreInside self.now among }
        ensures after { IsAftermath self.now }
        ensures sums { AddUpFrom self.now w.0 among result }
    {
        let row = self.spaces.row(w);
        tight_among(self.cells, self.cells[w.0 as usize], row, among)
    }

    /// Those of the nodes, at which the distances by w add up, that are in P of w.
    fn those_in_p(&self, w: NodeNo, tight: NodeBits) -> NodeBits
        requires w { w.0 < node_count self.now.net.graph }
        requires tight { AllAddUp self.now w.0 tight }
        ensures { (v : ℕ) → IsTrue (is_in result v)
            ↔ ((is_in tight v ≡ true) × InP self.now.net.graph self.now.failed w.0 v) }
    {
        // The pivot tells nothing of the source and of itself. No search asks of them.
        if w.0 == self.source.0 || w.0 == self.pivot.0 {
            return self.spaces.p_among(w, tight);
        }
        if tight.is_empty() {
            return tight;
        }
        tight.and_not(self.spaces.reaching(w, self.pivot, tight))
    }

    /// Whether d, at which the distances by w add up, is in P of w.
    fn is_in_p(&self, w: NodeNo, d: NodeNo) -> bool
        requires w { w.0 < node_count self.now.net.graph }
        requires d { d.0 < node_count self.now.net.graph }
        requires sum { AddsUp self.now w.0 d.0 }
        ensures { IsTrue result ↔ InP self.now.net.graph self.now.failed w.0 d.0 }
    {
        if w.0 != self.source.0 && w.0 != self.pivot.0 {
            return !self.spaces.reaches(w, d, self.pivot);
        }
        // The pivot tells nothing of the source and of itself. No search asks of them.
        self.spaces.in_p(w, d)
    }

    /// Those of the nodes towards which lists to waypoint w can end there.
    pub(crate) fn ends(&self, w: NodeNo, among: NodeBits) -> NodeBits
        requires w { w.0 < node_count self.now.net.graph }
        requires among { AreInside self.now among }
        ensures after { IsAftermath self.now }
        ensures these { (d : ℕ) → IsTrue (is_in result d) ↔ ((is_in among d ≡ true) × EndsAt self.now w.0 d) }
    {
        // P is asked last, since the pivot tells it of tight sums alone.
        let ends = self.those_in_p(w, self.fits(w, among));
        if self.net.graph().overloaded(w) {
            // No packet passes it.
            return ends.and(NodeBits::alone(w.0 as usize));
        }
        ends
    }

    /// Whether lists to waypoint w can end there towards d.
    pub(crate) fn ends_at(&self, w: NodeNo, d: NodeNo) -> bool
        requires w { w.0 < node_count self.now.net.graph }
        requires d { d.0 < node_count self.now.net.graph }
        ensures { IsTrue result ↔ EndsAt self.now w.0 d.0 }
    {
        // Most waypoints lie farther away, and their row needn't be read.
        if self.cells[w.0 as usize] > self.cells[d.0 as usize] {
            return false;
        }
        let rest = self.spaces.row(w)[d.0 as usize];
        if self.cells[w.0 as usize] + rest != self.cells[d.0 as usize] {
            return false;
        }
        // P is asked last, since the pivot tells it of tight sums alone.
        self.net.graph().carries(d, w) && self.is_in_p(w, d)
    }

    /// Those of the nodes to which a node segment leads on from waypoint w, which isn't overloaded, and keeps to the
    /// distances from the source.
    pub(crate) fn steps(&self, w: NodeNo, among: NodeBits) -> NodeBits
        requires w { w.0 < node_count self.now.net.graph }
        requires clear { is_overloaded self.now.net.graph w.0 ≡ false }
        requires among { AreInside self.now among }
        ensures after { IsAftermath self.now }
        ensures these { (v : ℕ) → IsTrue (is_in result v)
            ↔ ((is_in among v ≡ true) × StepsTo self.now w.0 (Node (record { 0 = v })) v) }
    {
        let _graph = self.graph();
        let others = among.and(self.net.indexed()).without(w.0 as usize);
        // P is asked last, since the pivot tells it of tight sums alone.
        self.those_in_p(w, self.fits(w, others))
    }

    /// The end of the link, where its adjacency segment leads on from its beginning, which isn't overloaded, and keeps to the
    /// distances from the source.
    pub(crate) fn step_over(&self, link: LinkNo) -> Option<NodeNo>
        requires link { link.0 < link_count self.now.net.graph }
        requires clear { is_overloaded self.now.net.graph (tail self.now.net.graph link.0) ≡ false }
        ensures after { IsAftermath self.now }
        ensures step { MatchOption result (StepsNowhere self.now link.0)
            (λ (v : Number). StepsTo self.now (tail self.now.net.graph link.0) (Adj link) v.0) }
    {
        let edge = self.net.graph().edge(link);
        if self.cells[edge.from.0 as usize] + edge.metric as u64 != self.cells[edge.to.0 as usize] {
            return None;
        }
        if self.spaces.failed().has(link) {
            return None;
        }
        if self.net.adj(link).is_none() {
            return None;
        }
        Some(edge.to)
    }

    /// The end of a first link, where the link alone is a list that keeps to the distances from the source.
    pub(crate) fn begin_over(&self, first: LinkNo) -> Option<NodeNo>
        requires first { first.0 < link_count self.now.net.graph }
        requires begins { tail self.now.net.graph first.0 ≡ self.now.source }
        ensures after { IsAftermath self.now }
        ensures begin { MatchOption result (BeginsNowhere self.now first.0)
            (λ (v : Number). BeginsAt self.now first.0 v.0) }
    {
        let edge = self.net.graph().edge(first);
        if self.spaces.failed().has(first) {
            return None;
        }
        if edge.metric as u64 != self.cells[edge.to.0 as usize] {
            return None;
        }
        Some(edge.to)
    }
}
