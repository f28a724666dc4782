//! Which waypoint serves which destination.
ghost use Rattle.std.specs.Prelude.{◌≡◌, ℕ, ◌+◌, ◌<◌, ◌≤◌, ◌↔◌, true, false, length, IsTrue, IfOk, IfSome, MatchOption};
ghost use Rattle.sr_lanes.specs.Bits.{is_in};
ghost use Rattle.sr_model.specs.Graph.{node_count};
ghost use Rattle.sr_encode.specs.Aftermath.{AreInside};
ghost use Rattle.sr_encode.specs.Serve.{AreNodes, AreLeastFrom, AreOffered, AreTended, ArePlaced, IsLater, IsMetBy, IsHopOf, AreHopsOf, IsTried, IsFirstEnd, NoneEndsFrom};

use crate::scene::Scene;
use crate::waypoint::Waypoint;
use sr_lanes::NodeBits;
use sr_model::{LinkNo, NodeNo};
use sr_post::{HopNodes, Post};
use std::alloc::{AllocError, Global};

/// How many destinations are few: each of them is asked of one waypoint after the other until one serves it, which takes
/// less for them than a pass over all of them for each waypoint (this project's choice).
const FEW: usize = 16;

/// The place in the queue of the waypoint that serves each destination, by the number of its node, and the destinations
/// that are pending: a walk leads there, and no waypoint serves them so far.
#[derive(Drop)]
pub(crate) struct Served {
    pub(crate) places: Vec<Option<u16>>,
    pending: NodeBits,
}

/// Gives these nodes the place k.
fn mark(places: &mut [Option<u16>], nodes: NodeBits, k: u16)
    requires { (d : ℕ) → is_in nodes d ≡ true → d < length places.old }
    ensures { ArePlaced places.old nodes k places.new }
{
    let mut left = nodes;
    'left: while let Some(node) = left.take_first() {
        places[node] = Some(k);
    }
}

/// The place in the queue of the waypoint to which the link alone leads, where a search by first links finds it.
fn place_over(queue: &[Waypoint], link: LinkNo) -> Option<usize>
    ensures { IfSome result (IsMetBy queue.now link.0) }
{
    let place = match queue.binary_search_by_key(&link.0, |waypoint| waypoint.first.0) {
        Ok(place) => place,
        Err(_) => return None,
    };
    if queue[place].depth != 0 {
        return None;
    }
    Some(place)
}

/// The first place from k on of a waypoint at which lists can end towards d, if there is one.
fn first_end(scene: &Scene, queue: &[Waypoint], k: usize, d: NodeNo) -> Option<usize>
    requires nodes { AreNodes scene.now queue.now }
    requires d { d.0 < node_count scene.now.net.graph }
    ensures { MatchOption result (NoneEndsFrom scene.now queue.now d.0 k (length queue.now))
        (λ p. IsFirstEnd scene.now queue.now d.0 k p) }
{
    for at in k..queue.len() {
        if scene.ends_at(queue[at].node, d) {
            return Some(at);
        }
    }
    None
}

impl Served {
    /// Serves those of the pending destinations towards which the hop is kept by the waypoint to which it leads, where
    /// that is found.
    fn take(&mut self, scene: &Scene, queue: &[Waypoint], kept: &HopNodes)
        requires kept { IsHopOf scene.now kept.now }
        requires short { length queue.now ≤ node_count scene.now.net.graph }
        requires offered { AreOffered scene.now queue.now 0 self.old }
        ensures offered { AreOffered scene.now queue.now 0 self.new }
        ensures later { IsLater self.old self.new }
    {
        let _graph = scene.graph();
        let Some(place) = place_over(queue, kept.hop) else {
            return;
        };
        let found = self.pending.and(kept.nodes);
        self.pending = self.pending.and_not(found);
        mark(&mut self.places, found, place as u16);
    }

    /// No destination is served: those to which a walk leads are pending.
    fn none(alloc: Global, scene: &Scene, wanted: NodeBits) -> Result<Served, AllocError>
        requires { AreInside scene.now wanted }
        ensures offered { (queue : _) → IfOk result (AreOffered scene.now queue 0) }
        ensures tended { IfOk result (AreTended scene.now wanted) }
    {
        let count = scene.graph().node_count() as usize;
        Ok(Served {
            places: vec![in alloc; None; count]?,
            pending: scene.reached(wanted),
        })
    }

    /// The destinations to which a next hop still leads are served: the least sound list to such a one is that hop alone.
    /// The others to which a walk leads are pending.
    pub(crate) fn by_hops(
        alloc: Global,
        scene: &Scene,
        queue: &[Waypoint],
        post: &Post,
        wanted: NodeBits,
    ) -> Result<Served, AllocError>
        requires hops { AreHopsOf scene.now post.now.kept }
        requires short { length queue.now ≤ node_count scene.now.net.graph }
        requires wanted { AreInside scene.now wanted }
        ensures offered { IfOk result (AreOffered scene.now queue.now 0) }
        ensures tended { IfOk result (AreTended scene.now wanted) }
    {
        let mut served = Served::none(alloc, scene, wanted)?;
        for kept in post.kept() {
            served.take(scene, queue, kept);
        }
        Ok(served)
    }

    /// Whether each destination to which a walk leads is served.
    pub(crate) fn is_over(&self) -> bool
        ensures { IsTrue result ↔ ((d : ℕ) → is_in self.now.pending d ≡ false) }
    {
        self.pending.is_empty()
    }

    /// Offers the waypoint at place k to the destinations that are pending.
    fn offer(&mut self, scene: &Scene, queue: &[Waypoint], k: usize)
        requires least { AreLeastFrom scene.now queue.now k }
        requires k { k < length queue.now }
        requires offered { AreOffered scene.now queue.now k self.old }
        ensures offered { AreOffered scene.now queue.now (k + 1) self.new }
        ensures later { IsLater self.old self.new }
    {
        let found = scene.ends(queue[k].node, self.pending);
        self.pending = self.pending.and_not(found);
        mark(&mut self.places, found, k as u16);
    }

    /// Offers the waypoints from place k on to a destination that is pending.
    fn offer_to(&mut self, scene: &Scene, queue: &[Waypoint], k: usize, d: NodeNo)
        requires least { AreLeastFrom scene.now queue.now k }
        requires pending { is_in self.old.pending d.0 ≡ true }
        requires offered { AreOffered scene.now queue.now k self.old }
        ensures offered { AreOffered scene.now queue.now k self.new }
        ensures tried { IsTried scene.now queue.now d.0 self.old self.new }
    {
        let _graph = scene.graph();
        if let Some(first) = first_end(scene, queue, k, d) {
            let found = NodeBits::alone(d.0 as usize);
            self.pending = self.pending.and_not(found);
            mark(&mut self.places, found, first as u16);
        }
    }

    /// Offers the waypoints from place k on to the destinations that are pending, one after the other.
    fn offer_to_each(&mut self, scene: &Scene, queue: &[Waypoint], k: usize)
        requires least { AreLeastFrom scene.now queue.now k }
        requires offered { AreOffered scene.now queue.now k self.old }
        ensures offered { AreOffered scene.now queue.now (length queue.now) self.new }
        ensures later { IsLater self.old self.new }
    {
        let _graph = scene.graph();
        let mut left = self.pending;
        'left: while let Some(node) = left.take_first() {
            self.offer_to(scene, queue, k, NodeNo(node as u16));
        }
    }

    /// Offers the waypoints from place k on to the destinations that are pending. A waypoint is offered to all of them at
    /// once, until few are left.
    pub(crate) fn offer_from(&mut self, scene: &Scene, queue: &[Waypoint], k: usize)
        requires least { AreLeastFrom scene.now queue.now k }
        requires k { k ≤ length queue.now }
        requires offered { AreOffered scene.now queue.now k self.old }
        ensures offered { AreOffered scene.now queue.now (length queue.now) self.new }
        ensures later { IsLater self.old self.new }
    {
        for at in k..queue.len() {
            if self.pending.count() <= FEW {
                self.offer_to_each(scene, queue, at);
                return;
            }
            self.offer(scene, queue, at);
        }
    }
}
