//! What a search has met: its waypoints, each first met by the least list to it.
ghost use Rattle.std.specs.Prelude.{◌≡◌, ◌+◌, ◌<◌, length, OnOk, IfOk};
ghost use Rattle.sr_model.specs.Graph.{node_count, link_count, tail};
ghost use Rattle.sr_encode.specs.Waypoints.{waypoint_node, Extends};
ghost use Rattle.sr_encode.specs.Search.{IsSearching, IsStarting, LooksFrom, HasRoom, IsMet};

use crate::scene::Scene;
use crate::waypoint::Waypoint;
use sr_graph::LinkRange;
use sr_lanes::{NODES_AT_MOST, NodeBits};
use sr_model::{LinkNo, NodeNo, Segment};
use std::alloc::{AllocError, Global};

/// The waypoints in the order in which a search met them, and the nodes that it hasn't met.
#[derive(Drop)]
pub(crate) struct Met {
    pub(crate) queue: Vec<Waypoint>,
    unmet: NodeBits,
}

impl Met {
    /// No waypoint, with room for all.
    fn none(alloc: Global, scene: &Scene) -> Result<Met, AllocError>
        ensures { IfOk result (λ met. IsStarting scene.now met.queue.items met.unmet 0) }
    {
        let count = scene.graph().node_count() as usize;
        Ok(Met {
            queue: Vec::with_capacity(alloc, count)?,
            unmet: NodeBits::below(count),
        })
    }

    /// Meets the end of a link from the source, where the link alone is a list to it.
    fn begin(&mut self, scene: &Scene, first: LinkNo) -> Result<(), AllocError>
        requires start { IsStarting scene.now self.old.queue.items self.old.unmet first.0 }
        requires first { first.0 < link_count scene.now.net.graph }
        requires begins { tail scene.now.net.graph first.0 ≡ scene.now.source }
        ensures start { OnOk result (IsStarting scene.now self.new.queue.items self.new.unmet (first.0 + 1)) }
    {
        let Some(node) = scene.begin_over(first) else {
            return Ok(());
        };
        if !self.unmet.remove(node.0 as usize) {
            return Ok(());
        }
        self.queue.push(Waypoint {
            node,
            first,
            depth: 0,
            parent: 0,
            segment: Segment::Node(node),
        })?;
        Ok(())
    }

    /// Meets the ends of the links from the source.
    fn begin_all(&mut self, scene: &Scene) -> Result<(), AllocError>
        requires start { IsStarting scene.now self.old.queue.items self.old.unmet 0 }
        ensures search { OnOk result (IsSearching scene.now self.new.queue.items self.new.unmet 0 0) }
    {
        let LinkRange { first, end } = scene.graph().links_from(scene.source());
        for link in first..end {
            self.begin(scene, LinkNo(link))?;
        }
        Ok(())
    }

    /// The ends of the links from the source, where a link alone is a list to its end.
    pub(crate) fn first(alloc: Global, scene: &Scene) -> Result<Met, AllocError>
        ensures { IfOk result (λ met. IsSearching scene.now met.queue.items met.unmet 0 0) }
    {
        let mut met = Met::none(alloc, scene)?;
        met.begin_all(scene)?;
        Ok(met)
    }

    /// Puts node v behind the queue, met by this segment from the waypoint at place i.
    fn meet(&mut self, i: usize, v: NodeNo, segment: Segment) -> Result<(), AllocError>
        requires room { HasRoom self.old.queue.items i }
        requires v { v.0 < NODES_AT_MOST }
        ensures { OnOk result (IsMet self.old self.new i v segment) }
    {
        self.unmet = self.unmet.without(v.0 as usize);
        let from = self.queue[i];
        self.queue.push(Waypoint {
            node: v,
            first: from.first,
            depth: from.depth + 1,
            parent: i as u16,
            segment,
        })?;
        Ok(())
    }

    /// Looks at the node segments after the waypoint w at place i, in the order of nodes.
    fn look_at_nodes(&mut self, scene: &Scene, i: usize, w: NodeNo) -> Result<(), AllocError>
        requires looks { LooksFrom scene.now self.old i 0 }
        requires w { waypoint_node self.old.queue.items i ≡ w.0 }
        ensures looks { OnOk result (LooksFrom scene.now self.new i (node_count scene.now.net.graph)) }
        ensures longer { OnOk result (Extends self.old.queue.items self.new.queue.items) }
    {
        let mut ends = scene.steps(w, self.unmet);
        'ends: while let Some(node) = ends.take_first() {
            let v = NodeNo(node as u16);
            self.meet(i, v, Segment::Node(v))?;
        }
        Ok(())
    }

    /// Looks at the adjacency segment of a link that begins at the waypoint at place i.
    fn look_over(&mut self, scene: &Scene, i: usize, link: LinkNo) -> Result<(), AllocError>
        requires looks { LooksFrom scene.now self.old i (node_count scene.now.net.graph + link.0) }
        requires link { link.0 < link_count scene.now.net.graph }
        requires begins { tail scene.now.net.graph link.0 ≡ waypoint_node self.old.queue.items i }
        ensures looks { OnOk result (LooksFrom scene.now self.new i (node_count scene.now.net.graph + (link.0 + 1))) }
        ensures longer { OnOk result (Extends self.old.queue.items self.new.queue.items) }
    {
        let Some(to) = scene.step_over(link) else {
            return Ok(());
        };
        if !self.unmet.has(to.0 as usize) {
            return Ok(());
        }
        self.meet(i, to, Segment::Adj(link))?;
        Ok(())
    }

    /// Looks at the adjacency segments after the waypoint w at place i, those of the links that begin there, in their order.
    fn look_over_links(&mut self, scene: &Scene, i: usize, w: NodeNo) -> Result<(), AllocError>
        requires looks { LooksFrom scene.now self.old i (node_count scene.now.net.graph) }
        requires w { waypoint_node self.old.queue.items i ≡ w.0 }
        ensures search { OnOk result (IsSearching scene.now self.new.queue.items self.new.unmet (i + 1) 0) }
        ensures longer { OnOk result (Extends self.old.queue.items self.new.queue.items) }
    {
        let LinkRange { first, end } = scene.graph().links_from(w);
        for link in first..end {
            self.look_over(scene, i, LinkNo(link))?;
        }
        Ok(())
    }

    /// Looks at every segment after the waypoint at place i: the nodes first, then the links that begin there. Nothing leads
    /// on from an overloaded node, and nothing is looked for once every node is met.
    pub(crate) fn expand(&mut self, scene: &Scene, i: usize) -> Result<(), AllocError>
        requires search { IsSearching scene.now self.old.queue.items self.old.unmet i 0 }
        requires i { i < length self.old.queue.items }
        ensures search { OnOk result (IsSearching scene.now self.new.queue.items self.new.unmet (i + 1) 0) }
        ensures longer { OnOk result (Extends self.old.queue.items self.new.queue.items) }
    {
        let w = self.queue[i].node;
        if scene.graph().overloaded(w) {
            return Ok(());
        }
        if self.unmet.is_empty() {
            return Ok(());
        }
        self.look_at_nodes(scene, i, w)?;
        if self.unmet.is_empty() {
            return Ok(());
        }
        self.look_over_links(scene, i, w)?;
        Ok(())
    }
}
