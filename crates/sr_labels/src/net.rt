//! A net: a graph with its labels.
ghost use Rattle.std.specs.Prelude.{◌≡◌, ◌↔◌, ℕ, ◌<◌, ◌≤◌, true, length, is_some, IfOk, IsTrue, Option};
ghost use Rattle.sr_lanes.specs.Bits.{is_in};
ghost use Rattle.sr_lanes.specs.declared.limits.TheConstants.{NODES_AT_MOST};
ghost use Rattle.sr_labels.specs.Depth.{with_depth};
ghost use Rattle.sr_labels.specs.Indices.{AreIndexed};
ghost use Rattle.sr_model.specs.declared.limits.TheConstants.{MOST_DEPTH};
ghost use Rattle.sr_model.specs.Graph.{node_count, link_count};
ghost use Rattle.sr_model.specs.Case.{key_at};
ghost use Rattle.sr_model.specs.Label.{labels_at, adj_at, key_named, IsPlace};
ghost use Rattle.sr_model.specs.Rule.{IsAccepted, IsNet};

use crate::keys::{named, place};
use crate::node::NodeLabels;
use sr_graph::Graph;
use sr_lanes::NodeBits;
use sr_model::{LinkKey, LinkNo, NodeNo, SystemId};
use std::alloc::{AllocError, Global};
use std::marker::Model;
use std::sync::Arc;

/// The nodes that announce an index.
fn indexed(nodes: &[NodeLabels]) -> NodeBits
    requires { length nodes.now ≤ NODES_AT_MOST }
    ensures { AreIndexed nodes.now result }
{
    let mut set = NodeBits::none();
    for v in 0..nodes.len() {
        if nodes[v].index().is_some() {
            set = set.with(v);
        }
    }
    set
}

/// A graph with what its nodes announce, the adjacency label of each link, and the keys of all two-way announcements: what
/// nets share that differ in depth alone.
#[derive(Debug, Drop)]
pub(crate) struct LabelledGraph {
    pub(crate) graph: Graph,
    pub(crate) nodes: Vec<NodeLabels>,
    pub(crate) adj: Vec<Option<u32>>,
    pub(crate) announced: Vec<LinkKey>,
    /// The nodes that announce an index, so that a search needn't ask each.
    pub(crate) indexed: NodeBits,
}

/// A graph with its labels and announced keys, and how many segments a list may have where its node announces no MSD
/// (maximum SID depth). It breaks no rule on labels.
#[derive(Debug, Drop)]
pub struct Net {
    pub(crate) base: Arc<LabelledGraph>,
    depth: u8,
}

impl Model for Net {
    ghost use Rattle.std.specs.Arc.{arc_value};
    ghost use Rattle.sr_model.specs.Label.{Net as Labelled};
    ghost use Rattle.sr_model.specs.Rule.{IsAccepted};
    ghost use Rattle.sr_labels.specs.Depth.{net_over};
    ghost use Rattle.sr_labels.specs.Indices.{AreIndexed};

    ghost Value = { Labelled };

    ghost view = { λ a. net_over (arc_value a.base) a.depth };

    ghost invariant = { λ a. IsAccepted (net_over (arc_value a.base) a.depth)
        × AreIndexed (arc_value a.base).nodes.items (arc_value a.base).indexed };
}

impl Net {
    /// The net of these. `nodes` has an entry for each node, with an SRGB, and `adj` one for each link. The keys in
    /// `announced` ascend, and that of each link is among them. `depth`, counted in segments, is at most 12. No rule on
    /// labels is broken (`first_clash` answers none). Fails only out of memory.
    pub fn new(
        alloc: Global,
        graph: Graph,
        nodes: Vec<NodeLabels>,
        adj: Vec<Option<u32>>,
        announced: Vec<LinkKey>,
        depth: u8,
    ) -> Result<Net, AllocError>
        requires { IsAccepted
            (record {
              graph = graph;
              labels = nodes.items;
              adj = adj.items;
              announced = announced.items;
              depth = depth;
            }) }
        ensures { IfOk result (λ net. net
            ≡ record {
              graph = graph;
              labels = nodes.items;
              adj = adj.items;
              announced = announced.items;
              depth = depth;
            }) }
    {
        let indexed = indexed(&nodes);
        let labelled = LabelledGraph {
            graph,
            nodes,
            adj,
            announced,
            indexed,
        };
        let base = Arc::new(alloc, labelled)?;
        Ok(Net { base, depth })
    }

    /// The same net with another depth, counted in segments, at most 12. All else is shared, not copied. Fails only out of
    /// memory.
    pub fn with_depth(&self, depth: u8) -> Result<Net, AllocError>
        requires { depth ≤ MOST_DEPTH }
        ensures { IfOk result (λ net. net ≡ with_depth depth self.now) }
    {
        let base = Arc::try_clone(&self.base)?;
        Ok(Net { base, depth })
    }

    /// The graph.
    pub fn graph(&self) -> &Graph
        ensures value { result.now ≡ self.now.graph }
        ensures accepted { IsAccepted self.now }
        ensures net { IsNet self.now }
    {
        &self.base.graph
    }

    /// What the node announces.
    pub fn labels(&self, node: NodeNo) -> &NodeLabels
        requires { node.0 < node_count self.now.graph }
        ensures value { result.now ≡ labels_at self.now node.0 }
        ensures accepted { IsAccepted self.now }
        ensures net { IsNet self.now }
    {
        &self.base.nodes[node.0 as usize]
    }

    /// The nodes that announce an index.
    pub fn indexed(&self) -> NodeBits
        ensures { (v : ℕ) → IsTrue (is_in result v) ↔ (is_some (labels_at self.now v).index ≡ true) }
    {
        self.base.indexed
    }

    /// The label of the link's adjacency segment, where it has one.
    pub fn adj(&self, link: LinkNo) -> Option<u32>
        requires { link.0 < link_count self.now.graph }
        ensures value { result ≡ adj_at self.now link.0 }
        ensures accepted { IsAccepted self.now }
        ensures net { IsNet self.now }
    {
        self.base.adj[link.0 as usize]
    }

    /// How many segments a list may have where its node announces no MSD (maximum SID depth).
    pub fn depth(&self) -> u8
        ensures value { result ≡ self.now.depth }
        ensures accepted { IsAccepted self.now }
        ensures net { IsNet self.now }
    {
        self.depth
    }

    /// The number of the link among the announced keys between its nodes, counted from 1.
    pub fn place(&self, link: LinkNo) -> u64
        requires { link.0 < link_count self.now.graph }
        ensures { IsPlace self.now.announced (key_at self.now.graph link.0) result }
    {
        let base: &LabelledGraph = &self.base;
        place(&base.announced, &base.graph.link(link).key)
    }

    /// The announced key of this number, counted from 1, from the one node to the other. Also keys of links that aren't in
    /// use are counted. None where no key has this number, as none has 0.
    pub fn named(&self, from: SystemId, to: SystemId, n: u64) -> Option<LinkKey>
        ensures { result ≡ key_named self.now.announced from to n }
    {
        named(&self.base.announced, from, to, n)
    }
}
