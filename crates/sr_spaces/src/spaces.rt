//! The spaces of one set of failed links.
ghost use Rattle.std.specs.Prelude.{◌≡◌, ℕ, ◌<◌, ◌↔◌, [], true, IsTrue};
ghost use Rattle.sr_lanes.specs.Bits.{is_in};
ghost use Rattle.sr_model.specs.Graph.{node_count};
ghost use Rattle.sr_model.specs.Walk.{IsOnWay, IsRow};
ghost use Rattle.sr_model.specs.Space.{InP};
ghost use Rattle.sr_spf.specs.Trees.{AreTrees};
ghost use Rattle.sr_spaces.specs.Failure.{HasWalk, HaveWalks, IsAround};

use crate::among::{avoid_links, through_node};
use crate::space::{avoids_links, reaches};
use sr_graph::{Graph, LinkSet};
use sr_lanes::{NodeBits, finite_among};
use sr_model::{FAR, NodeNo};
use sr_spf::Trees;
use std::marker::Model;

/// Of a set of at most this many nodes each is asked alone (this project's rule: that costs less than passes over rows).
const FEW: usize = 4;

/// P of every node of a graph where these links fail, asked of one node or of several at once. Contracts see the graph
/// and the failed links.
#[derive(Drop)]
pub struct Spaces<'a> {
    graph: &'a Graph,
    trees: &'a Trees,
    failed: &'a LinkSet,
    /// The node at which just the failed links lie, where there is one that is known.
    around: Option<NodeNo>,
}

impl<'a> Model for Spaces<'a> {
    ghost use Rattle.sr_spaces.specs.Failure.{Failure, AreSpaces};

    ghost Value = { Failure };

    ghost view = { λ a. record { graph = a.graph.now; failed = a.failed.now } };

    ghost invariant = { λ a. AreSpaces a.graph.now a.trees.now a.failed.now a.around };
}

impl<'a> Spaces<'a> {
    /// The spaces where these links fail, each of which is tested.
    pub fn over(graph: &'a Graph, trees: &'a Trees, failed: &'a LinkSet) -> Spaces<'a>
        requires { AreTrees graph.now trees.now }
        ensures { result ≡ record { graph = graph.now; failed = failed.now } }
    {
        Spaces {
            graph,
            trees,
            failed,
            around: None,
        }
    }

    /// The spaces where these links fail, which are those that begin or end at the node: it alone is tested.
    pub fn around(
        graph: &'a Graph,
        trees: &'a Trees,
        failed: &'a LinkSet,
        node: NodeNo,
    ) -> Spaces<'a>
        requires trees { AreTrees graph.now trees.now }
        requires node { node.0 < node_count graph.now }
        requires around { IsAround graph.now failed.now node.0 }
        ensures { result ≡ record { graph = graph.now; failed = failed.now } }
    {
        Spaces {
            graph,
            trees,
            failed,
            around: Some(node),
        }
    }

    /// The whole graph.
    pub fn graph(&self) -> &Graph
        ensures { result.now ≡ self.now.graph }
    {
        self.graph
    }

    /// The failed links.
    pub fn failed(&self) -> &LinkSet
        ensures { result.now ≡ self.now.failed }
    {
        self.failed
    }

    /// The distance in the whole graph from u to each node, by number; `FAR` where there is no walk.
    pub fn row(&self, u: NodeNo) -> &[u64]
        requires { u.0 < node_count self.now.graph }
        ensures { IsRow self.now.graph [] u.0 result.now }
    {
        self.trees.cells(u)
    }

    /// Whether v is in P of u: u reaches v, and no shortest walk from u to v holds a failed link, where every equal-cost
    /// shortest walk counts (this project's rule).
    pub fn in_p(&self, u: NodeNo, v: NodeNo) -> bool
        requires u { u.0 < node_count self.now.graph }
        requires v { v.0 < node_count self.now.graph }
        ensures { IsTrue result ↔ InP self.now.graph self.now.failed u.0 v.0 }
    {
        let row = self.trees.cells(u);
        if row[v.0 as usize] >= FAR {
            return false;
        }
        let Some(node) = self.around else {
            return avoids_links(self.graph, self.trees, row, u, v, self.failed);
        };
        // No shortest walk from a node to itself has a link, also where the node is the failed one.
        if u.0 == v.0 {
            return true;
        }
        !reaches(self.graph, self.trees, row, u, v, node)
    }

    /// Whether a shortest walk from u to v reaches the node, where u reaches v.
    pub fn reaches(&self, u: NodeNo, v: NodeNo, node: NodeNo) -> bool
        requires u { u.0 < node_count self.now.graph }
        requires v { v.0 < node_count self.now.graph }
        requires node { node.0 < node_count self.now.graph }
        requires reached { HasWalk self.now.graph u.0 v.0 }
        ensures { IsTrue result ↔ IsOnWay self.now.graph [] u.0 v.0 node.0 }
    {
        reaches(self.graph, self.trees, self.trees.cells(u), u, v, node)
    }

    /// Those of the nodes to which a shortest walk from u reaches this one, where u reaches each.
    pub fn reaching(&self, u: NodeNo, node: NodeNo, among: NodeBits) -> NodeBits
        requires u { u.0 < node_count self.now.graph }
        requires node { node.0 < node_count self.now.graph }
        requires reached { HaveWalks self.now.graph u.0 among }
        ensures { (v : ℕ) → IsTrue (is_in result v)
            ↔ ((is_in among v ≡ true) × IsOnWay self.now.graph [] u.0 v node.0) }
    {
        through_node(self.graph, self.trees, self.trees.cells(u), u, node, among)
    }

    /// Those of the nodes that are in P of u. Each is asked alone.
    fn p_singly(&self, u: NodeNo, among: NodeBits) -> NodeBits
        requires u { u.0 < node_count self.now.graph }
        requires among { (v : ℕ) → is_in among v ≡ true → v < node_count self.now.graph }
        ensures { (v : ℕ) → IsTrue (is_in result v)
            ↔ ((is_in among v ≡ true) × InP self.now.graph self.now.failed u.0 v) }
    {
        let mut left = among;
        let mut found = NodeBits::none();
        'left: while let Some(node) = left.take_first() {
            if self.in_p(u, NodeNo(node as u16)) {
                found = found.with(node);
            }
        }
        found
    }

    /// Those of the nodes that are in P of u.
    pub fn p_among(&self, u: NodeNo, among: NodeBits) -> NodeBits
        requires u { u.0 < node_count self.now.graph }
        requires among { (v : ℕ) → is_in among v ≡ true → v < node_count self.now.graph }
        ensures { (v : ℕ) → IsTrue (is_in result v)
            ↔ ((is_in among v ≡ true) × InP self.now.graph self.now.failed u.0 v) }
    {
        if among.count() <= FEW {
            return self.p_singly(u, among);
        }
        let row = self.trees.cells(u);
        let reached = finite_among(row, among);
        let Some(node) = self.around else {
            return avoid_links(self.graph, self.trees, row, u, self.failed, reached);
        };
        let away = reached.and_not(through_node(self.graph, self.trees, row, u, node, reached));
        // No shortest walk from a node to itself has a link, also where the node is the failed one.
        if reached.has(u.0 as usize) {
            return away.with(u.0 as usize);
        }
        away
    }
}
