//! The label tables of all nodes.
ghost use Rattle.std.specs.Prelude.{ℕ, ◌<◌};
ghost use Rattle.sr_model.specs.Graph.{node_count};
ghost use Rattle.sr_model.specs.Label.{Net as Labelled, IsLabel};
ghost use Rattle.sr_model.specs.Rule.{IsNet};
ghost use Rattle.sr_model.specs.Table.{IsLookup};
ghost use Rattle.sr_spf.specs.Trees.{AreTrees};
ghost use Rattle.sr_fib.specs.Tables.{IsFib, AreSids};
ghost use Rattle.sr_fib.specs.Outs.{IsIndexed};
ghost use Rattle.sr_fib.specs.Entries.{found_of, IsNodeOf};

use crate::entry::FibEntry;
use crate::hops::Hops;
use crate::sids::Sids;
use crate::sorted::IndexedNode;
use sr_labels::Net;
use sr_model::NodeNo;
use sr_spf::Trees;
use std::marker::Model;

/// The label tables of all nodes of a net. Nothing is kept of them but what names nodes and links by their labels: the net
/// has the ranges and flags, and its trees have the next hops. Contracts see them as the net.
#[derive(Drop)]
pub struct Fib<'a> {
    net: &'a Net,
    trees: &'a Trees,
    sids: &'a Sids,
}

impl<'a> Model for Fib<'a> {
    ghost use Rattle.sr_model.specs.Label.{Net};
    ghost use Rattle.sr_fib.specs.Tables.{AreTables};

    ghost Value = { Net };

    ghost view = { λ f. f.net.now };

    ghost invariant = { λ f. AreTables f.net.now f.trees.now f.sids.now };
}

impl<'a> Fib<'a> {
    /// The label tables of all nodes of the net, whose trees, nodes and links these are.
    pub fn new(net: &'a Net, trees: &'a Trees, sids: &'a Sids) -> Fib<'a>
        requires trees { AreTrees net.now.graph trees.now }
        requires sids { AreSids net.now sids.now }
        ensures { IsFib net.now result }
    {
        // Nothing is read from the graph: that it is there says that the net breaks no rule.
        let _graph = net.graph();
        Fib { net, trees, sids }
    }

    /// The node whose label this is at node `node`.
    fn owner(&self, node: NodeNo, label: u32) -> Option<IndexedNode>
        requires { node.0 < node_count self.now.graph }
        ensures { IsNodeOf self.now node.0 label result }
    {
        match self.net.labels(node).srgb().index(label) {
            Some(index) => match self.sids.node(index) {
                Some(node) => Some(IndexedNode { index, node }),
                None => None,
            },
            None => None,
        }
    }

    /// What the label of node `end` does at node `node`.
    fn towards(&self, node: NodeNo, end: IndexedNode) -> Option<FibEntry<'a>>
        requires node { node.0 < node_count self.now.graph }
        requires end { IsIndexed self.now end }
        ensures { (label : ℕ) → IsLabel self.now node.0 end.node.0 label
            → IsLookup self.now node.0 label (found_of result) }
    {
        if end.node.0 == node.0 {
            return Some(FibEntry::Own);
        }
        let links = self.trees.next_hops(node, end.node);
        if links.is_empty() {
            None
        } else {
            Some(FibEntry::Node(end.node, Hops::new(self.net, end, links)))
        }
    }

    /// What the label does at the node (RFC 8660, 2.10 and 2.11). None exactly where no step is lawful on it there.
    pub fn look(&self, node: NodeNo, label: u32) -> Option<FibEntry<'a>>
        requires { node.0 < node_count self.now.graph }
        ensures { (n : Labelled) → IsNet n → IsFib n self.now → IsLookup n node.0 label (found_of result) }
    {
        if label == 0 {
            return Some(FibEntry::Null);
        }
        match self.owner(node, label) {
            Some(end) => self.towards(node, end),
            None => match self.sids.link(node, label) {
                Some(link) => Some(FibEntry::Adj(link)),
                None => None,
            },
        }
    }
}
